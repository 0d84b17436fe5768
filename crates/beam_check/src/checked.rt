// Modules in the profile, and what is asked of them.

use beam_code::{Function, HandlerKind, Module};
use function_numbers::FunctionNumbers;
use module_check::FunctionTable;
use sqlite_items::Items;
use std::marker::Model;
use term_tree::Name;

/// Modules in the profile, each that of its own text, which contracts see as their list. Their
/// functions are numbered from 0 in the order of the modules and of their functions.
#[derive(Drop)]
pub struct Checked {
    pub(crate) modules: Items<Module>,
    pub(crate) table: FunctionTable,
    pub(crate) numbers: FunctionNumbers,
}

impl Model for Checked {
    ghost use Rattle.std.specs.Coded.{coded_list};
    ghost use Rattle.std.specs.Prelude.{List};
    ghost use Rattle.beam_code.specs.contracts.module.Module.{the_row};
    ghost use Rattle.beam_code.specs.declared.module.Module.{Module};
    ghost use Rattle.beam_check.specs.Checks.{AreChecked};

    ghost Value = { List Module };

    ghost coded = { coded_list the_row.coded };

    ghost view = { λ c. c.modules };

    ghost invariant = { λ c. AreChecked c.modules c.table c.numbers };
}

impl Checked {
    ghost use Rattle.std.specs.Prelude.{◌≡◌, length, option_map};
    ghost use Rattle.std.specs.Option.{option_copied};
    ghost use Rattle.beam_code.specs.Function.{all_functions, exported_number, function_at, number_of};
    ghost use Rattle.path_rules.specs.Profile.{InProfile};
    ghost use Rattle.module_check.specs.Checks.{IsAbout, first_of};
    ghost use Rattle.beam_check.specs.Carried.{IsHandlerOf, IsStackOf};
    ghost use Rattle.beam_check.specs.Texts.{AreOfTheirTexts};

    /// The modules, in the order in which they were given.
    pub fn modules(&self) -> &[Module]
        ensures { result.now ≡ self.now }
    {
        self.modules.as_slice()
    }

    /// That the modules are in the profile, each that of its own text, which the type keeps.
    pub fn are_in_profile(&self)
        ensures profile { InProfile self.now }
        ensures texts { AreOfTheirTexts self.now }
    {
        let _ = &self.modules;
    }

    /// How many functions they have.
    pub fn functions(&self) -> u32
        ensures { result ≡ length (all_functions self.now) }
    {
        self.table.functions(self.modules.as_slice())
    }

    /// The module of a function.
    pub fn module_of(&self, fid: u32) -> Option<&Module>
        ensures { option_copied result ≡ option_map (λ f. f.owner) (function_at self.now fid) }
    {
        self.table.module_of(self.modules.as_slice(), fid)
    }

    /// The function of this number.
    pub fn function(&self, fid: u32) -> Option<&Function>
        ensures { option_copied result ≡ option_map (λ f. f.function) (function_at self.now fid) }
    {
        self.table.function(self.modules.as_slice(), fid)
    }

    /// How many items the functions before this one have together.
    pub fn first_item(&self, fid: u32) -> Option<u32>
        ensures { result ≡ first_of self.now fid (function_at self.now fid) }
    {
        self.table.first_item(self.modules.as_slice(), fid)
    }

    /// The number of the function of this module, name and arity.
    pub fn find(&self, owner: &Name, name: &Name, arity: u8) -> Option<u32>
        ensures { result ≡ number_of self.now owner.now name.now arity }
    {
        self.numbers.find(owner, name, u32::from(arity))
    }

    /// The number of the function that a module exports by this name and arity.
    pub fn exported(&self, owner: &Name, name: &Name, arity: u8) -> Option<u32>
        ensures { result ≡ exported_number self.now owner.now name.now arity }
    {
        self.numbers.exported(owner, name, u32::from(arity))
    }

    /// How many y registers every path carries to an item of a function, or `None` within for no
    /// stack; `None` where no path comes to the item, or there is no such one.
    pub fn stack(&self, fid: u32, item: u32) -> Option<Option<u16>>
        ensures { IsAbout self.now fid (λ f. IsStackOf self.now f item result) result }
    {
        match self.table.stack(self.modules.as_slice(), fid, item) {
            None => None,
            Some(None) => Some(None),
            Some(Some(size)) => Some(Some(size as u16)),
        }
    }

    /// The item of the label of the lowest tag that every path carries to an item of a function,
    /// and its kind; `None` where there is no tag, no path comes to the item, or there is no such
    /// one.
    pub fn handler(&self, fid: u32, item: u32) -> Option<(u32, HandlerKind)>
        ensures { IsAbout self.now fid (λ f. IsHandlerOf self.now f item result) result }
    {
        self.table.handler(self.modules.as_slice(), fid, item)
    }
}
