//! The numbers of functions by module, name and arity.

ghost use Rattle.std.specs.Prelude.{◌≡◌, ◌<◌, ◌^◌, IfOk, List, length};
ghost use Rattle.beam_code.specs.declared.module.Module as module_type;
ghost use Rattle.beam_code.specs.Function.{all_functions, exported_number, number_of};
ghost use Rattle.function_numbers.specs.Numbers.{AreNumbersOf};

use crate::exports::export_set;
use crate::functions::function_map;
use crate::key::{Key, key_of};
use crate::names::names_of;
use beam_code::Module;
use indexmap::{IndexMap, IndexSet};
use std::alloc::{AllocError, Global};
use term_tree::Name;

/// The numbers of functions by module, name and arity.
#[derive(Drop)]
pub struct FunctionNumbers {
    pub(crate) names: IndexSet<Name>,
    pub(crate) functions: IndexMap<Key, u32>,
    pub(crate) exports: IndexSet<Key>,
}

impl FunctionNumbers {
    /// The numbers of the functions of these modules.
    pub fn new(alloc: Global, modules: &[Module]) -> Result<FunctionNumbers, AllocError>
        requires few { length (all_functions modules.now) < 2 ^ 32 }
        ensures { IfOk result (AreNumbersOf modules.now) }
    {
        let names = names_of(alloc, modules)?;
        let functions = function_map(alloc, &names, modules)?;
        let exports = export_set(alloc, &names, modules)?;
        Ok(FunctionNumbers {
            names,
            functions,
            exports,
        })
    }

    /// The number of the first function of this module, name and arity.
    pub fn find(&self, owner: &Name, name: &Name, arity: u32) -> Option<u32>
        ensures { (ms : List module_type.Module) → AreNumbersOf ms self.now → result ≡ number_of ms owner.now name.now arity }
    {
        let key = key_of(&self.names, owner, name, arity)?;
        self.functions.get(&key).copied()
    }

    /// The same of a function that its module exports.
    pub fn exported(&self, owner: &Name, name: &Name, arity: u32) -> Option<u32>
        ensures { (ms : List module_type.Module) → AreNumbersOf ms self.now → result ≡ exported_number ms owner.now name.now arity }
    {
        let key = key_of(&self.names, owner, name, arity)?;
        if self.exports.contains(&key) {
            self.functions.get(&key).copied()
        } else {
            None
        }
    }
}
