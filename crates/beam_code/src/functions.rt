// The functions of a module: their terms are canonical.
use crate::Function;
use sqlite_items::Items;
use std::alloc::{AllocError, Global};
use std::marker::Model;

/// The functions of a module, which contracts see as their list. The terms of all their items are
/// canonical.
#[derive(Drop, Debug)]
pub struct Functions {
    all: Items<Function>,
}

impl Model for Functions {
    ghost use Rattle.std.specs.Coded.{coded_list};
    ghost use Rattle.std.specs.Prelude.{List, IsTrue};
    ghost use Rattle.beam_code.specs.contracts.module.Function.{the_row};
    ghost use Rattle.beam_code.specs.declared.module.Function.{Function};
    ghost use Rattle.beam_code.specs.CanonicalModule.{are_canonical_functions};

    ghost Value = { List Function };

    ghost coded = { coded_list the_row.coded };

    ghost view = { λ f. f.all };

    ghost invariant = { λ f. IsTrue (are_canonical_functions f.all) };
}

impl Functions {
    ghost use Rattle.std.specs.Prelude.{◌≡◌, ◌∷◌, ◌++◌, [], IsTrue, OnOk, OnErr, length};
    ghost use Rattle.beam_code.specs.CanonicalModule.{are_canonical_functions};

    pub fn new(alloc: Global) -> Functions
        ensures { result ≡ [] }
    {
        Functions {
            all: Items::new(alloc),
        }
    }

    pub fn push(&mut self, function: Function) -> Result<(), AllocError>
        ensures ok { OnOk result (self.new ≡ self.old ++ function ∷ []) }
        ensures err { OnErr result (self.new ≡ self.old) }
    {
        function.items.terms_are_canonical();
        self.all.push(function)
    }

    pub fn as_slice(&self) -> &[Function]
        ensures { result.now ≡ self.now }
    {
        self.all.as_slice()
    }

    pub fn len(&self) -> usize
        ensures { result ≡ length self.now }
    {
        self.all.len()
    }

    /// That the terms are canonical, which the type keeps.
    pub fn terms_are_canonical(&self)
        ensures { IsTrue (are_canonical_functions self.now) }
    {
        let _ = &self.all;
    }
}
