ghost use Rattle.beam_code.specs.declared.module.Module as module_type;
ghost use Rattle.beam_code.specs.Function.{Placed, label_in};
ghost use Rattle.std.specs.Prelude.{◌≡◌, ◌<◌, ◌^◌, List, IfOk, Some, length, slice_get};
ghost use Rattle.path_rules.specs.Index.{IsIndexOf};
ghost use Rattle.path_rules.specs.Profile.{AreDistinct};
ghost use Rattle.path_rules.specs.Sites.{AreSites, placed_in};

use crate::index::Index;
use crate::lookup::Lookup;
use crate::prepared::{effective_items, label_items};
use beam_code::{Function, Module};
use indexmap::IndexMap;
use sqlite_items::Items;
use std::alloc::{AllocError, Global};

/// What is looked up of a function's items while its paths are followed: the items of its labels;
/// from each item on, the first that has an effect; which items may raise, and which call what
/// they may.
#[derive(Drop)]
pub struct Sites {
    pub(crate) labels: IndexMap<u32, u32>,
    pub(crate) effective: Items<u32>,
    pub(crate) may_raise: Items<bool>,
    pub(crate) calls_well: Items<bool>,
}

impl Sites {
    /// What is looked up of a function of the module of this number.
    pub fn new(
        alloc: Global,
        modules: &[Module],
        index: &Index,
        number: u32,
        owner: &Module,
        function: &Function,
    ) -> Result<Sites, AllocError>
        requires index { IsIndexOf modules.now index.now }
        requires owner { slice_get modules.now number ≡ Some owner.now }
        requires distinct { AreDistinct modules.now }
        requires few { length function.now.items < 2 ^ 32 }
        ensures { IfOk result (AreSites modules.now (placed_in owner.now function.now)) }
    {
        let lookup = Lookup {
            alloc,
            modules,
            index,
            number,
            owner,
            function,
        };
        let may_raise = lookup.raising()?;
        let calls_well = lookup.calling()?;
        let effective = effective_items(alloc, function.items.as_slice())?;
        let labels = label_items(alloc, function.items.as_slice())?;
        Ok(Sites {
            labels,
            effective,
            may_raise,
            calls_well,
        })
    }

    /// The item of a label of the function.
    pub fn label_item(&self, label: u32) -> Option<u32>
        ensures { (ms : List module_type.Module) (f : Placed) → AreSites ms f self.now → result ≡ label_in f.function label }
    {
        self.labels.get(&label).copied()
    }
}
