// What is kept of each function, made in order.

ghost use Rattle.std.specs.List.{Contains};
ghost use Rattle.std.specs.Prelude.{List, ◌≡◌, ◌<◌, ◌+◌, ◌^◌, ◌++◌, [], ◌∷◌, Some, IfOk, IfErr, OnOk, length, slice_get, take};
ghost use Rattle.beam_code.specs.Function.{all_functions};
ghost use Rattle.path_rules.specs.Index.{IsIndexOf};
ghost use Rattle.path_rules.specs.Profile.{AreDistinct, distinct_prop};
ghost use Rattle.path_rules.specs.Sites.{placed_in};
ghost use Rattle.function_check.specs.Order.{AllHold, IsRefused};
ghost use Rattle.function_check.specs.Standings.{AreStandings};
ghost use Rattle.beam_code.specs.declared.module.Module.{Module};
ghost use Rattle.module_check.specs.Entries.{AreReady, HasEntries, before};
ghost use Rattle.module_check.specs.Refusals.{StopsAt, StopsIn};

use crate::entry::Entry;
use crate::refusal::CheckRefusal;
use beam_code::{Function, Module};
use function_check::{Fault, Standing, Subject, check_function};
use path_rules::{Index, Sites};
use sqlite_items::Items;
use std::alloc::{AllocError, Global};

/// What was made so far, and how many items these functions have together.
#[derive(Drop)]
pub(crate) struct Entries {
    pub(crate) list: Items<Entry>,
    pub(crate) items: u32,
}

/// The modules, and what is looked up in them.
#[derive(Drop)]
pub(crate) struct Given<'a> {
    pub(crate) alloc: Global,
    pub(crate) modules: &'a [Module],
    pub(crate) index: &'a Index,
    ghost indexed: { IsIndexOf modules.now index.now },
    ghost distinct: { AreDistinct modules.now } by { distinct_prop modules.now },
    ghost ready: { AreReady modules.now },
}

/// The refusal of a function.
fn refused(alloc: Global, owner: &Module, function: &Function, fault: Fault) -> CheckRefusal
    ensures { (ms : List Module) → IsRefused ms (placed_in owner.now function.now) fault → StopsAt ms (placed_in owner.now function.now) result }
{
    let Fault::Broken { rule, item } = fault else {
        return CheckRefusal::Memory(AllocError);
    };
    let Ok(module) = owner.name.copy(alloc) else {
        return CheckRefusal::Memory(AllocError);
    };
    match function.name.copy(alloc) {
        Err(e) => CheckRefusal::Memory(e),
        Ok(name) => CheckRefusal::Broken {
            rule,
            module,
            function: name,
            arity: function.arity,
            item,
        },
    }
}

/// How paths stand at each item of a function, if it keeps every rule.
fn standings(
    given: &Given,
    number: u32,
    owner: &Module,
    function: &Function,
) -> Result<Items<Option<Standing>>, CheckRefusal>
    requires owner { slice_get given.now.modules.now number ≡ Some owner.now }
    requires function { Contains owner.now.functions function.now }
    ensures standings { IfOk result (AreStandings given.now.modules.now (placed_in owner.now function.now)) }
    ensures holds { IfOk result (λ table. AllHold given.now.modules.now (placed_in owner.now function.now)) }
    ensures refused { IfErr result (StopsAt given.now.modules.now (placed_in owner.now function.now)) }
{
    let sites = Sites::new(
        given.alloc,
        given.modules,
        given.index,
        number,
        owner,
        function,
    )?;
    let subject = Subject {
        alloc: given.alloc,
        modules: given.modules,
        owner,
        function,
        sites: &sites,
    };
    match check_function(&subject) {
        Ok(table) => Ok(table),
        Err(fault) => Err(refused(given.alloc, owner, function, fault)),
    }
}

impl Entries {
    fn push(
        &mut self,
        owner: u32,
        place: u32,
        standings: Items<Option<Standing>>,
        items: u32,
    ) -> Result<(), AllocError>
        requires { self.old.items + items < 2 ^ 32 }
        ensures list { OnOk result (self.new.list ≡ self.old.list ++ record { owner = owner; place = place; first_item = self.old.items; standings = standings } ∷ []) }
        ensures items { OnOk result (self.new.items ≡ self.old.items + items) }
    {
        self.list.push(Entry {
            owner,
            place,
            first_item: self.items,
            standings,
        })?;
        self.items += items;
        Ok(())
    }
}

/// Adds what is kept of the function at this place.
fn add(
    given: &Given,
    number: u32,
    owner: &Module,
    place: usize,
    entries: &mut Entries,
) -> Result<(), CheckRefusal>
    requires owner { slice_get given.now.modules.now number ≡ Some owner.now }
    requires place { place < length owner.now.functions }
    requires entries { HasEntries given.now.modules.now (before given.now.modules.now number owner.now place) entries.old }
    ensures entries { OnOk result (HasEntries given.now.modules.now (before given.now.modules.now number owner.now (place + 1)) entries.new) }
    ensures refused { IfErr result (StopsIn given.now.modules.now (all_functions given.now.modules.now)) }
{
    let function = &owner.functions.as_slice()[place];
    let table = match standings(given, number, owner, function) {
        Ok(table) => table,
        Err(refusal) => return Err(refusal),
    };
    let items = function.items.len() as u32;
    entries.push(number, place as u32, table, items)?;
    Ok(())
}

/// Adds what is kept of each function of a module.
fn add_module(
    given: &Given,
    number: u32,
    owner: &Module,
    entries: &mut Entries,
) -> Result<(), CheckRefusal>
    requires owner { slice_get given.now.modules.now number ≡ Some owner.now }
    requires entries { HasEntries given.now.modules.now (all_functions (take number given.now.modules.now)) entries.old }
    ensures entries { OnOk result (HasEntries given.now.modules.now (all_functions (take (number + 1) given.now.modules.now)) entries.new) }
    ensures refused { IfErr result (StopsIn given.now.modules.now (all_functions given.now.modules.now)) }
{
    for place in 0..owner.functions.len() {
        add(given, number, owner, place, entries)?;
    }
    Ok(())
}

/// What is kept of each function of all modules.
pub(crate) fn enter_all(given: &Given) -> Result<Entries, CheckRefusal>
    ensures entries { IfOk result (HasEntries given.now.modules.now (all_functions given.now.modules.now)) }
    ensures refused { IfErr result (StopsIn given.now.modules.now (all_functions given.now.modules.now)) }
{
    let mut entries = Entries {
        list: Items::new(given.alloc),
        items: 0,
    };
    for number in 0..given.modules.len() {
        add_module(given, number as u32, &given.modules[number], &mut entries)?;
    }
    Ok(entries)
}
