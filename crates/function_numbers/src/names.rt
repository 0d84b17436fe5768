//! The names of modules and of their functions, each once.

ghost use Rattle.std.specs.Prelude.{◌≡◌, ℕ, ◌||◌, List, IfOk, OnOk};
ghost use Rattle.std.specs.List.{list_any};
ghost use Rattle.beam_code.specs.Function.{same_name};
ghost use Rattle.function_numbers.specs.Keys.{has_name, is_of_function, mentions};

use beam_code::{Function, Module};
use indexmap::IndexSet;
use std::alloc::{AllocError, Global};
use term_tree::Name;

/// Adds a name, if it is not there yet.
fn add_name(alloc: Global, names: &mut IndexSet<Name>, name: &Name) -> Result<(), AllocError>
    ensures { OnOk result ((n : List ℕ) → has_name names.new.keys n ≡ (has_name names.old.keys n || same_name name.now n)) }
{
    if !names.contains(name) {
        names.insert(name.copy(alloc)?)?;
    }
    Ok(())
}

/// Adds the names of functions.
fn add_functions(
    alloc: Global,
    names: &mut IndexSet<Name>,
    functions: &[Function],
) -> Result<(), AllocError>
    ensures { OnOk result ((n : List ℕ) → has_name names.new.keys n ≡ (has_name names.old.keys n || list_any (is_of_function n) functions.now)) }
{
    for function in functions {
        add_name(alloc, names, &function.name)?;
    }
    Ok(())
}

/// Adds the names of a module: its own and those of its functions.
fn add_module(alloc: Global, names: &mut IndexSet<Name>, owner: &Module) -> Result<(), AllocError>
    ensures { OnOk result ((n : List ℕ) → has_name names.new.keys n ≡ (has_name names.old.keys n || mentions n owner.now)) }
{
    add_name(alloc, names, &owner.name)?;
    add_functions(alloc, names, owner.functions.as_slice())
}

/// The names of modules and of their functions.
pub(crate) fn names_of(alloc: Global, modules: &[Module]) -> Result<IndexSet<Name>, AllocError>
    ensures { IfOk result (λ names. (n : List ℕ) → has_name names.keys n ≡ list_any (mentions n) modules.now) }
{
    let mut names = IndexSet::new(alloc);
    for module in modules {
        add_module(alloc, &mut names, module)?;
    }
    Ok(names)
}
