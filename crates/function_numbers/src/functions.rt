//! The number of the first function of each key.

ghost use Rattle.std.specs.Prelude.{◌≡◌, ◌+◌, ◌<◌, ◌^◌, IfOk, None, OnOk, Some, if◌then◌else◌, length};
ghost use Rattle.std.specs.Option.{option_or};
ghost use Rattle.indexmap.specs.IndexMap.{get};
ghost use Rattle.beam_code.specs.Function.{all_functions, first_that};
ghost use Rattle.function_numbers.specs.Keys as keys;
ghost use Rattle.function_numbers.specs.Keys.{is_function_at, is_placed_at, same_key};

use crate::key::{Key, key_of};
use beam_code::Module;
use indexmap::{IndexMap, IndexSet};
use std::alloc::{AllocError, Global};
use term_tree::Name;

/// Notes the number of a key, if the key has none yet.
fn add_number(map: &mut IndexMap<Key, u32>, key: Key, number: u32) -> Result<(), AllocError>
    ensures { OnOk result ((k : keys.Key) → get same_key map.new k ≡ option_or (get same_key map.old k) (if same_key key k then Some number else None)) }
{
    if !map.contains_key(&key) {
        map.insert(key, number)?;
    }
    Ok(())
}

/// Notes the functions of a module, whose numbers go on from a first one.
fn add_functions(
    names: &IndexSet<Name>,
    map: &mut IndexMap<Key, u32>,
    owner: &Module,
    first: u32,
) -> Result<(), AllocError>
    requires { first + length owner.now.functions < 2 ^ 32 }
    ensures { OnOk result ((k : keys.Key) → get same_key map.new k ≡ option_or (get same_key map.old k) (first_that (is_function_at names.now.keys k owner.now.name) first owner.now.functions)) }
{
    let mut number = first;
    for function in owner.functions.as_slice() {
        let arity = u32::from(function.arity);
        if let Some(key) = key_of(names, &owner.name, &function.name, arity) {
            add_number(map, key, number)?;
        }
        number += 1;
    }
    Ok(())
}

/// The number of the first function of each key.
pub(crate) fn function_map(
    alloc: Global,
    names: &IndexSet<Name>,
    modules: &[Module],
) -> Result<IndexMap<Key, u32>, AllocError>
    requires { length (all_functions modules.now) < 2 ^ 32 }
    ensures { IfOk result (λ map. (k : keys.Key) → get same_key map k ≡ first_that (is_placed_at names.now.keys k) 0 (all_functions modules.now)) }
{
    let mut map = IndexMap::new(alloc);
    let mut number = 0;
    for module in modules {
        add_functions(names, &mut map, module, number)?;
        number += module.functions.len() as u32;
    }
    Ok(map)
}
