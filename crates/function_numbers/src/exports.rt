//! The keys that modules export: those of the first module of each name.

ghost use Rattle.std.specs.Prelude.{◌≡◌, ℕ, ◌&&◌, ◌||◌, IfOk, OnOk, nat_eq, not};
ghost use Rattle.std.specs.List.{list_any};
ghost use Rattle.indexmap.specs.IndexSet.{contains};
ghost use Rattle.function_numbers.specs.Keys as keys;
ghost use Rattle.function_numbers.specs.Keys.{exports_at, has_number, is_among, is_export_at, same_key};

use crate::key::{Key, key_of};
use beam_code::Module;
use indexmap::IndexSet;
use std::alloc::{AllocError, Global};
use term_tree::Name;

/// Notes the exports of a module.
fn add_exports(
    names: &IndexSet<Name>,
    set: &mut IndexSet<Key>,
    owner: &Name,
    exports: &[(Name, u8)],
) -> Result<(), AllocError>
    ensures { OnOk result ((k : keys.Key) → contains same_key set.new k ≡ (contains same_key set.old k || list_any (is_export_at names.now.keys k owner.now) exports.now)) }
{
    for export in exports {
        if let Some(key) = key_of(names, owner, &export.0, u32::from(export.1)) {
            set.insert(key)?;
        }
    }
    Ok(())
}

/// Notes the exports of a module, if it is the first of its name.
fn add_module(
    names: &IndexSet<Name>,
    seen: &mut IndexSet<usize>,
    set: &mut IndexSet<Key>,
    owner: &Module,
) -> Result<(), AllocError>
    ensures seen { OnOk result ((n : ℕ) → contains nat_eq seen.new n ≡ (contains nat_eq seen.old n || has_number names.now.keys n owner.now.name)) }
    ensures added { OnOk result ((k : keys.Key) → contains same_key set.new k ≡ (contains same_key set.old k || (not (contains nat_eq seen.old k.owner) && list_any (is_export_at names.now.keys k owner.now.name) owner.now.exports))) }
{
    match names.get_index_of(&owner.name) {
        None => Ok(()),
        Some(number) => {
            if seen.insert(number)? {
                add_exports(names, set, &owner.name, owner.exports.as_slice())
            } else {
                Ok(())
            }
        }
    }
}

/// The keys that modules export.
pub(crate) fn export_set(
    alloc: Global,
    names: &IndexSet<Name>,
    modules: &[Module],
) -> Result<IndexSet<Key>, AllocError>
    ensures { IfOk result (λ set. (k : keys.Key) → contains same_key set k ≡ is_among names.now.keys k (exports_at names.now.keys k.owner modules.now)) }
{
    let mut seen = IndexSet::new(alloc);
    let mut set = IndexSet::new(alloc);
    for module in modules {
        add_module(names, &mut seen, &mut set, module)?;
    }
    Ok(set)
}
