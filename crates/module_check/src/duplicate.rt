// Two modules with one name.

ghost use Rattle.std.specs.Prelude.{◌≡◌, ◌∷◌, ◌++◌, [], IfOk, IfSome, None, OnOk, false};
ghost use Rattle.std.specs.List.{list_any};
ghost use Rattle.indexmap.specs.IndexSet.{keys};
ghost use Rattle.beam_code.specs.Function.{same_name};
ghost use Rattle.path_rules.specs.Profile.{AreDistinct};
ghost use Rattle.module_check.specs.Duplicates.{second_from};
ghost use Rattle.module_check.specs.Refusals.{IsDuplicate};

use beam_code::Module;
use indexmap::IndexSet;
use std::alloc::{AllocError, Global};
use term_tree::Name;

fn is_there(names: &IndexSet<Name>, name: &Name) -> bool
    ensures { result ≡ list_any (same_name name.now) (keys names.now) }
{
    names.contains(name)
}

/// Adds a name that is not there.
fn add(alloc: Global, names: &mut IndexSet<Name>, name: &Name) -> Result<(), AllocError>
    requires { list_any (same_name name.now) (keys names.old) ≡ false }
    ensures { OnOk result (keys names.new ≡ keys names.old ++ name.now ∷ []) }
{
    let name = name.copy(alloc)?;
    names.insert(name)?;
    Ok(())
}

/// The number of the first module whose name came before.
#[tactic(auto, using(crate::proofs::Duplicated::second_here, crate::proofs::Duplicated::second_later))]
fn first_second(alloc: Global, modules: &[Module]) -> Result<Option<usize>, AllocError>
    ensures { IfOk result (λ r. r ≡ second_from [] 0 modules.now) }
{
    let mut names = IndexSet::new(alloc);
    for (number, module) in modules.iter().enumerate() {
        if is_there(&names, &module.name) {
            return Ok(Some(number));
        }
        add(alloc, &mut names, &module.name)?;
    }
    Ok(None)
}

/// The first module whose name came before.
pub(crate) fn second(alloc: Global, modules: &[Module]) -> Result<Option<&Module>, AllocError>
    ensures none { IfOk result (λ r. r ≡ None → AreDistinct modules.now) }
    ensures some { IfOk result (λ r. IfSome r (λ m. IsDuplicate modules.now m.now.name)) }
{
    match first_second(alloc, modules) {
        Err(e) => Err(e),
        Ok(None) => Ok(None),
        Ok(Some(number)) => Ok(modules.get(number)),
    }
}
