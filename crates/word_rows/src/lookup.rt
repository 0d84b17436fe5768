//! What is looked up of names in the modules of an image.

ghost use Rattle.beam_code.specs.Function.{all_functions, first_that, is_given, is_target, same_name};
ghost use Rattle.indexmap.specs.IndexSet.{contains};
ghost use Rattle.native_link.specs.Checking.{Linked};
ghost use Rattle.std.specs.Prelude.{◌≡◌, ℕ, List, IfOk};
ghost use Rattle.module_texts.specs.Bounds.{AreBounded};
ghost use Rattle.word_rows.specs.Lookup.{IsLookupOf};

use crate::targets::{Target, target_map};
use beam_code::Module;
use function_numbers::FunctionNumbers;
use indexmap::{IndexMap, IndexSet};
use native_link::Image;
use std::alloc::{AllocError, Global};
use tagged_words::Atoms;
use term_tree::Name;

/// What is looked up of names in an image: the atoms; functions by their names, and by the labels where their calls
/// begin; the modules that are given.
#[derive(Drop)]
pub(crate) struct Lookup {
    pub(crate) atoms: Atoms,
    pub(crate) numbers: FunctionNumbers,
    pub(crate) targets: IndexMap<Target, u32>,
    pub(crate) given: IndexSet<Name>,
}

/// The names of modules.
fn given_names(alloc: Global, modules: &[Module]) -> Result<IndexSet<Name>, AllocError>
    ensures { IfOk result (λ set. (n : List ℕ) → contains same_name set n ≡ is_given modules.now n) }
{
    let mut set = IndexSet::new(alloc);
    for module in modules {
        let name = module.name.copy(alloc)?;
        set.insert(name)?;
    }
    Ok(set)
}

impl Lookup {
    pub(crate) fn new(alloc: Global, image: &Image) -> Result<Lookup, AllocError>
        requires { AreBounded image.now.modules }
        ensures { IfOk result (IsLookupOf image.now) }
    {
        let atoms = image.atoms(alloc)?;
        let numbers = FunctionNumbers::new(alloc, image.checked().modules())?;
        let targets = target_map(alloc, image.checked())?;
        let given = given_names(alloc, image.checked().modules())?;
        Ok(Lookup {
            atoms,
            numbers,
            targets,
            given,
        })
    }

    /// The number of the function of a module whose calls begin at a label with this arity.
    pub(crate) fn target(
        &self,
        alloc: Global,
        owner: &Name,
        label: u32,
        arity: u32,
    ) -> Result<Option<u32>, AllocError>
        ensures { IfOk result (λ found. (l : Linked) → IsLookupOf l self.now → found ≡ first_that (is_target owner.now label arity) 0 (all_functions l.modules)) }
    {
        let owner = owner.copy(alloc)?;
        let key = Target {
            owner,
            label,
            arity,
        };
        Ok(self.targets.get(&key).copied())
    }
}
