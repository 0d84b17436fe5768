//! Functions by numbers: a name is a place in a set of names.

ghost use Rattle.std.specs.Prelude.{◌≡◌};
ghost use Rattle.function_numbers.specs.Keys.{key_of};

use indexmap::IndexSet;
use term_tree::Name;

/// A function by the numbers of its module's name and of its own name, and its arity.
#[derive(Clone, Copy, PartialEq, Eq, Hash)]
pub(crate) struct Key {
    pub(crate) owner: usize,
    pub(crate) name: usize,
    pub(crate) arity: u32,
}

/// The key of a function, if both names have numbers.
pub(crate) fn key_of(names: &IndexSet<Name>, owner: &Name, name: &Name, arity: u32) -> Option<Key>
    ensures { result ≡ key_of names.now.keys owner.now name.now arity }
{
    let owner = names.get_index_of(owner)?;
    let name = names.get_index_of(name)?;
    Some(Key { owner, name, arity })
}
