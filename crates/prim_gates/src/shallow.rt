//! Built-ins that look at terms by themselves, and into no cell (Erlang reference manual, Expressions; the module
//! erlang).
ghost use Rattle.beam_code.specs.Answer as values;
ghost use Rattle.std.specs.Prelude.{◌≡◌, ◌<◌, ◌≤◌, [], ◌∷◌, Some, IsTrue, get_or};
ghost use Rattle.prim_gates.specs.Said.{said};
ghost use Rattle.term_tree.specs.Tree.{Tree};
ghost use Rattle.prim_gates.specs.Shallow.{tree_shown, on_one, on_two, is_on_one};

use crate::answer::{BADARG, BADARITH, PrimAnswer, says};
use crate::integers::exact;
use tagged_words::{Atoms, Look};

/// The truth that an atom names.
fn truth_named(text: &str) -> Option<bool>
    ensures { result ≡ values.truth_named text.now }
{
    if text == "true" {
        Some(true)
    } else if text == "false" {
        Some(false)
    } else {
        None
    }
}

/// The truth that is shown.
#[tactic(auto, using(crate::proofs::Blanks::unknown))]
pub(crate) fn truth(atoms: &Atoms, look: Look) -> Option<bool>
    ensures { result ≡ values.truth_of (tree_shown atoms.now look) }
{
    match look {
        Look::Atom(n) => match atoms.name(n) {
            Some(name) => truth_named(name.as_str()),
            None => None,
        },
        _ => None,
    }
}

/// The answer on one integer: those with the numbers 10 to 12, which fail with `badarith`.
fn on_integer(k: u32, atoms: &Atoms, look: Look) -> PrimAnswer
    requires low { 10 ≤ k }
    requires high { k ≤ 12 }
    ensures { said result ≡ on_one k (tree_shown atoms.now look) }
{
    match look {
        Look::Small(i) => {
            let i = i64::from(i);
            match k {
                10 => exact(-i - 1),
                11 => exact(-i),
                _ => exact(i),
            }
        }
        _ => BADARITH,
    }
}

/// The size of an integer without its sign.
fn absolute(atoms: &Atoms, look: Look) -> PrimAnswer
    ensures { said result ≡ on_one 13 (tree_shown atoms.now look) }
{
    match look {
        Look::Small(i) => exact(i64::from(i).abs()),
        _ => BADARG,
    }
}

/// The other truth.
fn other(atoms: &Atoms, look: Look) -> PrimAnswer
    ensures { said result ≡ on_one 25 (tree_shown atoms.now look) }
{
    match truth(atoms, look) {
        Some(holds) => says(!holds),
        None => BADARG,
    }
}

/// Whether an integer is shown.
fn is_integer(atoms: &Atoms, look: Look) -> bool
    ensures { result ≡ values.is_integer (tree_shown atoms.now look ∷ []) }
{
    matches!(look, Look::Small(_))
}

/// Whether a list is shown, `[]` among them.
fn is_list(atoms: &Atoms, look: Look) -> bool
    ensures { result ≡ values.is_list (tree_shown atoms.now look ∷ []) }
{
    match look {
        Look::Nil => true,
        Look::Cons(_) => true,
        Look::Bad => true,
        _ => false,
    }
}

/// Whether a test holds: those with the numbers 26 to 31.
fn tested(k: u32, atoms: &Atoms, look: Look) -> PrimAnswer
    requires low { 26 ≤ k }
    requires high { k ≤ 31 }
    ensures { said result ≡ on_one k (tree_shown atoms.now look) }
{
    match k {
        26 => says(is_integer(atoms, look)),
        27 => says(matches!(look, Look::Atom(_))),
        28 => says(is_list(atoms, look)),
        29 => says(matches!(look, Look::Tuple(_, _))),
        30 => says(truth(atoms, look).is_some()),
        _ => says(is_integer(atoms, look)),
    }
}

/// How many elements a tuple has.
#[tactic(auto, using(crate::proofs::Blanks::size_blank))]
fn tuple_size(atoms: &Atoms, look: Look) -> PrimAnswer
    ensures { said result ≡ on_one 35 (tree_shown atoms.now look) }
{
    match look {
        Look::Tuple(_, size) => exact(i64::from(size)),
        _ => BADARG,
    }
}

/// The answer of a built-in that looks at one term by itself.
pub(crate) fn of_one(k: u32, atoms: &Atoms, look: Look) -> PrimAnswer
    requires { IsTrue (is_on_one k) }
    ensures { said result ≡ on_one k (tree_shown atoms.now look) }
{
    match k {
        10..=12 => on_integer(k, atoms, look),
        13 => absolute(atoms, look),
        25 => other(atoms, look),
        35 => tuple_size(atoms, look),
        _ => tested(k, atoms, look),
    }
}

/// The answer on a truth and what is shown beside it: those with the numbers 22 to 24.
pub(crate) fn of_truths(k: u32, atoms: &Atoms, first: bool, second: Look) -> PrimAnswer
    requires low { 22 ≤ k }
    requires high { k ≤ 24 }
    ensures { (v : Tree) → values.truth_of v ≡ Some first → said result ≡ on_two k v (tree_shown atoms.now second) }
{
    match truth(atoms, second) {
        Some(second) => joined(k, first, second),
        None => BADARG,
    }
}

/// The truth of two, as an answer: those with the numbers 22 to 24.
fn joined(k: u32, a: bool, b: bool) -> PrimAnswer
    requires low { 22 ≤ k }
    requires high { k ≤ 24 }
    ensures { (v u : Tree) → values.truth_of v ≡ Some a → values.truth_of u ≡ Some b → said result ≡ on_two k v u }
{
    match k {
        22 => says(a && b),
        23 => says(a || b),
        _ => says(a != b),
    }
}
