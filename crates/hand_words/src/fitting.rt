//! Which terms can be laid.
ghost use Rattle.hand_words.specs.Fitting.{IsFitting, Fits};
ghost use Rattle.std.specs.Prelude.{◌≡◌, All, IsTrue, true};
ghost use Rattle.tagged_words.specs.Atoms.{is_among};
ghost use Rattle.term_tree.specs.Name.{is_name};
ghost use Rattle.term_tree.specs.Small.{IsSmall};
ghost use Rattle.term_tree.specs.Term.{end_tree, tree_of};

use sqlite_items::Boxed;
use tagged_words::Atoms;
use term_tree::{Name, Term};

/// The most elements of a tuple.
const MOST_ELEMENTS: usize = 67_108_863;

/// Whether a term can be laid: its integers have 28 bits, its tuples no more elements than a header
/// can say, and its atoms are in the table.
#[cycle(can_be_laid)]
pub fn can_be_laid(term: &Term, atoms: &Atoms) -> bool
    ensures { IsTrue result → IsFitting atoms.now (tree_of term.now) }
{
    match term {
        Term::Int(i) => is_small(*i),
        Term::Atom(name) => is_named(name, atoms),
        Term::List(items, tail) => are_laid(items.as_slice(), atoms) && is_laid(tail, atoms),
        Term::Tuple(items) => items.len() <= MOST_ELEMENTS && are_laid(items.as_slice(), atoms),
    }
}

/// Whether an integer has 28 bits.
fn is_small(i: i32) -> bool
    ensures { IsTrue result → IsSmall i }
{
    (-134_217_728..134_217_728).contains(&i)
}

/// Whether an atom is in the table.
fn is_named(name: &Name, atoms: &Atoms) -> bool
    ensures name { is_name name.now ≡ true }
    ensures there { result ≡ is_among name.now atoms.now }
{
    let _text = name.as_str();
    atoms.has(name)
}

/// Whether each of these terms can be laid.
#[cycle(can_be_laid)]
fn are_laid(items: &[Term], atoms: &Atoms) -> bool
    ensures { IsTrue result → All (Fits atoms.now) items.now }
{
    for item in items {
        if !can_be_laid(item, atoms) {
            return false;
        }
    }
    true
}

/// Whether what a list ends in can be laid.
#[cycle(can_be_laid)]
fn is_laid(tail: &Option<Boxed<Term>>, atoms: &Atoms) -> bool
    ensures { IsTrue result → IsFitting atoms.now (end_tree tail.now) }
{
    match tail {
        None => true,
        Some(last) => can_be_laid(last.get(), atoms),
    }
}
