//! The words of terms whose cells lie below an address.
ghost use Rattle.std.specs.Prelude.{◌≡◌, ◌≤◌, ◌*◌, IsTrue};
ghost use Rattle.tagged_words.specs.Atoms.{is_among};
ghost use Rattle.tagged_words.specs.Laid.{atom_number, word_for};
ghost use Rattle.tagged_words.specs.Word.{atom_word};
ghost use Rattle.term_tree.specs.Size as size;
ghost use Rattle.term_tree.specs.Term.{end_tree, tree_of};
ghost use Rattle.word_laying.specs.Laying.{CanBeLaid, Fits};

use sqlite_items::Boxed;
use tagged_words::{Atoms, atom, small};
use term_tree::{Name, Term};

/// The word of the empty list.
const NIL: u32 = 0x3B;

/// The word of a term whose cells end at the address `end`.
#[cycle(word_of)]
pub(crate) fn word_of(term: &Term, end: u32, atoms: &Atoms) -> u32
    requires fits { Fits atoms.now term.now }
    requires below { 4 * size.words_of (tree_of term.now) ≤ end }
    ensures { result ≡ word_for atoms.now end (tree_of term.now) }
{
    match term {
        Term::Int(i) => small(*i),
        Term::Atom(name) => word_of_name(name, atoms),
        Term::List(items, tail) => {
            if items.is_empty() {
                word_of_tail(tail, end, atoms)
            } else {
                end - 7
            }
        }
        Term::Tuple(items) => end - 4 * items.len() as u32 - 2,
    }
}

/// The word of what a list ends in, whose cells end at the address `end`.
#[cycle(word_of)]
pub(crate) fn word_of_tail(tail: &Option<Boxed<Term>>, end: u32, atoms: &Atoms) -> u32
    requires fits { CanBeLaid atoms.now (end_tree tail.now) }
    requires below { 4 * size.words_of (end_tree tail.now) ≤ end }
    ensures { result ≡ word_for atoms.now end (end_tree tail.now) }
{
    match tail {
        None => NIL,
        Some(last) => word_of(last.get(), end, atoms),
    }
}

/// The word of the atom with this name, which is in the table.
fn word_of_name(name: &Name, atoms: &Atoms) -> u32
    requires { IsTrue (is_among name.now atoms.now) }
    ensures { result ≡ atom_word (atom_number atoms.now name.now) }
{
    atom(atoms.number(name).unwrap_or(0))
}
