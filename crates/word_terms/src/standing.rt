//! Whether a word stands for a term of the code.
ghost use Rattle.std.specs.Prelude.{◌≡◌, ◌+◌, ◌*◌, ◌^◌, ◌≤◌, map, length, IfSome};
ghost use Rattle.tagged_words.specs.Look.{address_end, look_of};
ghost use Rattle.term_tree.specs.Term.{end_tree, tree_of};
ghost use Rattle.term_tree.specs.Tree.{Tree, conses, trees_of};
ghost use Rattle.word_terms.specs.Standing.{all_stand, cons_in, is_atom, is_integer, is_nil, stands, stands_at, tuple_in};

use sqlite_items::Boxed;
use tagged_words::{Atoms, Look, Words, look_at};
use term_tree::{Name, Term};

/// Whether `w` stands for a term: its tree, where each pointer inside a cell leads below that cell,
/// is the term's. It takes no memory, and calls itself only as deep as the term's brackets nest.
pub fn stands_for<W: Words>(words: &W, atoms: &Atoms, w: u32, term: &Term) -> bool
    ensures { result ≡ stands (W.store words.now) atoms.now address_end w (tree_of term.now) }
{
    stands_below(words, atoms, u32::MAX, w, term)
}

/// A word, and the address that its pointer has to lead below.
#[derive(Clone, Copy, Drop)]
struct Spot {
    limit: u32,
    word: u32,
}

/// The same of a word whose pointer has to lead below `limit`.
#[cycle(stands)]
fn stands_below<W: Words>(words: &W, atoms: &Atoms, limit: u32, w: u32, term: &Term) -> bool
    ensures { result ≡ stands (W.store words.now) atoms.now limit w (tree_of term.now) }
{
    match term {
        Term::Int(i) => is_integer(look_at(words, atoms, limit, w), *i),
        Term::Atom(name) => is_atom(look_at(words, atoms, limit, w), atoms, name),
        Term::List(items, tail) => {
            let first = Spot { limit, word: w };
            let behind = behind_items(words, atoms, first, items.as_slice());
            end_stands(words, atoms, behind, tail)
        }
        Term::Tuple(items) => match tuple_at(words, atoms, limit, w, items.len()) {
            Some(at) => all_stand(words, atoms, at, items.as_slice()),
            None => false,
        },
    }
}

/// The word behind the conses of these items, one for each, where their heads stand for the items.
#[cycle(stands)]
fn behind_items<W: Words>(words: &W, atoms: &Atoms, first: Spot, items: &[Term]) -> Option<Spot>
    ensures { (end : Tree) → stands (W.store words.now) atoms.now first.limit first.word (conses (map tree_of items.now) end)
        ≡ stands_at (W.store words.now) atoms.now result end }
{
    let mut spot = first;
    for item in items {
        let at = cons_at(words, atoms, spot.limit, spot.word)?;
        let head = words.word(at)?;
        if !stands_below(words, atoms, at, head, item) {
            return None;
        }
        let word = words.word(at + 4)?;
        spot = Spot { limit: at, word };
    }
    Some(spot)
}

/// Whether a word behind the items of a list, if there is one, stands for what the list ends in.
#[cycle(stands)]
fn end_stands<W: Words>(
    words: &W,
    atoms: &Atoms,
    behind: Option<Spot>,
    tail: &Option<Boxed<Term>>,
) -> bool
    ensures { result ≡ stands_at (W.store words.now) atoms.now behind (end_tree tail.now) }
{
    let Some(spot) = behind else {
        return false;
    };
    match tail {
        None => is_nil(look_at(words, atoms, spot.limit, spot.word)),
        Some(last) => stands_below(words, atoms, spot.limit, spot.word, last.get()),
    }
}

/// Whether the words behind the header of a tuple stand for these items, one by one.
#[cycle(stands)]
fn all_stand<W: Words>(words: &W, atoms: &Atoms, tuple: u32, items: &[Term]) -> bool
    requires { tuple + 4 * (1 + length items.now) ≤ 2 ^ 32 }
    ensures { result ≡ all_stand (W.store words.now) atoms.now tuple (tuple + 4) (trees_of (map tree_of items.now)) }
{
    let mut at = tuple;
    for item in items {
        at += 4;
        let Some(w) = words.word(at) else {
            return false;
        };
        if !stands_below(words, atoms, tuple, w, item) {
            return false;
        }
    }
    true
}

/// Whether this integer is shown.
fn is_integer(look: Look, i: i32) -> bool
    ensures { result ≡ is_integer i look }
{
    match look {
        Look::Small(j) => j == i,
        _ => false,
    }
}

/// Whether the atom of this name is shown.
fn is_atom(look: Look, atoms: &Atoms, name: &Name) -> bool
    ensures { result ≡ is_atom atoms.now name.now look }
{
    match look {
        Look::Atom(n) => match atoms.name(n) {
            Some(other) => other == name,
            None => false,
        },
        _ => false,
    }
}

/// Whether the empty list is shown.
fn is_nil(look: Look) -> bool
    ensures { result ≡ is_nil look }
{
    matches!(look, Look::Nil)
}

/// The address of the cons that a word shows, if it shows one.
fn cons_at<W: Words>(words: &W, atoms: &Atoms, limit: u32, w: u32) -> Option<u32>
    ensures shown { result ≡ cons_in (look_of (W.store words.now) atoms.now limit w) }
    ensures within { IfSome result (λ at. at + 8 ≤ 2 ^ 32) }
{
    match look_at(words, atoms, limit, w) {
        Look::Cons(at) => Some(at),
        _ => None,
    }
}

/// The address of the tuple of `count` elements that a word shows, if it shows one.
fn tuple_at<W: Words>(words: &W, atoms: &Atoms, limit: u32, w: u32, count: usize) -> Option<u32>
    ensures shown { result ≡ tuple_in count (look_of (W.store words.now) atoms.now limit w) }
    ensures within { IfSome result (λ at. at + 4 * (1 + count) ≤ 2 ^ 32) }
{
    match look_at(words, atoms, limit, w) {
        Look::Tuple(at, n) => { if n as usize == count { Some(at) } else { None } }
        _ => None,
    }
}
