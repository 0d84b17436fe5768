//! Terms are laid as words of a region, from an address upwards.
ghost use Rattle.std.specs.Prelude.{◌≡◌, ◌≤◌, ◌+◌, ◌*◌, ◌^◌, ◌↔◌, map, length, reverse, All, IsOk, IfOk, OnOk, OnErr};
ghost use Rattle.laid_terms.specs.Named.{IsNamed};
ghost use Rattle.tagged_words.specs.Laid.{laid, laid_in_turn, word_for, words_in_turn};
ghost use Rattle.term_tree.specs.IsTerm.{IsTerm};
ghost use Rattle.term_tree.specs.Size as size;
ghost use Rattle.term_tree.specs.Term.{end_tree, tree_of};
ghost use Rattle.word_laying.specs.Count.{row_words};
ghost use Rattle.word_laying.specs.Laying.{CanBeLaid, Fits, IsPlace, cells, end_at, region_end};
ghost use Rattle.word_laying.specs.Written.{written};

use crate::counting::words_of;
use crate::words::{word_of, word_of_tail};
use sqlite_items::Boxed;
use tagged_words::{Atoms, WordBlock, header};
use term_tree::Term;

/// Where a term was laid.
#[derive(Drop)]
pub struct Laid {
    /// The word of the term.
    pub word: u32,
    /// The address behind its cells, in bytes.
    pub next: u32,
}

/// The region has no room for the cells of a term.
#[derive(Drop)]
pub struct NoRoom;

/// Writes the words of a term from the address `at` upwards: elements first, left to right, then a
/// list's tail, then the cells, a list's from the last to the first. Nothing changes where the
/// region has no room for all of them.
pub fn lay(block: &mut WordBlock, at: u32, term: &Term, atoms: &Atoms) -> Result<Laid, NoRoom>
    requires place { IsPlace block.old at }
    requires term { IsTerm (tree_of term.now) }
    requires named { IsNamed atoms.now (tree_of term.now) }
    ensures room { IsOk result ↔ (end_at at (tree_of term.now) ≤ region_end block.old) }
    ensures laid { IfOk result (λ r. r ≡ record { word = word_for atoms.now (end_at at (tree_of term.now)) (tree_of term.now); next = end_at at (tree_of term.now) }) }
    ensures words { OnOk result (block.new ≡ written block.old at (laid atoms.now at (tree_of term.now))) }
    ensures kept { OnErr result (block.new ≡ block.old) }
{
    let room = (block.end() - at) / 4;
    if words_of(term) > u64::from(room) {
        return Err(NoRoom);
    }
    let next = lay_in(block, at, term, atoms);
    let word = word_of(term, next, atoms);
    Ok(Laid { word, next })
}

/// Writes the words of a term, where there is room, and gives the address behind them.
#[cycle(lay_in)]
fn lay_in(block: &mut WordBlock, at: u32, term: &Term, atoms: &Atoms) -> u32
    requires room { end_at at (tree_of term.now) ≤ 2 ^ 31 }
    requires fits { Fits atoms.now term.now }
    ensures words { block.new ≡ written block.old at (laid atoms.now at (tree_of term.now)) }
    ensures next { result ≡ end_at at (tree_of term.now) }
{
    match term {
        Term::Int(_) => at,
        Term::Atom(_) => at,
        Term::List(items, tail) => {
            let items_end = lay_row(block, at, items.as_slice(), atoms);
            let cell = lay_tail(block, items_end, tail, atoms);
            let last = word_of_tail(tail, cell, atoms);
            lay_cells(block, cell, items.as_slice(), items_end, last, atoms)
        }
        Term::Tuple(items) => {
            let cell = lay_row(block, at, items.as_slice(), atoms);
            block.set(cell, header(items.len() as u32));
            lay_words(block, cell + 4, items.as_slice(), at, atoms)
        }
    }
}

/// Writes the words of terms one after the other.
#[cycle(lay_in)]
fn lay_row(block: &mut WordBlock, at: u32, items: &[Term], atoms: &Atoms) -> u32
    requires room { at + 4 * row_words 0 (map tree_of items.now) ≤ 2 ^ 31 }
    requires fits { All (Fits atoms.now) items.now }
    ensures words { block.new ≡ written block.old at (laid_in_turn atoms.now at (map tree_of items.now)) }
    ensures next { result ≡ at + 4 * row_words 0 (map tree_of items.now) }
{
    let mut next = at;
    for item in items {
        next = lay_in(block, next, item, atoms);
    }
    next
}

/// Writes the words of what a list ends in.
#[cycle(lay_in)]
fn lay_tail(block: &mut WordBlock, at: u32, tail: &Option<Boxed<Term>>, atoms: &Atoms) -> u32
    requires room { end_at at (end_tree tail.now) ≤ 2 ^ 31 }
    requires fits { CanBeLaid atoms.now (end_tree tail.now) }
    ensures words { block.new ≡ written block.old at (laid atoms.now at (end_tree tail.now)) }
    ensures next { result ≡ end_at at (end_tree tail.now) }
{
    match tail {
        None => at,
        Some(last) => lay_in(block, at, last.get(), atoms),
    }
}

/// How many bytes the cells of a term take.
fn bytes_of(term: &Term) -> u32
    requires { 4 * size.words_of (tree_of term.now) ≤ 2 ^ 31 }
    ensures { result ≡ 4 * size.words_of (tree_of term.now) }
{
    words_of(term) as u32 * 4
}

/// Writes the word of each of these terms, whose cells lie one after the other from the address
/// `first` on.
fn lay_words(block: &mut WordBlock, at: u32, items: &[Term], first: u32, atoms: &Atoms) -> u32
    requires room { at + 4 * length items.now ≤ 2 ^ 31 }
    requires below { first + 4 * row_words 0 (map tree_of items.now) ≤ 2 ^ 31 }
    requires fits { All (Fits atoms.now) items.now }
    ensures words { block.new ≡ written block.old at (words_in_turn atoms.now first (map tree_of items.now)) }
    ensures next { result ≡ at + 4 * length items.now }
{
    let mut next = at;
    let mut end = first;
    for item in items {
        end += bytes_of(item);
        block.set(next, word_of(item, end, atoms));
        next += 4;
    }
    next
}

/// Writes the cells of a list from the last to the first: the cells of its elements end at the
/// address `items_end`, and `last` is the word behind the last element.
fn lay_cells(
    block: &mut WordBlock,
    at: u32,
    items: &[Term],
    items_end: u32,
    last: u32,
    atoms: &Atoms,
) -> u32
    requires room { at + 8 * length items.now ≤ 2 ^ 31 }
    requires below { 4 * row_words 0 (map tree_of items.now) ≤ items_end }
    requires short { items_end ≤ 2 ^ 31 }
    requires fits { All (Fits atoms.now) items.now }
    ensures words { block.new ≡ written block.old at (cells atoms.now items_end at last (reverse (map tree_of items.now))) }
    ensures next { result ≡ at + 8 * length items.now }
{
    let mut next = at;
    let mut end = items_end;
    let mut rest = last;
    for k in (0..items.len()).rev() {
        let item = &items[k];
        block.set(next, word_of(item, end, atoms));
        block.set(next + 4, rest);
        end -= bytes_of(item);
        rest = next + 1;
        next += 8;
    }
    next
}
