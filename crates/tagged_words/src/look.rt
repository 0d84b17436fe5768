//! What a word shows where it is looked at.
ghost use Rattle.std.specs.Prelude.{◌≡◌, ℕ, ◌<◌};
ghost use Rattle.tagged_words.specs.Look.{look_of, look_tuple, look_cons};
ghost use Rattle.tagged_words.specs.Store.{word_of, is_whole};

use crate::addresses::HEAP_START;
use crate::atoms::Atoms;
use crate::kind::Class;
use crate::table::class;
use crate::words::Words;

/// What a word shows by itself: of a cell, that all its words are there, but nothing of what is in it.
#[derive(Clone, Copy, Drop, PartialEq, Eq)]
pub enum Look {
    /// An integer from -134,217,728 to 134,217,727.
    Small(i32),
    /// The number of an atom of the table.
    Atom(u32),
    /// The empty list.
    Nil,
    /// The address of a cons, whose head lies there and whose tail four bytes above.
    Cons(u32),
    /// The address of a tuple, and how many elements lie above its header.
    Tuple(u32, u32),
    /// It stands for no term.
    Bad,
}

/// What `w` shows, where a pointer has to lead to a cell below `limit`: the address of the cell that the word lies in,
/// or 4,294,967,295 for a word that lies in none.
pub fn look_at<W: Words>(words: &W, atoms: &Atoms, limit: u32, w: u32) -> Look
    ensures { result ≡ look_of (W.store words.now) atoms.now limit w }
{
    match class(w) {
        Class::Small(i) => Look::Small(i),
        Class::Atom(n) => {
            if n < atoms.len() {
                Look::Atom(n)
            } else {
                Look::Bad
            }
        }
        Class::Nil => Look::Nil,
        Class::Cons(at) => {
            if at < limit && has_cell(words, at, 2) {
                Look::Cons(at)
            } else {
                Look::Bad
            }
        }
        Class::Boxed(at) => look_at_tuple(words, limit, at),
        Class::Other => Look::Bad,
    }
}

/// What the address of a tuple shows.
fn look_at_tuple<W: Words>(words: &W, limit: u32, at: u32) -> Look
    ensures { result ≡ look_tuple (W.store words.now) limit at (word_of (W.store words.now) at) }
{
    match words.word(at) {
        None => Look::Bad,
        Some(header) => {
            if at < limit && header % 64 == 0 && has_cell(words, at, 1 + header / 64) {
                Look::Tuple(at, header / 64)
            } else {
                Look::Bad
            }
        }
    }
}

/// Whether the `count` words from `at` up are all there, in one region. Regions have no gaps, so the first word and the
/// last one tell of those between.
#[tactic(auto, using(crate::proofs::StoreLaws::whole_by_ends))]
fn has_cell<W: Words>(words: &W, at: u32, count: u32) -> bool
    requires { 0 < count }
    ensures { result ≡ is_whole (W.store words.now) at count }
{
    let last = u64::from(at) + 4 * u64::from(count - 1);
    if last > u64::from(u32::MAX) {
        return false;
    }
    let last = last as u32;
    if at < HEAP_START && last >= HEAP_START {
        return false;
    }
    words.word(at).is_some() && words.word(last).is_some()
}
