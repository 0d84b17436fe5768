//! Built-ins that compare two terms (Erlang reference manual, Expressions, Term Comparisons).
ghost use Rattle.std.specs.Prelude.{◌≡◌, ◌<◌, ◌≤◌, ℕ, List, length};
ghost use Rattle.prim_gates.specs.Ended.{Decides};
ghost use Rattle.prim_gates.specs.Gate.{Memory, prim};
ghost use Rattle.prim_gates.specs.Reply.{Argument};
ghost use Rattle.prim_gates.specs.Said.{said};
ghost use Rattle.prim_gates.specs.Shallow.{argument, ordered, second_taken};
ghost use Rattle.tagged_words.specs.Look.{address_end};
ghost use Rattle.tagged_words.specs.Seen.{Seen, Sees};
ghost use Rattle.tagged_words.specs.Store.{Store, words_in};
ghost use Rattle.word_walks.specs.Compared.{compared, found_of};

use crate::answer::{PrimAnswer, says};
use std::cmp::Ordering;
use tagged_words::{Atoms, Class, Words, class};
use word_walks::{NotATerm, Scratch, compare_words};

/// The order of two small integers: most comparisons are of such, and need no walk.
#[inline]
fn order_of_small(a: u32, b: u32) -> Option<Ordering>
    ensures { (s : Store) (names : List (List ℕ)) (x y : Seen) → Sees s names address_end a x → Sees s names address_end b y → Decides result x y }
{
    let Class::Small(i) = class(a) else {
        return None;
    };
    match class(b) {
        Class::Small(j) => Some(i.cmp(&j)),
        _ => None,
    }
}

/// The order of the terms that two words stand for, as `compare_words` says it.
pub(crate) fn order_of<W: Words>(
    words: &W,
    atoms: &Atoms,
    a: u32,
    b: u32,
    scratch: &mut Scratch,
) -> Result<Ordering, NotATerm>
    requires room { words_in (W.store words.now) < length scratch.old }
    ensures answer { (x y : Seen) → Sees (W.store words.now) atoms.now address_end a x → Sees (W.store words.now) atoms.now address_end b y → found_of result ≡ compared x y }
    ensures same { length scratch.new ≡ length scratch.old }
{
    match order_of_small(a, b) {
        Some(order) => Ok(order),
        None => compare_words(words, atoms, a, b, scratch),
    }
}

/// Whether the test of a built-in holds of an order: those with the numbers 14 to 21.
fn holds(k: u32, order: Ordering) -> bool
    requires low { 14 ≤ k }
    requires high { k ≤ 21 }
    ensures { result ≡ ordered k order }
{
    match k {
        14 => matches!(order, Ordering::Equal),
        15 => !matches!(order, Ordering::Equal),
        16 => matches!(order, Ordering::Equal),
        17 => !matches!(order, Ordering::Equal),
        18 => matches!(order, Ordering::Less),
        19 => matches!(order, Ordering::Greater),
        20 => !matches!(order, Ordering::Greater),
        _ => !matches!(order, Ordering::Less),
    }
}

/// The answer of a built-in that compares two terms: those with the numbers 14 to 21. It looks at words as
/// `compare_words` does.
pub(crate) fn of_order<W: Words>(
    k: u32,
    words: &W,
    atoms: &Atoms,
    a: u32,
    b: u32,
    scratch: &mut Scratch,
) -> PrimAnswer
    requires low { 14 ≤ k }
    requires high { k ≤ 21 }
    requires room { words_in (W.store words.now) < length scratch.old }
    ensures answer { (m : Memory) (x y : Seen) (z : Argument) → Sees (W.store words.now) atoms.now address_end a x
        → Sees (W.store words.now) atoms.now address_end b y → said result ≡ prim k m (argument a x) (argument b y) z }
    ensures same { length scratch.new ≡ length scratch.old }
{
    match order_of(words, atoms, a, b, scratch) {
        Ok(order) => says(holds(k, order)),
        Err(bad) => PrimAnswer::Fault { word: bad.word },
    }
}

/// Whether the second of two terms is taken, by their order: of the built-ins with the numbers 37 and 38.
fn takes_second(k: u32, order: Ordering) -> bool
    requires low { 37 ≤ k }
    requires high { k ≤ 38 }
    ensures { result ≡ second_taken k order }
{
    match k {
        37 => matches!(order, Ordering::Greater),
        _ => matches!(order, Ordering::Less),
    }
}

/// The least of two terms, or the greatest: those with the numbers 37 and 38. Of equal ones it is the first.
pub(crate) fn of_either<W: Words>(
    k: u32,
    words: &W,
    atoms: &Atoms,
    a: u32,
    b: u32,
    scratch: &mut Scratch,
) -> PrimAnswer
    requires low { 37 ≤ k }
    requires high { k ≤ 38 }
    requires room { words_in (W.store words.now) < length scratch.old }
    ensures answer { (m : Memory) (x y : Seen) (z : Argument) → Sees (W.store words.now) atoms.now address_end a x
        → Sees (W.store words.now) atoms.now address_end b y → said result ≡ prim k m (argument a x) (argument b y) z }
    ensures same { length scratch.new ≡ length scratch.old }
{
    match order_of(words, atoms, a, b, scratch) {
        Ok(order) => {
            if takes_second(k, order) {
                PrimAnswer::Value(b)
            } else {
                PrimAnswer::Value(a)
            }
        }
        Err(bad) => PrimAnswer::Fault { word: bad.word },
    }
}
