//! Built-ins that look at their arguments by themselves, from left to right.
ghost use Rattle.std.specs.Prelude.{◌≡◌, ◌<◌, ◌≤◌, IsTrue};
ghost use Rattle.prim_gates.specs.Gate.{Memory, prim};
ghost use Rattle.prim_gates.specs.Reply.{Argument};
ghost use Rattle.prim_gates.specs.Said.{said};
ghost use Rattle.prim_gates.specs.Ended.{is_bad};
ghost use Rattle.prim_gates.specs.Shallow.{argument, is_on_one};
ghost use Rattle.tagged_words.specs.Look.{address_end};
ghost use Rattle.tagged_words.specs.Seen.{Seen, Sees};

use crate::answer::{BADARG, BADARITH, PrimAnswer};
use crate::integers::on_two;
use crate::shallow::{of_one, of_truths, truth};
use tagged_words::{Atoms, Look, Words, look_at};

/// Whether a word shows that it stands for no term.
fn is_bad(look: Look) -> bool
    ensures { result ≡ is_bad look }
{
    matches!(look, Look::Bad)
}

/// The answer of a built-in that looks at one term by itself: those with the numbers 10 to 13, 25 to 31 and 35.
pub(crate) fn one_term<W: Words>(k: u32, words: &W, atoms: &Atoms, a: u32) -> PrimAnswer
    requires { IsTrue (is_on_one k) }
    ensures { (m : Memory) (x : Seen) (y z : Argument) → Sees (W.store words.now) atoms.now address_end a x → said result ≡ prim k m (argument a x) y z }
{
    let look = look_at(words, atoms, u32::MAX, a);
    if is_bad(look) {
        return PrimAnswer::Fault { word: a };
    }
    of_one(k, atoms, look)
}

/// The answer of a built-in on two integers: those with the numbers 0 to 9.
pub(crate) fn two_integers<W: Words>(k: u32, words: &W, atoms: &Atoms, a: u32, b: u32) -> PrimAnswer
    requires { k < 10 }
    ensures { (m : Memory) (x y : Seen) (z : Argument) → Sees (W.store words.now) atoms.now address_end a x
        → Sees (W.store words.now) atoms.now address_end b y → said result ≡ prim k m (argument a x) (argument b y) z }
{
    match look_at(words, atoms, u32::MAX, a) {
        Look::Small(i) => match look_at(words, atoms, u32::MAX, b) {
            Look::Small(j) => on_two(k, i, j),
            Look::Bad => PrimAnswer::Fault { word: b },
            _ => BADARITH,
        },
        Look::Bad => PrimAnswer::Fault { word: a },
        _ => BADARITH,
    }
}

/// The answer of a built-in on two truths: those with the numbers 22 to 24.
pub(crate) fn two_truths<W: Words>(k: u32, words: &W, atoms: &Atoms, a: u32, b: u32) -> PrimAnswer
    requires low { 22 ≤ k }
    requires high { k ≤ 24 }
    ensures { (m : Memory) (x y : Seen) (z : Argument) → Sees (W.store words.now) atoms.now address_end a x
        → Sees (W.store words.now) atoms.now address_end b y → said result ≡ prim k m (argument a x) (argument b y) z }
{
    let look = look_at(words, atoms, u32::MAX, a);
    if is_bad(look) {
        return PrimAnswer::Fault { word: a };
    }
    let Some(first) = truth(atoms, look) else {
        return BADARG;
    };
    let second = look_at(words, atoms, u32::MAX, b);
    if is_bad(second) {
        return PrimAnswer::Fault { word: b };
    }
    of_truths(k, atoms, first, second)
}
