//! The table of words: from a word to its class, and from a value to its word.
ghost use Rattle.std.specs.Prelude.{◌≡◌, ℕ, ℤ, ◌<◌, ◌^◌, ◌%◌, ◌/◌, ◌*◌};
ghost use Rattle.tagged_words.specs.declared.kind.Class.TheVariants.{Small, Atom, Other};
ghost use Rattle.tagged_words.specs.Word.{class_of, small_of, small_word, atom_word, header_word};
ghost use Rattle.term_tree.specs.Small.{IsSmall};

use crate::kind::Class;

/// The word of the empty list.
const NIL: u32 = 0x3B;

/// How many words of 28 bits there are, and the first that stands for a negative number.
const SMALL_END: u32 = 268435456;

const SMALL_NEGATIVE: u32 = 134217728;

/// What `w` is by its low bits; every word has one class.
pub fn class(w: u32) -> Class
    ensures { result ≡ class_of w }
{
    if w % 4 == 1 {
        Class::Cons(w - 1)
    } else if w % 4 == 2 {
        Class::Boxed(w - 2)
    } else if w % 16 == 15 {
        Class::Small(signed(w / 16))
    } else if w == NIL {
        Class::Nil
    } else if w % 64 == 11 {
        Class::Atom(w / 64)
    } else {
        Class::Other
    }
}

/// The number that 28 bits stand for, in two's complement.
fn signed(bits: u32) -> i32
    requires { bits < 2 ^ 28 }
    ensures { result ≡ small_of bits }
{
    if bits < SMALL_NEGATIVE {
        bits as i32
    } else {
        bits as i32 - SMALL_END as i32
    }
}

/// The word of the integer `i`, which has to fit 28 bits: from -134,217,728 to 134,217,727.
pub fn small(i: i32) -> u32
    requires in_range { IsSmall i }
    ensures word { result ≡ small_word i }
    ensures back { class_of result ≡ Small i }
{
    if i >= 0 {
        i as u32 * 16 + 15
    } else {
        (i + SMALL_END as i32) as u32 * 16 + 15
    }
}

/// The word of atom number `n`, which is below 67,108,864.
pub fn atom(n: u32) -> u32
    requires in_range { n < 2 ^ 26 }
    ensures word { result ≡ atom_word n }
    ensures back { class_of result ≡ Atom n }
{
    n * 64 + 11
}

/// The word that stands before the `arity` elements of a tuple; `arity` is below 67,108,864.
pub fn header(arity: u32) -> u32
    requires in_range { arity < 2 ^ 26 }
    ensures word { result ≡ header_word arity }
    ensures low_bits { result % 64 ≡ 0 }
    ensures back { result / 64 ≡ arity }
    ensures no_term { class_of result ≡ Other }
{
    arity * 64
}
