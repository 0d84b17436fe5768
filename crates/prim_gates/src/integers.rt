//! Built-ins on integers (Erlang reference manual, Expressions, Arithmetic Expressions).
ghost use Rattle.beam_code.specs.Answer as values;
ghost use Rattle.beam_code.specs.BuiltIns.{Badarith};
ghost use Rattle.std.specs.Prelude.{◌≡◌, ◌<◌};
ghost use Rattle.term_tree.specs.Small.{IsSmall};
ghost use Rattle.prim_gates.specs.Reply.{valued};
ghost use Rattle.prim_gates.specs.Said.{said};
ghost use Rattle.prim_gates.specs.Shallow.{on_two};
ghost use Rattle.term_tree.specs.Tree.{Int};

use crate::answer::{BADARITH, PrimAnswer};
use crate::bits::{bits_and, bits_or, bits_xor, shift_left, shift_right};
use tagged_words::small;

/// One more than the greatest small integer, and the least one without its sign.
const SMALL_LIMIT: i64 = 134_217_728;

/// The word of an integer, where it fits 28 bits.
pub(crate) fn exact(value: i64) -> PrimAnswer
    ensures { said result ≡ valued Badarith 0 (values.exact value) }
{
    if (-SMALL_LIMIT..SMALL_LIMIT).contains(&value) {
        PrimAnswer::Value(small(value as i32))
    } else {
        PrimAnswer::Bignum
    }
}

/// A sum.
fn add(i: i32, j: i32) -> PrimAnswer
    ensures { said result ≡ valued Badarith 0 (values.add i j) }
{
    exact(i64::from(i) + i64::from(j))
}

/// A difference.
fn subtract(i: i32, j: i32) -> PrimAnswer
    ensures { said result ≡ valued Badarith 0 (values.subtract i j) }
{
    exact(i64::from(i) - i64::from(j))
}

/// A product.
fn multiply(i: i32, j: i32) -> PrimAnswer
    ensures { said result ≡ valued Badarith 0 (values.multiply i j) }
{
    exact(i64::from(i) * i64::from(j))
}

/// A quotient, towards zero; a divisor of 0 is a failure.
fn divide(i: i32, j: i32) -> PrimAnswer
    ensures { said result ≡ valued Badarith 0 (values.divide i j) }
{
    if j == 0 {
        return BADARITH;
    }
    exact(i64::from(i) / i64::from(j))
}

/// The remainder of that quotient, with the sign of the dividend.
fn remainder(i: i32, j: i32) -> PrimAnswer
    ensures { said result ≡ valued Badarith 0 (values.remainder i j) }
{
    if j == 0 {
        return BADARITH;
    }
    exact(i64::from(i) % i64::from(j))
}

/// The answer of a built-in on two integers: those with the numbers 0 to 9.
pub(crate) fn on_two(k: u32, i: i32, j: i32) -> PrimAnswer
    requires { k < 10 }
    ensures { said result ≡ on_two k (Int i) (Int j) }
{
    match k {
        0 => add(i, j),
        1 => subtract(i, j),
        2 => multiply(i, j),
        3 => divide(i, j),
        4 => remainder(i, j),
        5 => exact(bits_and(i, j)),
        6 => exact(bits_or(i, j)),
        7 => exact(bits_xor(i, j)),
        8 => shift_left(i, j),
        _ => shift_right(i, j),
    }
}
