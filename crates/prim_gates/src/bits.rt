//! Built-ins on the bits of integers (Erlang reference manual, Expressions, Arithmetic Expressions): two's complement
//! without end.
ghost use Rattle.beam_code.specs.Answer as values;
ghost use Rattle.beam_code.specs.BuiltIns.{Badarith};
ghost use Rattle.std.specs.Prelude.{◌≡◌, ◌*ℤ◌, ◌^◌, ◌<◌, ◌≤◌, ◌≤ℤ◌, pos, negsuc};
ghost use Rattle.term_tree.specs.Small.{IsSmall};
ghost use Rattle.prim_gates.specs.Reply.{valued};
ghost use Rattle.prim_gates.specs.Said.{said};

use crate::answer::PrimAnswer;
use crate::integers::exact;

/// How far an integer that is not 0 stays small at most, to the left.
const LEFT_END: u32 = 28;

/// How many bits a word has.
const BITS: u32 = 32;

/// The bits of a negative integer, each the other one.
fn others(i: i32) -> u32
    requires { i ≤ℤ negsuc 0 }
    ensures { negsuc result ≡ i }
{
    (-(i + 1)) as u32
}

/// The integer with these bits, each the other one.
fn negative(bits: u32) -> i64
    ensures { result ≡ negsuc bits }
{
    -i64::from(bits) - 1
}

/// The bits that both integers have.
pub(crate) fn bits_and(i: i32, j: i32) -> i64
    ensures { result ≡ values.bits_and i j }
{
    if i >= 0 {
        let a = i as u32;
        if j >= 0 {
            i64::from(a & j as u32)
        } else {
            i64::from(a - (a & others(j)))
        }
    } else {
        let a = others(i);
        if j >= 0 {
            let b = j as u32;
            i64::from(b - (a & b))
        } else {
            negative(a | others(j))
        }
    }
}

/// The bits that one of the integers has, or both.
pub(crate) fn bits_or(i: i32, j: i32) -> i64
    ensures { result ≡ values.bits_or i j }
{
    if i >= 0 {
        let a = i as u32;
        if j >= 0 {
            i64::from(a | j as u32)
        } else {
            let b = others(j);
            negative(b - (a & b))
        }
    } else {
        let a = others(i);
        if j >= 0 {
            negative(a - (a & j as u32))
        } else {
            negative(a & others(j))
        }
    }
}

/// The bits that one of the integers has, and not both.
pub(crate) fn bits_xor(i: i32, j: i32) -> i64
    ensures { result ≡ values.bits_xor i j }
{
    if i >= 0 {
        let a = i as u32;
        if j >= 0 {
            i64::from(a ^ j as u32)
        } else {
            negative(a ^ others(j))
        }
    } else {
        let a = others(i);
        if j >= 0 {
            negative(a ^ j as u32)
        } else {
            i64::from(a ^ others(j))
        }
    }
}

/// Two to a power below 28.
#[tactic(auto, using(crate::proofs::Shifts::low_power))]
fn power(count: u32) -> i64
    requires { count < 28 }
    ensures power { result ≡ pos (2 ^ count) }
    ensures low { 2 ^ count ≤ 134217728 }
{
    i64::from(1_u32 << count)
}

/// A product with a power of two below 2^28.
fn times(i: i32, power: i64) -> i64
    requires positive { pos 0 ≤ℤ power }
    requires low { power ≤ℤ pos 134217728 }
    ensures { result ≡ i *ℤ power }
{
    i64::from(i) * power
}

/// An integer to the left by so many bits.
#[tactic(auto, using(crate::proofs::Shifts::low_power))]
fn left_by(count: u32, i: i32) -> PrimAnswer
    ensures { said result ≡ valued Badarith 0 (values.left_by count i) }
{
    if i == 0 {
        exact(0)
    } else if count < LEFT_END {
        exact(times(i, power(count)))
    } else {
        PrimAnswer::Bignum
    }
}

/// What is left of some bits behind so many to the right.
#[tactic(auto, using(crate::proofs::Shifts::nothing_left))]
fn halved(count: u32, bits: u32) -> u32
    ensures { result ≡ values.halved count bits }
{
    if bits <= count {
        return 0;
    }
    if count >= BITS {
        return 0;
    }
    bits >> count
}

/// An integer to the right by so many bits, downwards.
fn right_by(count: u32, i: i32) -> PrimAnswer
    ensures { said result ≡ valued Badarith 0 (values.right_by count i) }
{
    if i >= 0 {
        exact(i64::from(halved(count, i as u32)))
    } else {
        exact(negative(halved(count, others(i))))
    }
}

/// An integer to the left; a count below 0 is the other shift.
pub(crate) fn shift_left(i: i32, count: i32) -> PrimAnswer
    ensures { said result ≡ valued Badarith 0 (values.shift_left i count) }
{
    if count >= 0 {
        left_by(count as u32, i)
    } else {
        right_by(others(count) + 1, i)
    }
}

/// An integer to the right; a count below 0 is the other shift.
pub(crate) fn shift_right(i: i32, count: i32) -> PrimAnswer
    ensures { said result ≡ valued Badarith 0 (values.shift_right i count) }
{
    if count >= 0 {
        right_by(count as u32, i)
    } else {
        left_by(others(count) + 1, i)
    }
}
