//! Fields of a word.

ghost use Rattle.std.specs.Prelude.{ℕ, ◌≡◌, ◌<◌, ◌≤◌, ◌-◌, ◌^◌};
ghost use Rattle.sparc_code.specs.Bits.{joined, field_at, unsigned_of, signed_of, IsWithin};

/// `high` moved up by `bits` bits, with `low` below it.
#[inline]
pub(crate) fn join(high: u32, bits: u32, low: u32) -> u32
    requires room { bits < 32 }
    requires high_fits { high < 2 ^ (32 - bits) }
    requires low_fits { low < 2 ^ bits }
    ensures { result ≡ joined high bits low }
{
    high << bits | low
}

/// The field of `bits` bits whose lowest bit is bit `start` of the word.
#[inline]
pub(crate) fn field(word: u32, start: u32, bits: u32) -> u32
    requires start_within { start < 32 }
    requires bits_within { bits < 32 }
    ensures { result ≡ field_at word start bits }
{
    word >> start & ((1 << bits) - 1)
}

/// A signed number as a field of `bits` bits.
#[inline]
pub(crate) fn unsigned_field(bits: u32, number: i32) -> u32
    requires bits_within { bits < 32 }
    requires fits { IsWithin bits number }
    ensures { result ≡ unsigned_of bits number }
{
    field(number.cast_unsigned(), 0, bits)
}

/// The signed number that a field of `bits` bits holds.
#[inline]
pub(crate) fn signed_field(bits: u32, value: u32) -> i32
    requires some_bits { 0 < bits }
    requires bits_within { bits < 32 }
    requires fits { value < 2 ^ bits }
    ensures { result ≡ signed_of bits value }
{
    if value < 1 << (bits - 1) {
        value.cast_signed()
    } else {
        value.cast_signed() - (1 << (bits - 1)) - (1 << (bits - 1))
    }
}
