ghost use Rattle.std.specs.Prelude.{◌≡◌, ◌+◌, ◌≤◌, ◌<◌, length, slice_get, IfSome};
ghost use Rattle.std.specs.Char as codes;
ghost use Rattle.text_tokens.specs.Character as text;
ghost use Rattle.text_tokens.specs.Found.{found};

use crate::character::utf8_code;
use crate::class::{Class, begins, digit_value, number, run};
use std::char;

/// A character at the front of some bytes, and how many of them spell it.
#[derive(Clone, Copy)]
pub struct Spelled {
    pub code: char,
    pub size: usize,
}

/// The value of the digit of a base at a place.
fn digit_at(base: u8, bytes: &[u8], at: usize) -> Option<u8>
    ensures value { result ≡ text.digit_value_of base (slice_get bytes.now at) }
    ensures within { IfSome result (λ digit. digit < base) }
{
    let digit = digit_value(*bytes.get(at)?);
    if digit < base { Some(digit) } else { None }
}

/// One to three octal digits.
fn octal_escape(first: u8, bytes: &[u8]) -> (u32, usize)
    requires { first < 8 }
    ensures { result ≡ text.octal_escape first bytes.now }
{
    let first = u32::from(first);
    match digit_at(8, bytes, 0) {
        None => (first, 2),
        Some(second) => {
            let two = first * 8 + u32::from(second);
            match digit_at(8, bytes, 1) {
                None => (two, 3),
                Some(third) => (two * 8 + u32::from(third), 4),
            }
        }
    }
}

/// Two hexadecimal digits; without them `\x` is the character x.
fn two_hex_digits(bytes: &[u8]) -> (u32, usize)
    ensures { result ≡ text.two_hex_digits (text.digit_value_of 16 (slice_get bytes.now 0)) (text.digit_value_of 16 (slice_get bytes.now 1)) }
{
    match digit_at(16, bytes, 0) {
        None => (u32::from(b'x'), 2),
        Some(high) => match digit_at(16, bytes, 1) {
            None => (u32::from(b'x'), 2),
            Some(last) => (u32::from(high) * 16 + u32::from(last), 4),
        },
    }
}

/// Hexadecimal digits and a closing brace; without them `\x` is the character x.
fn braced_escape(bytes: &[u8]) -> Option<(u32, usize)>
    ensures { result ≡ text.braced_escape bytes.now }
{
    let count = run(Class::HexDigit, bytes);
    if count > 0 && begins(Class::Byte(b'}'), &bytes[count..]) {
        let code = char::from_u32(number(16, &bytes[..count]))?;
        Some((u32::from(code), count + 4))
    } else {
        Some((u32::from(b'x'), 2))
    }
}

fn hex_escape(bytes: &[u8]) -> Option<(u32, usize)>
    ensures { result ≡ text.hex_escape bytes.now }
{
    if begins(Class::Byte(b'{'), bytes) {
        braced_escape(&bytes[1..])
    } else {
        Some(two_hex_digits(bytes))
    }
}

/// `\^` and a character from `@` to `_`, or a letter; before another character it is `^`.
fn control_escape(bytes: &[u8]) -> (u32, usize)
    ensures { result ≡ text.control_escape (slice_get bytes.now 0) }
{
    match bytes.get(0) {
        None => (u32::from(b'^'), 2),
        Some(byte) => {
            let byte = *byte;
            if byte >= b'@' && byte <= b'_' {
                (u32::from(byte - b'@'), 3)
            } else if byte >= b'a' && byte <= b'z' {
                (u32::from(byte - b'`'), 3)
            } else {
                (u32::from(b'^'), 2)
            }
        }
    }
}

/// The code that a character of the ASCII range has after a backslash.
fn named(byte: u8) -> u8
    ensures { result ≡ text.named byte }
{
    match byte {
        b'b' => 8,
        b'd' => 127,
        b'e' => 27,
        b'f' => 12,
        b'n' => b'\n',
        b'r' => b'\r',
        b's' => b' ',
        b't' => b'\t',
        b'v' => 11,
        other => other,
    }
}

/// A character that a backslash stands before.
fn after_backslash(bytes: &[u8]) -> Option<(u32, usize)>
    ensures { result ≡ text.after_backslash (text.utf8_code bytes.now) }
{
    let (code, size) = utf8_code(bytes)?;
    Some((code, size + 1))
}

/// The code that a backslash and these bytes begin with.
fn escape(bytes: &[u8]) -> Option<(u32, usize)>
    ensures { result ≡ text.escape bytes.now }
{
    let (first, rest) = bytes.split_first()?;
    let first = *first;
    let digit = digit_value(first);
    if digit < 8 {
        Some(octal_escape(digit, rest))
    } else if first == b'x' {
        hex_escape(rest)
    } else if first == b'^' {
        Some(control_escape(rest))
    } else if first < 128 {
        Some((u32::from(named(first)), 2))
    } else {
        after_backslash(bytes)
    }
}

/// The code at the front, as it stands between quotes.
fn quoted_code(bytes: &[u8]) -> Option<(u32, usize)>
    ensures { result ≡ text.quoted_code bytes.now }
{
    let (first, rest) = bytes.split_first()?;
    if *first == b'\\' {
        escape(rest)
    } else {
        utf8_code(bytes)
    }
}

#[tactic(auto, unfolding(crate::specs::Character::quoted_character))]
/// The character at the front, as it stands between quotes.
pub fn quoted_character(bytes: &[u8]) -> Option<Spelled>
    ensures { found result ≡ text.quoted_character bytes.now }
{
    let (code, size) = quoted_code(bytes)?;
    let code = char::from_u32(code)?;
    Some(Spelled { code, size })
}
