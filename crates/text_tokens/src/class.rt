ghost use Rattle.std.specs.Prelude.{◌≡◌, ◌≤◌, ◌<◌, min, length, IsTrue};
ghost use Rattle.std.specs.Char as character;
ghost use Rattle.text_tokens.specs.Character as text;
ghost use Rattle.text_tokens.specs.Class.{is_in};

/// A set of bytes.
#[derive(Clone, Copy)]
pub enum Class {
    Byte(u8),
    Digit,
    HexDigit,
    Separator,
    Lower,
    /// What an atom without quotes may go on with.
    Name,
    Sign,
    /// What a comment may go on with.
    Comment,
}

/// The value of a digit or a letter as a digit, from 0 for `0` to 35 for `z`; 36 for another byte.
pub fn digit_value(byte: u8) -> u8
    ensures { result ≡ character.digit_value byte }
{
    match byte {
        b'0'..=b'9' => byte - b'0',
        b'A'..=b'Z' => byte - b'A' + 10,
        b'a'..=b'z' => byte - b'a' + 10,
        _ => 36,
    }
}

/// Whether the byte is in the class.
pub fn passes(class: Class, byte: u8) -> bool
    ensures { result ≡ is_in class byte }
{
    match class {
        Class::Byte(wanted) => byte == wanted,
        Class::Digit => digit_value(byte) < 10,
        Class::HexDigit => digit_value(byte) < 16,
        Class::Separator => byte >= b'\t' && byte <= b'\r' || byte == b' ',
        Class::Lower => byte >= b'a' && byte <= b'z',
        Class::Name => {
            byte >= b'a' && byte <= b'z'
                || byte >= b'A' && byte <= b'Z'
                || byte >= b'0' && byte <= b'9'
                || byte == b'_'
                || byte == b'@'
        }
        Class::Sign => byte == b'+' || byte == b'-',
        Class::Comment => byte != b'\n',
    }
}

/// Whether a first byte is in the class.
pub fn begins(class: Class, bytes: &[u8]) -> bool
    ensures test { result ≡ text.begins (is_in class) bytes.now }
    ensures within { IsTrue result → 0 < length bytes.now }
{
    match bytes.split_first() {
        None => false,
        Some((byte, _)) => passes(class, *byte),
    }
}

/// How many bytes at the front are in the class.
pub fn run(class: Class, bytes: &[u8]) -> usize
    ensures count { result ≡ text.run (is_in class) bytes.now }
    ensures within { result ≤ length bytes.now }
{
    for at in 0..bytes.len() {
        if !passes(class, bytes[at]) {
            return at;
        }
    }
    bytes.len()
}

#[tactic(auto, using(crate::proofs::Runs::number_steps))]
/// The number that the digits of a base write, or 150,000,000 where it is larger.
pub fn number(base: u32, digits: &[u8]) -> u32
    requires least { 1 ≤ base }
    requires most { base ≤ 16 }
    ensures value { result ≡ min (text.number_after base 0 digits.now) 150000000 }
    ensures most { result ≤ 150000000 }
{
    let mut value = 0;
    for digit in digits {
        let more = value * base + u32::from(digit_value(*digit));
        value = more.min(LARGEST);
    }
    value
}

/// The largest number that `number` gives.
const LARGEST: u32 = 150_000_000;
