ghost use Rattle.std.specs.Prelude.{◌≡◌, ◌+◌, ◌^◌, ◌≤◌, ◌<◌, length, IsTrue};
ghost use Rattle.text_tokens.specs.Pieces as pieces;

use crate::class::{Class, begins, number, run};
use crate::token::{Kind, Piece, Reason, Token};

/// The integer with these digits, or `Token::Wide`.
fn integer(negative: bool, n: u32) -> Token
    requires { n ≤ 150000000 }
    ensures token { result ≡ pieces.integer negative n }
{
    let value = n as i32;
    if negative {
        if n <= 134_217_728 {
            Token::Integer(0 - value)
        } else {
            Token::Wide
        }
    } else if n < 134_217_728 {
        Token::Integer(value)
    } else {
        Token::Wide
    }
}

/// One for a sign at the front, or zero.
fn sign_size(bytes: &[u8]) -> usize
    ensures size { result ≡ pieces.sign_size bytes.now }
    ensures within { result ≤ length bytes.now }
{
    if begins(Class::Sign, bytes) { 1 } else { 0 }
}

/// How many bytes belong to the exponent of a float.
fn exponent_size(bytes: &[u8]) -> usize
    ensures size { result ≡ pieces.exponent_size bytes.now }
    ensures within { result ≤ length bytes.now }
{
    let Some((first, rest)) = bytes.split_first() else {
        return 0;
    };
    let sign = sign_size(rest);
    let count = run(Class::Digit, &rest[sign..]);
    if (*first == b'e' || *first == b'E') && count > 0 {
        1 + sign + count
    } else {
        0
    }
}

/// Whether a point and a digit stand at the front.
fn begins_fraction(bytes: &[u8]) -> bool
    ensures test { result ≡ pieces.begins_fraction bytes.now }
    ensures within { IsTrue result → 0 < length bytes.now }
{
    let Some((first, rest)) = bytes.split_first() else {
        return false;
    };
    *first == b'.' && begins(Class::Digit, rest)
}

/// A float, from its point on, of which `size` bytes stand before the point.
fn float(size: usize, bytes: &[u8]) -> Piece
    requires point { 0 < length bytes.now }
    requires room { size + length bytes.now < 2 ^ 64 }
    ensures piece { result ≡ pieces.float size bytes.now }
{
    let count = run(Class::Digit, &bytes[1..]);
    let exponent = exponent_size(&bytes[1 + count..]);
    Piece::Whole(Token::Float, size + 1 + count + exponent)
}

/// A number by its digits, after its minus sign if it is negative.
#[tactic(auto, using(crate::proofs::Integers::integer_steps), unfolding(crate::specs::Pieces::number))]
pub fn number_piece(negative: bool, bytes: &[u8]) -> Piece
    ensures piece { result ≡ pieces.number negative bytes.now }
{
    let count = run(Class::Digit, bytes);
    let rest = &bytes[count..];
    let size = if negative { count + 1 } else { count };
    if begins_fraction(rest) {
        float(size, rest)
    } else if begins(Class::Byte(b'#'), rest) {
        Piece::Bad(Reason::OfKind(Kind::Based))
    } else {
        let value = number(10, &bytes[..count]);
        Piece::Whole(integer(negative, value), size)
    }
}
