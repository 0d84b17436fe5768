ghost use Rattle.std.specs.Prelude.{◌≡◌, ◌≢◌, ◌+◌, ◌≤◌, ◌<◌, ℕ, List, ◌∷◌, length, IfOk, IfSome, IsTrue, [], if◌then◌else◌};
ghost use Rattle.std.specs.List.{list_all};
ghost use Rattle.term_tree.specs.Term.{is_canonical};
ghost use Rattle.text_tokens.specs.Character as quotes;
ghost use Rattle.text_tokens.specs.Pieces as pieces;

use crate::class::{Class, begins, passes, run};
use crate::digits::number_piece;
use crate::quoted::between_quotes;
use crate::token::{Kind, Piece, Reason, Token};
use sqlite_items::Items;
use std::alloc::{AllocError, Global};
use std::str;
use term_tree::{MOST_CHARACTERS, Name, NameRefusal, Term};

/// A comment, by the bytes after its `%`.
#[tactic(auto, using(crate::proofs::Bytes::utf8_steps), unfolding(crate::specs::Pieces::comment))]
#[inline(never)]
fn comment(bytes: &[u8]) -> Piece
    ensures piece { result ≡ pieces.comment bytes.now }
{
    let count = run(Class::Comment, bytes);
    match str::from_utf8(&bytes[..count]) {
        Ok(_) => Piece::Blank(count + 1),
        Err(_) => Piece::Bad(Reason::Syntax),
    }
}

/// An atom with this text.
#[tactic(auto, using(term_tree::proofs::NameLaws::characters_few))]
fn atom(alloc: Global, text: &str, size: usize) -> Result<Piece, AllocError>
    ensures piece { IfOk result (λ piece. piece ≡ pieces.atom text.now size) }
{
    if text.len() <= MOST_CHARACTERS {
        let name = Name::from_short(alloc, text)?;
        return Ok(Piece::Whole(Token::Atom(name), size));
    }
    match Name::new(alloc, text) {
        Ok(name) => Ok(Piece::Whole(Token::Atom(name), size)),
        Err(NameRefusal::TooLong) => Ok(Piece::Bad(Reason::Syntax)),
        Err(NameRefusal::Memory(e)) => Err(e),
    }
}

/// An atom without quotes.
#[tactic(auto, using(crate::proofs::Bytes::utf8_steps), unfolding(crate::specs::Pieces::bare_atom))]
#[inline(never)]
pub fn bare_atom(alloc: Global, bytes: &[u8]) -> Result<Piece, AllocError>
    ensures piece { IfOk result (λ piece. piece ≡ pieces.bare_atom bytes.now) }
{
    let count = run(Class::Name, bytes);
    match str::from_utf8(&bytes[..count]) {
        Ok(text) => atom(alloc, text, count),
        Err(_) => Ok(Piece::Bad(Reason::Syntax)),
    }
}

/// The code points of a string as terms.
#[tactic(auto, using(std::proofs::lemmas::Str::chars_from_encodes))]
fn code_terms(alloc: Global, text: &str) -> Result<Items<Term>, AllocError>
    ensures codes { IfOk result (λ codes. codes ≡ pieces.code_terms text.now) }
{
    let mut codes = Items::new(alloc);
    for code in text.chars() {
        codes.push(Term::Int(code as u32 as i32))?;
    }
    Ok(codes)
}

/// A quoted atom or a string, by the bytes after its opening quote.
#[tactic(auto, unfolding(crate::specs::Pieces::quoted))]
#[inline(never)]
pub fn quoted_piece(alloc: Global, quote: u8, bytes: &[u8]) -> Result<Piece, AllocError>
    ensures piece { IfOk result (λ piece. piece ≡ pieces.quoted quote (length bytes.now + 1) (quotes.between_quotes quote 0 [] bytes.now)) }
{
    let Some(inside) = between_quotes(alloc, quote, bytes)? else {
        return Ok(Piece::Bad(Reason::Syntax));
    };
    let size = bytes.len() + 1 - inside.left;
    if quote == b'\'' {
        atom(alloc, inside.text.as_str(), size)
    } else {
        let codes = code_terms(alloc, inside.text.as_str())?;
        Ok(Piece::Whole(Token::Text(codes), size))
    }
}

/// The dot that ends a form, by the bytes after it.
fn dot(bytes: &[u8]) -> Piece
    ensures piece { result ≡ pieces.dot bytes.now }
{
    match bytes.split_first() {
        None => Piece::Whole(Token::Dot, 1),
        Some((first, _)) => {
            let first = *first;
            if passes(Class::Separator, first) || first == b'%' {
                Piece::Whole(Token::Dot, 1)
            } else {
                Piece::Bad(Reason::Syntax)
            }
        }
    }
}

/// The token that this byte is, whatever follows it.
#[tactic(auto, unfolding(crate::specs::Pieces::piece, crate::specs::Pieces::mark))]
pub fn one_byte_token(byte: u8) -> Option<Token>
    ensures piece { IfSome result (λ token. (rest : List ℕ) → pieces.piece (byte ∷ rest) ≡ Piece.Whole token 1) }
    ensures mark { IfSome result (λ token. (rest : List ℕ) → pieces.mark byte rest ≡ Piece.Whole token 1) }
    ensures others { result ≡ None → (byte ≢ 123) × (byte ≢ 125) × (byte ≢ 91) × (byte ≢ 93) × (byte ≢ 44) × (byte ≢ 124) }
{
    match byte {
        b'{' => Some(Token::OpenTuple),
        b'}' => Some(Token::CloseBrace),
        b'[' => Some(Token::OpenList),
        b']' => Some(Token::CloseBracket),
        b',' => Some(Token::Comma),
        b'|' => Some(Token::Bar),
        _ => None,
    }
}

/// A byte that begins no number, atom, string or comment, and those after it.
#[tactic(auto, unfolding(crate::specs::Pieces::mark))]
#[inline(never)]
fn mark(first: u8, bytes: &[u8]) -> Piece
    ensures piece { result ≡ pieces.mark first bytes.now }
{
    if let Some(token) = one_byte_token(first) {
        return Piece::Whole(token, 1);
    }
    match first {
        b'.' => dot(bytes),
        b'$' => Piece::Bad(Reason::OfKind(Kind::Character)),
        b'<' if begins(Class::Byte(b'<'), bytes) => Piece::Bad(Reason::OfKind(Kind::Binary)),
        b'#' if begins(Class::Byte(b'{'), bytes) => Piece::Whole(Token::OpenMap, 2),
        b'#' => Piece::Bad(Reason::OfKind(Kind::Map)),
        b'=' if begins(Class::Byte(b'>'), bytes) => Piece::Whole(Token::Arrow, 2),
        _ => Piece::Bad(Reason::Syntax),
    }
}

/// What the bytes begin with: the longest token, or a separator or a comment.
#[tactic(auto, unfolding(crate::specs::Pieces::piece))]
pub fn piece(alloc: Global, bytes: &[u8]) -> Result<Piece, AllocError>
    ensures piece { IfOk result (λ piece. piece ≡ pieces.piece bytes.now) }
{
    let Some((first, rest)) = bytes.split_first() else {
        return Ok(Piece::Bad(Reason::Syntax));
    };
    let first = *first;
    if passes(Class::Separator, first) {
        Ok(Piece::Blank(1))
    } else if first == b'%' {
        Ok(comment(rest))
    } else if passes(Class::Digit, first) {
        Ok(number_piece(false, bytes))
    } else if first == b'-' && begins(Class::Digit, rest) {
        Ok(number_piece(true, rest))
    } else if passes(Class::Lower, first) {
        bare_atom(alloc, bytes)
    } else if first == b'\'' || first == b'"' {
        quoted_piece(alloc, first, rest)
    } else {
        Ok(mark(first, rest))
    }
}
