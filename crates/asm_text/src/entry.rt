ghost use Rattle.std.specs.Prelude.{◌≡◌, ◌+◌, ◌<◌, ◌≤◌, ◌∷◌, [], length, drop, is_some, IfOk, IfSome, MatchOption};
ghost use Rattle.std.specs.Option.{option_map};
ghost use Rattle.term_tree.specs.Name.{characters_in};
ghost use Rattle.text_tokens.specs.Character as text;
ghost use Rattle.text_tokens.specs.Class.{is_in};
ghost use Rattle.asm_text.specs.Entry as entry;
ghost use Rattle.asm_text.specs.Entry.{atom_piece, atom_at, sized, function_after, whole_atom, entry_of};

use std::alloc::{AllocError, Global};
use term_tree::{MOST_CHARACTERS, Name};
use text_tokens::{Class, Piece, Token, bare_atom, passes, quoted_character, quoted_piece, run};

/// How many characters stand between single quotes, by the bytes after the opening one, and how
/// many bytes are left after the closing one.
#[tactic(auto, using(crate::proofs::AtomSizes::count_steps))]
fn characters_between(bytes: &[u8]) -> Option<(usize, usize)>
    ensures value { result ≡ option_map (λ inside. (characters_in inside.0, inside.1)) (text.between_quotes 39 0 [] bytes.now) }
    ensures within { IfSome result (λ inside. inside.1 < length bytes.now) }
{
    let mut count = 0usize;
    let mut skip = 0usize;
    let mut rest = bytes;
    while let Some((first, more)) = rest.split_first() {
        if skip > 0 {
            skip -= 1;
        } else if *first == b'\'' {
            return Some((count, more.len()));
        } else {
            let spelled = quoted_character(rest)?;
            count += 1;
            skip = spelled.size.saturating_sub(1);
        }
        rest = more;
    }
    None
}

/// The size of a quoted atom, by the bytes after its opening quote.
fn quoted_size(bytes: &[u8]) -> Option<usize>
    ensures { result ≡ entry.quoted_size (length bytes.now + 1) (option_map (λ inside. (characters_in inside.0, inside.1)) (text.between_quotes 39 0 [] bytes.now)) }
{
    let (count, left) = characters_between(bytes)?;
    if count > MOST_CHARACTERS {
        None
    } else {
        Some(bytes.len() + 1 - left)
    }
}

/// The size of an atom without quotes. Its characters are of one byte each.
fn bare_size(bytes: &[u8]) -> Option<usize>
    ensures { result ≡ let count = text.run (is_in Class.Name) bytes.now in sized count count }
{
    let count = run(Class::Name, bytes);
    if count > MOST_CHARACTERS {
        None
    } else {
        Some(count)
    }
}

/// The size of the atom at the front of some bytes.
#[tactic(auto, using(crate::proofs::AtomSizes::size_steps))]
fn atom_size(bytes: &[u8]) -> Option<usize>
    ensures { result ≡ option_map (λ a. a.1) (atom_at bytes.now) }
{
    let Some((first, rest)) = bytes.split_first() else {
        return None;
    };
    if passes(Class::Lower, *first) {
        bare_size(bytes)
    } else if *first == b'\'' {
        quoted_size(rest)
    } else {
        None
    }
}

/// The bytes behind the colon that stands after so many.
#[tactic(auto, using(crate::proofs::EntryNames::function_steps))]
fn after_colon(word: &[u8], size: usize) -> Option<&[u8]>
    ensures { MatchOption result (function_after (drop size word.now) ≡ None) (λ rest. drop size word.now ≡ 58 ∷ rest.now) }
{
    let (first, rest) = word.get(size..)?.split_first()?;
    if *first == b':' { Some(rest) } else { None }
}

/// Whether a word is the entry of a call. It takes no memory.
#[tactic(auto, using(crate::proofs::EntryNames::entry_steps))]
pub fn is_entry(word: &[u8]) -> bool
    ensures { result ≡ is_some (entry_of word.now) }
{
    let Some(size) = atom_size(word) else {
        return false;
    };
    let Some(rest) = after_colon(word, size) else {
        return false;
    };
    match atom_size(rest) {
        None => false,
        Some(all) => all == rest.len(),
    }
}

fn atom_of(piece: Piece) -> Option<(Name, usize)>
    ensures { result ≡ atom_piece piece }
{
    match piece {
        Piece::Whole(token, size) => match token {
            Token::Atom(name) => Some((name, size)),
            _ => None,
        },
        _ => None,
    }
}

/// The atom at the front of some bytes, with its size.
fn atom_in(alloc: Global, bytes: &[u8]) -> Result<Option<(Name, usize)>, AllocError>
    ensures { IfOk result (λ found. found ≡ atom_at bytes.now) }
{
    let Some((first, rest)) = bytes.split_first() else {
        return Ok(None);
    };
    if passes(Class::Lower, *first) {
        Ok(atom_of(bare_atom(alloc, bytes)?))
    } else if *first == b'\'' {
        Ok(atom_of(quoted_piece(alloc, b'\'', rest)?))
    } else {
        Ok(None)
    }
}

/// The names of the module and of the function of an entry.
pub fn read_entry(alloc: Global, word: &[u8]) -> Result<Option<(Name, Name)>, AllocError>
    ensures { IfOk result (λ names. names ≡ entry_of word.now) }
{
    let Some((owner, size)) = atom_in(alloc, word)? else {
        return Ok(None);
    };
    let Some(rest) = after_colon(word, size) else {
        return Ok(None);
    };
    let Some((function, all)) = atom_in(alloc, rest)? else {
        return Ok(None);
    };
    if all == rest.len() {
        Ok(Some((owner, function)))
    } else {
        Ok(None)
    }
}
