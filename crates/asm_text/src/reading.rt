ghost use Rattle.std.specs.Prelude.{◌≡◌, ◌∷◌, [], IfOk, IsTrue};
ghost use Rattle.std.specs.List.{list_all};
ghost use Rattle.term_tree.specs.Term.{is_canonical};
ghost use Rattle.term_tree.specs.declared.term.Term.{out-Term};
ghost use Rattle.text_tokens.specs.Pieces as pieces;
ghost use Rattle.text_tokens.specs.Tokens as tokens;
ghost use Rattle.text_forms.specs.Refusals.{Meets};
ghost use Rattle.text_forms.specs.Spelling.{AreArguments, AreForms};
ghost use Rattle.text_forms.specs.Steps.{before, ended, outcome, proper_items, run, whole_arguments, whole_forms};
ghost use Rattle.asm_text.specs.Advance.{advanced, with_number};
ghost use Rattle.asm_text.specs.Canonical.{has_canonical};
ghost use Rattle.asm_text.specs.Reading.{IsTextOf, IsTextOfArguments, ReadsArguments, ReadsForms, Refuses, arguments, reading};

use sqlite_items::Items;
use std::alloc::Global;
use term_tree::Term;
use text_forms::{
    Form, Last, Looseness, Open, Place, Stand, TextRefusal, before, refusal_at, take,
};
use text_tokens::{Class, Piece, Token, one_byte_token, passes, piece};

/// The line after a byte of this line.
fn line_after(line: u32, byte: u8) -> u32
    ensures { result ≡ tokens.line_after line byte }
{
    if byte == b'\n' {
        line.saturating_add(1)
    } else {
        line
    }
}

/// One token of so many bytes.
#[tactic(auto, using(crate::proofs::Advancing::token_steps))]
fn take_sized(
    alloc: Global,
    stand: &mut Stand,
    line: u32,
    token: Token,
    size: usize,
) -> Result<usize, TextRefusal>
    ensures { Meets (with_number stand.new result) (advanced stand.old line (Piece.Whole token size)) }
{
    take(alloc, stand, line, token)?;
    Ok(size.saturating_sub(1))
}

/// The piece at the front of some bytes; gives how many bytes behind the first are its own.
#[tactic(auto, using(crate::proofs::Advancing::piece_steps))]
#[inline(never)]
fn advance(alloc: Global, stand: &mut Stand, line: u32, bytes: &[u8]) -> Result<usize, TextRefusal>
    ensures { Meets (with_number stand.new result) (advanced stand.old line (pieces.piece bytes.now)) }
{
    match piece(alloc, bytes) {
        Err(e) => Err(TextRefusal::Memory(e)),
        Ok(Piece::Bad(reason)) => Err(refusal_at(line, reason)),
        Ok(Piece::Blank(size)) => Ok(size.saturating_sub(1)),
        Ok(Piece::Whole(token, size)) => take_sized(alloc, stand, line, token, size),
    }
}

/// What the tokens of a text come to, with the line of its last byte.
#[tactic(auto, using(crate::proofs::Advancing::text_steps))]
fn read_on(alloc: Global, stand: &mut Stand, text: &[u8]) -> Result<u32, TextRefusal>
    ensures { Meets (with_number stand.new result) (run stand.old (tokens.tokens text.now)) }
{
    let mut skip = 0usize;
    let mut before = 1u32;
    let mut line = 1u32;
    let mut rest = text;
    while let Some((first, more)) = rest.split_first() {
        if skip > 0 {
            skip -= 1;
        } else if let Some(token) = one_byte_token(*first) {
            take(alloc, stand, line, token)?;
        } else if !passes(Class::Separator, *first) {
            match advance(alloc, stand, line, rest) {
                Err(refusal) => return Err(refusal),
                Ok(size) => skip = size,
            }
        }
        before = line;
        line = line_after(line, *first);
        rest = more;
    }
    Ok(before)
}

/// The forms of a text that ends between two of them.
fn forms_in(alloc: Global, text: &[u8]) -> Result<Items<Form>, TextRefusal>
    ensures { Meets result (outcome whole_forms (run (before Open.Form []) (tokens.tokens text.now))) }
{
    let mut stand = before(alloc, Open::Form, Items::new(alloc));
    let line = read_on(alloc, &mut stand, text)?;
    match stand.looseness {
        Looseness::Start => Ok(stand.forms),
        _ => Err(TextRefusal::Syntax { line }),
    }
}

/// The terms of a list without a tail.
fn items_of(line: u32, term: Term) -> Result<Items<Term>, TextRefusal>
    ensures { Meets result (ended line (proper_items (out-Term term))) }
{
    match term {
        Term::List(items, tail) => match tail {
            None => Ok(items),
            Some(_) => Err(TextRefusal::Syntax { line }),
        },
        _ => Err(TextRefusal::Syntax { line }),
    }
}

/// The arguments of a text that ends after their list.
fn arguments_in(alloc: Global, text: &[u8]) -> Result<Items<Term>, TextRefusal>
    ensures { Meets result (outcome whole_arguments (run (before Open.Arguments []) (tokens.tokens text.now))) }
{
    let mut stand = before(alloc, Open::Arguments, Items::new(alloc));
    let line = read_on(alloc, &mut stand, text)?;
    let Stand { place, .. } = stand;
    let Place { inner, last, .. } = place;
    match inner {
        Open::Arguments => match last {
            Last::Term(term) => items_of(line, term),
            _ => Err(TextRefusal::Syntax { line }),
        },
        _ => Err(TextRefusal::Syntax { line }),
    }
}

/// The forms of a text, to its end. The refusal is the first in the text.
pub fn read_forms(alloc: Global, text: &[u8]) -> Result<Items<Form>, TextRefusal>
    ensures forms { Meets result (reading text.now) }
    ensures written { ReadsForms text.now result }
    ensures spelled { IfOk result (λ forms. IsTextOf text.now forms) }
    ensures refused { Refuses AreForms text.now result }
    ensures canonical { IfOk result (λ forms. IsTrue (list_all has_canonical forms)) }
{
    forms_in(alloc, text)
}

/// The arguments of a text: the terms of one list in brackets, with no tail and no dot, to the end
/// of the text.
pub fn read_args(alloc: Global, text: &[u8]) -> Result<Items<Term>, TextRefusal>
    ensures arguments { Meets result (arguments text.now) }
    ensures written { ReadsArguments text.now result }
    ensures spelled { IfOk result (λ terms. IsTextOfArguments text.now terms) }
    ensures refused { Refuses AreArguments text.now result }
    ensures canonical { IfOk result (λ terms. IsTrue (list_all is_canonical terms)) }
{
    arguments_in(alloc, text)
}
