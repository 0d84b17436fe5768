ghost use Rattle.std.specs.Prelude.{◌≡◌, ◌∷◌, ◌==◌, [], option_map, if◌then◌else◌};
ghost use Rattle.std.specs.Cmp.Lexicographic.{pointwise};
ghost use Rattle.text_tokens.specs.Tokens.{at};
ghost use Rattle.text_forms.specs.Places as places;
ghost use Rattle.text_forms.specs.Refusals as refusals;
ghost use Rattle.text_forms.specs.Steps as steps;
ghost use Rattle.text_forms.specs.Moves.{move, dot_term};
ghost use Rattle.text_forms.specs.Refusals.{Meets};
ghost use Rattle.text_forms.specs.InPlace.{now};

use crate::grammar::{dot_term, go_on};
use crate::place::{Last, Looseness, Open, Place, Stand};
use crate::{Form, TextRefusal};
use sqlite_items::Items;
use std::alloc::Global;
use text_tokens::{Kind, Reason, Token};

/// The most brackets that may be open.
const MOST_OPEN: usize = 200;

pub fn refusal_at(line: u32, reason: Reason) -> TextRefusal
    ensures { result ≡ refusals.refusal_at line reason }
{
    match reason {
        Reason::Syntax => TextRefusal::Syntax { line },
        Reason::OfKind(kind) => TextRefusal::Kind { line, kind },
    }
}

fn is_loose(looseness: Looseness) -> bool
    ensures { result ≡ steps.is_loose looseness }
{
    match looseness {
        Looseness::Loose => true,
        _ => false,
    }
}

fn is_percent(token: &Token) -> bool
    ensures { result ≡ places.is_percent token.now }
{
    match token {
        Token::Atom(name) => name.as_str() == "%",
        _ => false,
    }
}

fn strict_unless(passes: bool, looseness: Looseness) -> Looseness
    ensures { result ≡ (if passes then looseness else Looseness.Strict) }
{
    if passes { looseness } else { Looseness::Strict }
}

/// How loose a form's places are after one more token.
fn looseness_after(looseness: Looseness, token: &Token) -> Looseness
    ensures { result ≡ steps.looseness_after looseness token.now }
{
    match looseness {
        Looseness::Start => strict_unless(matches!(token, Token::OpenTuple), Looseness::Brace),
        Looseness::Brace => strict_unless(is_percent(token), Looseness::Percent),
        Looseness::Percent => strict_unless(matches!(token, Token::Comma), Looseness::Loose),
        Looseness::Loose => Looseness::Loose,
        Looseness::Strict => Looseness::Strict,
    }
}

fn too_deep(line: u32, count: usize) -> Option<TextRefusal>
    ensures { result ≡ places.too_deep line count }
{
    if count >= MOST_OPEN {
        Some(TextRefusal::Deep { line })
    } else {
        None
    }
}

/// Why a token is refused by itself.
fn refused_itself(loose: bool, line: u32, count: usize, token: &Token) -> Option<TextRefusal>
    ensures { result ≡ places.refused_itself loose line count token.now }
{
    match token {
        Token::Wide => {
            if loose {
                None
            } else {
                Some(TextRefusal::Wide { line })
            }
        }
        Token::Float => {
            if loose {
                None
            } else {
                Some(TextRefusal::Kind {
                    line,
                    kind: Kind::Float,
                })
            }
        }
        Token::OpenMap => {
            if loose {
                too_deep(line, count)
            } else {
                Some(TextRefusal::Kind {
                    line,
                    kind: Kind::Map,
                })
            }
        }
        Token::OpenTuple => too_deep(line, count),
        Token::OpenList => too_deep(line, count),
        _ => None,
    }
}

/// The line of the form's first token.
fn form_line(looseness: Looseness, line: u32, token_line: u32) -> u32
    ensures { result ≡ steps.form_line looseness line token_line }
{
    match looseness {
        Looseness::Start => token_line,
        _ => line,
    }
}

fn first_place(alloc: Global, root: Open) -> Place
    ensures { result ≡ steps.first_place root }
{
    Place {
        outer: Items::new(alloc),
        inner: root,
        last: Last::Mark,
    }
}

/// Before a form or before arguments, after some forms.
pub fn before(alloc: Global, root: Open, forms: Items<Form>) -> Stand
    ensures { result ≡ steps.before root forms }
{
    Stand {
        forms,
        place: first_place(alloc, root),
        looseness: Looseness::Start,
        line: 1,
    }
}

/// A dot, which ends a form.
fn end_form(alloc: Global, stand: &mut Stand, line: u32) -> Result<(), TextRefusal>
    ensures { Meets (now stand.new result) (steps.placed line (option_map (steps.given stand.old) (dot_term stand.old.place))) }
{
    let Some(term) = dot_term(&mut stand.place) else {
        return Err(TextRefusal::Syntax { line });
    };
    let line = stand.line;
    if let Err(e) = stand.forms.push(Form { line, term }) {
        return Err(TextRefusal::Memory(e));
    }
    stand.place = first_place(alloc, Open::Form);
    stand.looseness = Looseness::Start;
    stand.line = 1;
    Ok(())
}

/// Any other token.
fn go_further(alloc: Global, stand: &mut Stand, line: u32, token: Token) -> Result<(), TextRefusal>
    ensures { Meets (now stand.new result) (steps.placed line (option_map (steps.moved stand.old (at line token)) (move stand.old.place token))) }
{
    let before = stand.looseness;
    stand.looseness = looseness_after(before, &token);
    stand.line = form_line(before, stand.line, line);
    match go_on(alloc, &mut stand.place, token) {
        Err(e) => Err(TextRefusal::Memory(e)),
        Ok(true) => Ok(()),
        Ok(false) => Err(TextRefusal::Syntax { line }),
    }
}

/// One more token, of this line.
#[inline(never)]
pub fn take(alloc: Global, stand: &mut Stand, line: u32, token: Token) -> Result<(), TextRefusal>
    ensures { Meets (now stand.new result) (steps.step stand.old (at line token)) }
{
    let loose = is_loose(stand.looseness);
    if let Some(refusal) = refused_itself(loose, line, stand.place.outer.len(), &token) {
        return Err(refusal);
    }
    if matches!(token, Token::Dot) {
        end_form(alloc, stand, line)
    } else {
        go_further(alloc, stand, line, token)
    }
}
