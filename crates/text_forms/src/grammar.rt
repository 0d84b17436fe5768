ghost use Rattle.std.specs.Prelude.{◌≡◌, ◌++◌, ◌∷◌, [], IfOk, OnOk, option_map, option_and_then, if◌then◌else◌};
ghost use Rattle.text_forms.specs.Spelling as spelling;
ghost use Rattle.text_forms.specs.Moves as moves;
ghost use Rattle.text_forms.specs.InPlace.{kept};

use crate::place::{Brackets, Last, Mark, Open, Place};
use sqlite_items::{Boxed, Items};
use std::alloc::{AllocError, Global};
use std::mem;
use term_tree::Term;
use text_tokens::Token;

// What each token does to a place, in place: `true` where it can follow. Where it can't, the place
// says nothing.

fn takes_terms(inner: &Open) -> bool
    ensures { result ≡ moves.takes_terms inner.now }
{
    match inner {
        Open::Arguments => false,
        _ => true,
    }
}

fn is_free(last: &Last) -> bool
    ensures { result ≡ moves.is_free last.now }
{
    match last {
        Last::Bracket | Last::Mark => true,
        Last::Term(_) | Last::Text(_) => false,
    }
}

fn wants_term(place: &Place) -> bool
    ensures { result ≡ moves.wants_term place.now }
{
    is_free(&place.last) && takes_terms(&place.inner)
}

/// The term that stands last.
fn last_term(last: Last) -> Option<Term>
    ensures { result ≡ moves.last_term last }
{
    match last {
        Last::Bracket => None,
        Last::Mark => None,
        Last::Term(term) => Some(term),
        Last::Text(codes) => Some(Term::List(codes, None)),
    }
}

/// The terms with one more.
fn with_term(items: Items<Term>, term: Term) -> Result<Items<Term>, AllocError>
    ensures { IfOk result (λ all. all ≡ items ++ term ∷ []) }
{
    let mut items = items;
    items.push(term)?;
    Ok(items)
}

/// The terms with more of them.
fn with_terms(items: Items<Term>, more: Items<Term>) -> Result<Items<Term>, AllocError>
    ensures { IfOk result (λ all. all ≡ items ++ more) }
{
    let mut items = items;
    items.append(more)?;
    Ok(items)
}

/// All terms in brackets that close now.
fn all_terms(items: Items<Term>, last: Last) -> Result<Option<Items<Term>>, AllocError>
    ensures { IfOk result (λ all. all ≡ moves.all_terms items last) }
{
    match last {
        Last::Bracket => Ok(Some(items)),
        Last::Mark => Ok(None),
        Last::Term(term) => Ok(Some(with_term(items, term)?)),
        Last::Text(codes) => Ok(Some(with_term(items, Term::List(codes, None))?)),
    }
}

fn after_term(place: &mut Place, term: Term) -> bool
    ensures { kept result place.new ≡ moves.after_term place.old term }
{
    if wants_term(place) {
        place.last = Last::Term(term);
        true
    } else {
        false
    }
}

/// A string; adjacent strings join.
#[inline(never)]
fn after_text(place: &mut Place, codes: Items<Term>) -> Result<bool, AllocError>
    ensures { IfOk result (λ goes. kept goes place.new ≡ moves.after_text place.old codes) }
{
    let wants = wants_term(place);
    match mem::replace(&mut place.last, Last::Mark) {
        Last::Text(before) => {
            place.last = Last::Text(with_terms(before, codes)?);
            Ok(true)
        }
        _ => {
            place.last = Last::Text(codes);
            Ok(wants)
        }
    }
}

/// The innermost construct keeps its state, and a new one begins in it.
fn begin(place: &mut Place, new: Open) -> Result<(), AllocError>
    ensures { OnOk result (place.new ≡ moves.begun place.old new) }
{
    place.last = Last::Bracket;
    let inner = mem::replace(&mut place.inner, new);
    place.outer.push(inner)
}

fn after_open(place: &mut Place, new: Open) -> Result<bool, AllocError>
    ensures { IfOk result (λ goes. kept goes place.new ≡ moves.after_open place.old new) }
{
    if wants_term(place) {
        begin(place, new)?;
        Ok(true)
    } else {
        Ok(false)
    }
}

fn after_open_list(alloc: Global, place: &mut Place) -> Result<bool, AllocError>
    ensures { IfOk result (λ goes. kept goes place.new ≡ moves.after_open_list place.old) }
{
    match &place.inner {
        Open::Arguments => match &place.last {
            Last::Mark => {
                begin(place, Open::Terms(Brackets::Arguments, Items::new(alloc)))?;
                Ok(true)
            }
            _ => Ok(false),
        },
        _ => after_open(place, Open::Terms(Brackets::List, Items::new(alloc))),
    }
}

/// What brackets with these terms are after a mark.
fn terms_marked(mark: Mark, brackets: Brackets, items: Items<Term>) -> Option<Open>
    ensures { result ≡ moves.terms_marked mark brackets items }
{
    match mark {
        Mark::Comma => Some(Open::Terms(brackets, items)),
        Mark::Bar => match brackets {
            Brackets::List => Some(Open::Tail(items)),
            _ => None,
        },
        Mark::Arrow => None,
    }
}

/// What a construct is after one more term and a mark.
fn mark_after(mark: Mark, inner: Open, term: Term) -> Result<Option<Open>, AllocError>
    ensures { IfOk result (λ next. next ≡ moves.mark_after mark inner term) }
{
    match inner {
        Open::Terms(brackets, items) => Ok(terms_marked(mark, brackets, with_term(items, term)?)),
        Open::Key => match mark {
            Mark::Arrow => Ok(Some(Open::Value)),
            _ => Ok(None),
        },
        Open::Value => match mark {
            Mark::Comma => Ok(Some(Open::Key)),
            _ => Ok(None),
        },
        _ => Ok(None),
    }
}

/// The innermost construct with what stands last in it.
fn take_inner(place: &mut Place) -> (Open, Last)
    ensures taken { result ≡ record { 0 = place.old.inner; 1 = place.old.last } }
    ensures outer { place.new.outer ≡ place.old.outer }
{
    let inner = mem::replace(&mut place.inner, Open::Form);
    let last = mem::replace(&mut place.last, Last::Mark);
    (inner, last)
}

/// The construct as it goes on, if it does.
fn go_into(place: &mut Place, inner: Option<Open>) -> bool
    ensures { kept result place.new ≡ option_map (moves.marked place.old) inner }
{
    match inner {
        None => false,
        Some(inner) => {
            place.inner = inner;
            place.last = Last::Mark;
            true
        }
    }
}

#[inline(never)]
fn after_mark(place: &mut Place, mark: Mark) -> Result<bool, AllocError>
    ensures { IfOk result (λ goes. kept goes place.new ≡ moves.after_mark mark place.old) }
{
    let (inner, last) = take_inner(place);
    match last_term(last) {
        None => Ok(false),
        Some(term) => {
            let inner = mark_after(mark, inner, term)?;
            Ok(go_into(place, inner))
        }
    }
}

/// The term of a loose place that no term of ours is.
fn stand_in() -> Term
    ensures { result ≡ spelling.stand_in }
{
    Term::Int(0)
}

/// The term that a closing brace ends.
fn brace_value(inner: Open, last: Last) -> Result<Option<Term>, AllocError>
    ensures { IfOk result (λ term. term ≡ moves.brace_value inner last) }
{
    match inner {
        Open::Terms(Brackets::Tuple, items) => match all_terms(items, last)? {
            None => Ok(None),
            Some(all) => Ok(Some(Term::Tuple(all))),
        },
        Open::Key => match last {
            Last::Bracket => Ok(Some(stand_in())),
            _ => Ok(None),
        },
        Open::Value => match last_term(last) {
            None => Ok(None),
            Some(_) => Ok(Some(stand_in())),
        },
        _ => Ok(None),
    }
}

/// A list with a tail that is none.
fn improper(alloc: Global, items: Items<Term>, tail: Term) -> Result<Term, AllocError>
    ensures { IfOk result (λ term. term ≡ Term.List items (Some tail)) }
{
    Ok(Term::List(items, Some(Boxed::new(alloc, tail)?)))
}

/// The terms with a tail; a list as a tail makes one longer list.
fn with_tail(alloc: Global, items: Items<Term>, tail: Term) -> Result<Term, AllocError>
    ensures { IfOk result (λ term. term ≡ spelling.with_tail items tail) }
{
    match tail {
        Term::List(more, end) => Ok(Term::List(with_terms(items, more)?, end)),
        Term::Int(n) => improper(alloc, items, Term::Int(n)),
        Term::Atom(a) => improper(alloc, items, Term::Atom(a)),
        Term::Tuple(parts) => improper(alloc, items, Term::Tuple(parts)),
    }
}

fn proper(items: Items<Term>, last: Last) -> Result<Option<Term>, AllocError>
    ensures { IfOk result (λ term. term ≡ option_map moves.proper (moves.all_terms items last)) }
{
    match all_terms(items, last)? {
        None => Ok(None),
        Some(all) => Ok(Some(Term::List(all, None))),
    }
}

/// The term that a closing bracket ends.
fn bracket_value(alloc: Global, inner: Open, last: Last) -> Result<Option<Term>, AllocError>
    ensures { IfOk result (λ term. term ≡ moves.bracket_value inner last) }
{
    match inner {
        Open::Terms(Brackets::List, items) => proper(items, last),
        Open::Terms(Brackets::Arguments, items) => proper(items, last),
        Open::Tail(items) => match last_term(last) {
            None => Ok(None),
            Some(tail) => Ok(Some(with_tail(alloc, items, tail)?)),
        },
        _ => Ok(None),
    }
}

/// The construct around the innermost one.
fn pop(outer: &mut Items<Open>) -> Open
    ensures around { outer.new ≡ moves.around outer.old }
    ensures innermost { result ≡ moves.innermost outer.old }
{
    match outer.pop() {
        None => Open::Form,
        Some(around) => around,
    }
}

/// The innermost construct ends, as this term.
fn leave(place: &mut Place, value: Option<Term>) -> bool
    ensures { kept result place.new ≡ option_map (moves.left place.old) value }
{
    match value {
        None => false,
        Some(value) => {
            place.inner = pop(&mut place.outer);
            place.last = Last::Term(value);
            true
        }
    }
}

#[inline(never)]
fn after_brace(place: &mut Place) -> Result<bool, AllocError>
    ensures { IfOk result (λ goes. kept goes place.new ≡ option_map (moves.left place.old) (moves.brace_value place.old.inner place.old.last)) }
{
    let (inner, last) = take_inner(place);
    let value = brace_value(inner, last)?;
    Ok(leave(place, value))
}

#[inline(never)]
fn after_bracket(alloc: Global, place: &mut Place) -> Result<bool, AllocError>
    ensures { IfOk result (λ goes. kept goes place.new ≡ option_map (moves.left place.old) (moves.bracket_value place.old.inner place.old.last)) }
{
    let (inner, last) = take_inner(place);
    let value = bracket_value(alloc, inner, last)?;
    Ok(leave(place, value))
}

/// The term that a dot ends.
pub fn dot_term(place: &mut Place) -> Option<Term>
    ensures { result ≡ moves.dot_term place.old }
{
    match &place.inner {
        Open::Form => last_term(mem::replace(&mut place.last, Last::Mark)),
        _ => None,
    }
}

/// What a token other than a dot does.
pub fn go_on(alloc: Global, place: &mut Place, token: Token) -> Result<bool, AllocError>
    ensures { IfOk result (λ goes. kept goes place.new ≡ moves.move place.old token) }
{
    match token {
        Token::Integer(n) => Ok(after_term(place, Term::Int(n))),
        Token::Wide => Ok(after_term(place, stand_in())),
        Token::Float => Ok(after_term(place, stand_in())),
        Token::Atom(name) => Ok(after_term(place, Term::Atom(name))),
        Token::Text(codes) => after_text(place, codes),
        Token::OpenTuple => after_open(place, Open::Terms(Brackets::Tuple, Items::new(alloc))),
        Token::OpenList => after_open_list(alloc, place),
        Token::OpenMap => after_open(place, Open::Key),
        Token::CloseBrace => after_brace(place),
        Token::CloseBracket => after_bracket(alloc, place),
        Token::Comma => after_mark(place, Mark::Comma),
        Token::Bar => after_mark(place, Mark::Bar),
        Token::Arrow => after_mark(place, Mark::Arrow),
        Token::Dot => Ok(false),
    }
}
