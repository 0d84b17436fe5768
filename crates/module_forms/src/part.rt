//! The parts of a form. Where a number is past its limit its place holds a 0, which is never used.
ghost use Rattle.std.specs.List.{list_any};
ghost use Rattle.std.specs.Option.{option_copied};
ghost use Rattle.std.specs.Prelude.{◌≡◌, ◌≤◌, ◌&&◌, ℕ, [], IfSome, nat_eq, option_map, Some};
ghost use Rattle.std.specs.Str.{bytes_eq};
ghost use Rattle.module_forms.specs.Part as parts;
ghost use Rattle.module_forms.specs.Seen as seen;
ghost use Rattle.module_forms.specs.Part.{Gave};

use beam_code::{ArityCase, Callee, Case, Few, Operand, Place};
use std::alloc::{AllocError, AllocFailed, Global};
use term_tree::{Name, Term};

/// Why a form is no instruction.
#[derive(Drop)]
pub enum Fault {
    Shape,
    Memory(AllocError),
}

impl From<AllocError> for Fault {
    ghost use Rattle.module_forms.specs.declared.part.Fault.TheVariants.{Memory};
    ghost use Rattle.std.specs.Prelude.{◌≡◌};

    ghost from_gives = { λ e r. r ≡ Memory e };

    fn from(error: AllocError) -> Fault {
        Fault::Memory(error)
    }
}

impl<T: Drop> From<AllocFailed<T>> for Fault {
    ghost use Rattle.module_forms.specs.declared.part.Fault.TheVariants.{Memory};
    ghost use Rattle.std.specs.Prelude.{◌≡◌, alloc_error};

    ghost from_gives = { λ _ r. r ≡ Memory alloc_error };

    fn from(error: AllocFailed<T>) -> Fault {
        Fault::Memory(AllocError::from(error))
    }
}

/// A value, and whether a number in it is past its limit.
#[derive(Drop)]
pub struct Got<T> {
    pub value: T,
    pub wide: bool,
}

/// What a test looks at: an operand; a number alone; `{atom,A}`; an operand or a number alone.
#[derive(Clone, Copy)]
pub enum Look {
    Source,
    Number,
    Atom,
    Either,
}

pub fn number(term: &Term) -> Option<u32>
    ensures { result ≡ parts.number_of term.now }
{
    match term {
        Term::Int(i) => {
            let i = *i;
            if i >= 0 { Some(i as u32) } else { None }
        }
        _ => None,
    }
}

fn integer(term: &Term) -> Option<i32>
    ensures { result ≡ parts.integer_of term.now }
{
    match term {
        Term::Int(i) => Some(*i),
        _ => None,
    }
}

pub fn atom(term: &Term) -> Option<&Name>
    ensures { option_copied result ≡ parts.atom_of term.now }
{
    match term {
        Term::Atom(name) => Some(name),
        _ => None,
    }
}

/// The elements of a list without a tail.
pub fn list(term: &Term) -> Option<&[Term]>
    ensures { option_map (λ s. s.now) result ≡ parts.list_of term.now }
{
    match term {
        Term::List(items, tail) => match tail {
            None => Some(items.as_slice()),
            Some(_) => None,
        },
        _ => None,
    }
}

/// The elements of a tuple.
pub fn tuple(term: &Term) -> Option<&[Term]>
    ensures { option_map (λ s. s.now) result ≡ parts.tuple_of term.now }
{
    match term {
        Term::Tuple(items) => Some(items.as_slice()),
        _ => None,
    }
}

fn pair_in(items: &[Term]) -> Option<(&Name, &Term)>
    ensures { option_map (λ p. (p.0.now, p.1.now)) result ≡ parts.pair_with items.now }
{
    match items {
        [head, of] => match head {
            Term::Atom(word) => Some((word, of)),
            _ => None,
        },
        _ => None,
    }
}

fn pair(term: &Term) -> Option<(&Name, &Term)>
    ensures { option_map (λ p. (p.0.now, p.1.now)) result ≡ parts.pair_of term.now }
{
    match term {
        Term::Tuple(items) => pair_in(items.as_slice()),
        _ => None,
    }
}

/// What stands behind a word.
pub fn behind<'a>(word: &str, term: &'a Term) -> Option<&'a Term>
    ensures { option_copied result ≡ parts.behind word.now term.now }
{
    let (found, of) = pair(term)?;
    if found.as_str() == word {
        Some(of)
    } else {
        None
    }
}

pub fn label(term: &Term) -> Option<u32>
    ensures { result ≡ parts.label_of term.now }
{
    number(behind("f", term)?)
}

pub fn named(term: &Term) -> Option<&Name>
    ensures { option_copied result ≡ parts.named_of term.now }
{
    atom(behind("atom", term)?)
}

/// An index, where `last` is the greatest.
fn index(last: u16, n: u32) -> Got<u16>
    ensures { result ≡ parts.index last n }
{
    if n > u32::from(last) {
        Got {
            value: 0,
            wide: true,
        }
    } else {
        Got {
            value: n as u16,
            wide: false,
        }
    }
}

fn x_place(last: u16, term: &Term) -> Option<Got<Place>>
    ensures { result ≡ parts.x_place last term.now }
{
    let Got { value, wide } = index(last, number(term)?);
    Some(Got {
        value: Place::X(value),
        wide,
    })
}

fn y_place(last: u16, term: &Term) -> Option<Got<Place>>
    ensures { result ≡ parts.y_place last term.now }
{
    let Got { value, wide } = index(last, number(term)?);
    Some(Got {
        value: Place::Y(value),
        wide,
    })
}

pub fn place(last: u16, term: &Term) -> Option<Got<Place>>
    ensures { result ≡ parts.place_of last term.now }
{
    let (word, of) = pair(term)?;
    let word = word.as_str();
    if word == "x" {
        return x_place(last, of);
    }
    if word == "y" {
        return y_place(last, of);
    }
    None
}

fn literal(alloc: Global, term: &Term) -> Result<Got<Operand>, Fault>
    ensures { Gave result (Some (parts.plain (Operand.Literal term.now))) }
{
    Ok(Got {
        value: Operand::Literal(term.copy(alloc)?),
        wide: false,
    })
}

fn atom_operand(alloc: Global, term: &Term) -> Result<Got<Operand>, Fault>
    ensures { Gave result (parts.atom_operand term.now) }
{
    let Some(name) = atom(term) else {
        return Err(Fault::Shape);
    };
    Ok(Got {
        value: Operand::Atom(name.copy(alloc)?),
        wide: false,
    })
}

fn integer_operand(term: &Term) -> Option<Got<Operand>>
    ensures { result ≡ parts.integer_operand term.now }
{
    Some(Got {
        value: Operand::Int(integer(term)?),
        wide: false,
    })
}

fn register_operand(place: Option<Got<Place>>) -> Option<Got<Operand>>
    ensures { result ≡ option_map (parts.got parts.register) place }
{
    let Got { value, wide } = place?;
    let value = match value {
        Place::X(n) => Operand::X(n),
        Place::Y(n) => Operand::Y(n),
    };
    Some(Got { value, wide })
}

/// A part that is there, or out of its shape.
pub fn shaped<T>(part: Option<T>) -> Result<T, Fault>
    ensures { Gave result part }
{
    match part {
        None => Err(Fault::Shape),
        Some(value) => Ok(value),
    }
}

fn tagged_operand(alloc: Global, last: u16, word: &str, of: &Term) -> Result<Got<Operand>, Fault>
    ensures { Gave result (parts.tagged_operand last word.now of.now) }
{
    if word == "x" {
        return shaped(register_operand(x_place(last, of)));
    }
    if word == "y" {
        return shaped(register_operand(y_place(last, of)));
    }
    if word == "integer" {
        return shaped(integer_operand(of));
    }
    if word == "atom" {
        return atom_operand(alloc, of);
    }
    if word == "literal" {
        return literal(alloc, of);
    }
    Err(Fault::Shape)
}

pub fn operand(alloc: Global, last: u16, term: &Term) -> Result<Got<Operand>, Fault>
    ensures { Gave result (parts.operand_of last term.now) }
{
    match term {
        Term::Atom(name) => {
            if name.as_str() == "nil" {
                return Ok(Got {
                    value: Operand::Nil,
                    wide: false,
                });
            }
            Err(Fault::Shape)
        }
        Term::Tuple(items) => match pair_in(items.as_slice()) {
            None => Err(Fault::Shape),
            Some((word, of)) => tagged_operand(alloc, last, word.as_str(), of),
        },
        _ => Err(Fault::Shape),
    }
}

/// The operands of a list, and whether one of them is past its limit.
fn operands(alloc: Global, last: u16, terms: &[Term]) -> Result<Got<Few<Operand>>, Fault>
    ensures { Gave result (parts.each_of (parts.operand_of last) terms.now) }
{
    let mut value = Few::new(alloc);
    let mut wide = false;
    for term in terms {
        let got = operand(alloc, last, term)?;
        wide |= got.wide;
        value.push(got.value)?;
    }
    Ok(Got { value, wide })
}

/// The built-ins that forms name, with how many arguments each takes there.
const BUILT_INS: [(&str, usize); 47] = [
    ("+", 2),
    ("-", 2),
    ("*", 2),
    ("div", 2),
    ("rem", 2),
    ("band", 2),
    ("bor", 2),
    ("bxor", 2),
    ("bsl", 2),
    ("bsr", 2),
    ("bnot", 1),
    ("-", 1),
    ("+", 1),
    ("abs", 1),
    ("=:=", 2),
    ("=/=", 2),
    ("==", 2),
    ("/=", 2),
    ("<", 2),
    (">", 2),
    ("=<", 2),
    (">=", 2),
    ("and", 2),
    ("or", 2),
    ("xor", 2),
    ("not", 1),
    ("is_integer", 1),
    ("is_atom", 1),
    ("is_list", 1),
    ("is_tuple", 1),
    ("is_boolean", 1),
    ("is_number", 1),
    ("hd", 1),
    ("tl", 1),
    ("element", 2),
    ("tuple_size", 1),
    ("length", 1),
    ("min", 2),
    ("max", 2),
    ("is_float", 1),
    ("is_pid", 1),
    ("is_reference", 1),
    ("is_port", 1),
    ("is_binary", 1),
    ("is_bitstring", 1),
    ("is_map", 1),
    ("is_function", 1),
];

fn is_named(rows: &[(&str, usize)], name: &str) -> bool
    ensures { result ≡ list_any (λ row. bytes_eq name.now row.0.now) rows.now }
{
    rows.iter().any(|row| name == row.0)
}

fn is_listed(rows: &[(&str, usize)], name: &str, count: usize) -> bool
    ensures { result ≡ list_any (λ row. bytes_eq name.now row.0.now && nat_eq count row.1) rows.now }
{
    rows.iter().any(|row| name == row.0 && count == row.1)
}

/// Whether a form may name a built-in so.
#[tactic(auto, unfolding(crate::specs::Part::is_built_in_name))]
pub fn is_built_in_name(name: &str) -> bool
    ensures { result ≡ parts.is_built_in_name name.now }
{
    is_named(&BUILT_INS, name)
}

/// Whether the built-in with this name takes so many arguments in a form.
#[tactic(auto, unfolding(crate::specs::Part::takes))]
fn takes(name: &str, count: usize) -> bool
    ensures { result ≡ parts.takes name.now count }
{
    is_listed(&BUILT_INS, name, count)
}

pub fn arguments(
    alloc: Global,
    last: u16,
    name: &str,
    term: &Term,
) -> Result<Got<Few<Operand>>, Fault>
    ensures { Gave result (parts.arguments_of last name.now term.now) }
{
    let Some(items) = list(term) else {
        return Err(Fault::Shape);
    };
    if !takes(name, items.len()) {
        return Err(Fault::Shape);
    }
    operands(alloc, last, items)
}

fn constant(alloc: Global, term: &Term) -> Result<Got<Operand>, Fault>
    ensures { Gave result (parts.constant_of term.now) }
{
    let Some((word, of)) = pair(term) else {
        return Err(Fault::Shape);
    };
    let word = word.as_str();
    if word == "integer" {
        return shaped(integer_operand(of));
    }
    if word == "atom" {
        return atom_operand(alloc, of);
    }
    Err(Fault::Shape)
}

fn case(alloc: Global, value: &Term, to: &Term) -> Result<Got<Case>, Fault>
    ensures { Gave result (parts.case_of value.now to.now) }
{
    let Got { value, wide } = constant(alloc, value)?;
    let label = shaped(label(to))?;
    Ok(Got {
        value: Case { value, label },
        wide,
    })
}

fn arity_case(value: &Term, to: &Term) -> Option<Got<ArityCase>>
    ensures { result ≡ parts.arity_case_of value.now to.now }
{
    let arity = number(value)?;
    let label = label(to)?;
    Some(Got {
        value: ArityCase { arity, label },
        wide: false,
    })
}

fn items(term: &Term) -> Option<&[Term]>
    ensures { option_map (λ s. s.now) result ≡ parts.items_of term.now }
{
    list(behind("list", term)?)
}

pub fn elements(alloc: Global, last: u16, term: &Term) -> Result<Got<Few<Operand>>, Fault>
    ensures { Gave result (parts.elements_of last term.now) }
{
    let Some(items) = items(term) else {
        return Err(Fault::Shape);
    };
    operands(alloc, last, items)
}

fn case_row(alloc: Global, terms: &[Term]) -> Result<Got<Few<Case>>, Fault>
    ensures { Gave result (parts.pairs_of parts.case_of terms.now) }
{
    let mut value = Few::new(alloc);
    let mut wide = false;
    let mut rest = terms;
    while let [first, second, more @ ..] = rest {
        let got = case(alloc, first, second)?;
        wide |= got.wide;
        value.push(got.value)?;
        rest = more;
    }
    if !rest.is_empty() {
        return Err(Fault::Shape);
    }
    Ok(Got { value, wide })
}

pub fn cases(alloc: Global, term: &Term) -> Result<Got<Few<Case>>, Fault>
    ensures { Gave result (parts.cases_of term.now) }
{
    let Some(items) = items(term) else {
        return Err(Fault::Shape);
    };
    case_row(alloc, items)
}

fn arity_case_row(alloc: Global, terms: &[Term]) -> Result<Got<Few<ArityCase>>, Fault>
    ensures { Gave result (parts.pairs_of parts.arity_case_of terms.now) }
{
    let mut value = Few::new(alloc);
    let mut wide = false;
    let mut rest = terms;
    while let [first, second, more @ ..] = rest {
        let got = shaped(arity_case(first, second))?;
        wide |= got.wide;
        value.push(got.value)?;
        rest = more;
    }
    if !rest.is_empty() {
        return Err(Fault::Shape);
    }
    Ok(Got { value, wide })
}

pub fn arity_cases(alloc: Global, term: &Term) -> Result<Got<Few<ArityCase>>, Fault>
    ensures { Gave result (parts.arity_cases_of term.now) }
{
    let Some(items) = items(term) else {
        return Err(Fault::Shape);
    };
    arity_case_row(alloc, items)
}

fn two_in(alloc: Global, last: u16, items: &[Term]) -> Result<Got<(Operand, Operand)>, Fault>
    ensures { Gave result (parts.two_with last items.now) }
{
    match items {
        [first, second] => {
            let first = operand(alloc, last, first)?;
            let second = operand(alloc, last, second)?;
            Ok(Got {
                value: (first.value, second.value),
                wide: first.wide || second.wide,
            })
        }
        _ => Err(Fault::Shape),
    }
}

pub fn two(alloc: Global, last: u16, term: &Term) -> Result<Got<(Operand, Operand)>, Fault>
    ensures { Gave result (parts.two_of last term.now) }
{
    let Some(items) = list(term) else {
        return Err(Fault::Shape);
    };
    two_in(alloc, last, items)
}

/// The most arguments of a function.
const MOST_ARITY: u32 = 255;

pub fn arity(term: &Term) -> Option<u32>
    ensures arity { result ≡ parts.arity_of term.now }
    ensures small { IfSome result (λ n. n ≤ 255) }
{
    let n = number(term)?;
    if n > MOST_ARITY { None } else { Some(n) }
}

fn callee_in(alloc: Global, items: &[Term]) -> Result<Callee, Fault>
    ensures { Gave result (parts.callee_with items.now) }
{
    match items {
        [head, owner, name, arity_part] => {
            let head = shaped(atom(head))?;
            if head.as_str() != "extfunc" {
                return Err(Fault::Shape);
            }
            let owner = shaped(atom(owner))?;
            let name = shaped(atom(name))?;
            let arity = shaped(arity(arity_part))?;
            Ok(Callee {
                owner: owner.copy(alloc)?,
                name: name.copy(alloc)?,
                arity,
            })
        }
        _ => Err(Fault::Shape),
    }
}

pub fn callee(alloc: Global, term: &Term) -> Result<Callee, Fault>
    ensures { Gave result (parts.callee_of term.now) }
{
    match term {
        Term::Tuple(items) => callee_in(alloc, items.as_slice()),
        _ => Err(Fault::Shape),
    }
}

pub fn slot(last: u16, term: &Term) -> Option<Got<u16>>
    ensures { result ≡ parts.slot_of last term.now }
{
    Some(index(last, number(behind("y", term)?)?))
}

/// A number of y registers, or Live: at most one more than the greatest index.
pub fn stack(last: u16, term: &Term) -> Option<Got<u32>>
    ensures { result ≡ parts.stack_of last term.now }
{
    let value = number(term)?;
    Some(Got {
        value,
        wide: value > u32::from(last) + 1,
    })
}

pub fn no_fail(term: &Term) -> Option<Got<()>>
    ensures { result ≡ parts.no_fail_of term.now }
{
    if label(term)? == 0 {
        Some(Got {
            value: (),
            wide: false,
        })
    } else {
        None
    }
}

fn bare_number(term: &Term) -> Option<Got<Operand>>
    ensures { result ≡ seen.bare_number term.now }
{
    match term {
        Term::Int(i) => {
            let i = *i;
            if i >= 0 {
                Some(Got {
                    value: Operand::Int(i),
                    wide: false,
                })
            } else {
                None
            }
        }
        _ => None,
    }
}

fn named_operand(alloc: Global, term: &Term) -> Result<Got<Operand>, Fault>
    ensures { Gave result (seen.named_operand term.now) }
{
    let Some(name) = named(term) else {
        return Err(Fault::Shape);
    };
    Ok(Got {
        value: Operand::Atom(name.copy(alloc)?),
        wide: false,
    })
}

/// What a test looks at, as an operand.
fn seen(alloc: Global, last: u16, look: Look, term: &Term) -> Result<Got<Operand>, Fault>
    ensures { Gave result (seen.seen_of last look term.now) }
{
    match look {
        Look::Source => operand(alloc, last, term),
        Look::Number => shaped(bare_number(term)),
        Look::Atom => named_operand(alloc, term),
        Look::Either => match bare_number(term) {
            Some(got) => Ok(got),
            None => operand(alloc, last, term),
        },
    }
}

/// What a test looked at, where nothing is left to look at.
fn all_seen(value: Few<Operand>, wide: bool, rest: &[Look]) -> Result<Got<Few<Operand>>, Fault>
    ensures { (last : ℕ) → Gave result (parts.onto (record { value = value; wide = wide }) (seen.seen_with last rest.now [])) }
{
    match rest {
        [] => Ok(Got { value, wide }),
        [_, ..] => Err(Fault::Shape),
    }
}

fn seen_row(
    alloc: Global,
    last: u16,
    looks: &[Look],
    terms: &[Term],
) -> Result<Got<Few<Operand>>, Fault>
    ensures { Gave result (seen.seen_with last looks.now terms.now) }
{
    let mut value = Few::new(alloc);
    let mut wide = false;
    let mut rest = looks;
    for term in terms {
        let Some((look, more)) = rest.split_first() else {
            return Err(Fault::Shape);
        };
        let got = seen(alloc, last, *look, term)?;
        wide |= got.wide;
        value.push(got.value)?;
        rest = more;
    }
    all_seen(value, wide, rest)
}

/// What a test looks at, as operands.
pub fn looks(
    alloc: Global,
    last: u16,
    looks: &[Look],
    term: &Term,
) -> Result<Got<Few<Operand>>, Fault>
    ensures { Gave result (seen.seen_in last looks.now term.now) }
{
    let Some(items) = list(term) else {
        return Err(Fault::Shape);
    };
    seen_row(alloc, last, looks, items)
}
