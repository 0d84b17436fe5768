//! The forms in front of a module's functions, and the first form of a function.
ghost use Rattle.indexmap.specs.IndexSet.{keys};
ghost use Rattle.std.specs.List.{list_all};
ghost use Rattle.std.specs.Option.{option_copied};
ghost use Rattle.std.specs.Prelude.{◌≡◌, IfOk, Option};
ghost use Rattle.module_forms.specs.Part.{Gave, arity_of};
ghost use Rattle.beam_profile.specs.Header as header;
ghost use Rattle.beam_profile.specs.Sequence.{Found};

use crate::ModuleRefusal;
use asm_text::Form;
use indexmap::IndexSet;
use module_forms::{Fault, arity, atom, behind, list, number, shaped, tuple};
use sqlite_items::Items;
use std::alloc::{AllocError, Global};
use term_tree::{Name, Term};

/// The first form of a function: its name, its arity and its entry label.
#[derive(Drop)]
pub struct Head {
    pub name: Name,
    pub arity: u8,
    pub entry: u32,
}

/// An arity as a byte.
fn small_arity(term: &Term) -> Option<u8>
    ensures { result ≡ arity_of term.now }
{
    Some(arity(term)? as u8)
}

fn key_in(alloc: Global, items: &[Term]) -> Result<(Name, u8), Fault>
    ensures { Gave result (header.key_with items.now) }
{
    match items {
        [name, arity] => {
            let name = shaped(atom(name))?;
            let arity = shaped(small_arity(arity))?;
            Ok((name.copy(alloc)?, arity))
        }
        _ => Err(Fault::Shape),
    }
}

/// `{F,A}`
fn key(alloc: Global, term: &Term) -> Result<(Name, u8), Fault>
    ensures { Gave result (header.key_of term.now) }
{
    key_in(alloc, shaped(tuple(term))?)
}

fn keys_in(alloc: Global, terms: &[Term]) -> Result<Items<(Name, u8)>, Fault>
    ensures { Gave result (header.keys_in terms.now) }
{
    let mut all = Items::new(alloc);
    for term in terms {
        all.push(key(alloc, term)?)?;
    }
    Ok(all)
}

/// The exports that a form has.
fn exports(alloc: Global, term: &Term) -> Result<Items<(Name, u8)>, Fault>
    ensures { Gave result (header.exports_of term.now) }
{
    keys_in(alloc, shaped(list(shaped(behind("exports", term))?))?)
}

pub fn module_name(alloc: Global, term: &Term) -> Result<Name, Fault>
    ensures { Gave result (header.module_of term.now) }
{
    Ok(shaped(atom(shaped(behind("module", term))?))?.copy(alloc)?)
}

fn head_in(alloc: Global, items: &[Term]) -> Result<Head, Fault>
    ensures { Gave result (header.head_with items.now) }
{
    match items {
        [word, name, arity, entry] => {
            let word = shaped(atom(word))?;
            if word.as_str() != "function" {
                return Err(Fault::Shape);
            }
            let name = shaped(atom(name))?;
            let arity = shaped(small_arity(arity))?;
            let entry = shaped(number(entry))?;
            Ok(Head {
                name: name.copy(alloc)?,
                arity,
                entry,
            })
        }
        _ => Err(Fault::Shape),
    }
}

fn head_of(alloc: Global, term: &Term) -> Result<Head, Fault>
    ensures { Gave result (header.head_of term.now) }
{
    head_in(alloc, shaped(tuple(term))?)
}

/// The first form of a function, if it is one.
pub fn first_form(alloc: Global, term: &Term) -> Result<Option<Head>, AllocError>
    ensures { IfOk result (λ h. h ≡ header.head_of term.now) }
{
    match head_of(alloc, term) {
        Ok(head) => Ok(Some(head)),
        Err(Fault::Shape) => Ok(None),
        Err(Fault::Memory(e)) => Err(e),
    }
}

/// The functions that have a first form.
pub fn declared(alloc: Global, forms: &[Form]) -> Result<IndexSet<(Name, u8)>, AllocError>
    ensures { IfOk result (λ set. keys set ≡ header.declared forms.now) }
{
    let mut set = IndexSet::new(alloc);
    for form in forms {
        if let Some(head) = first_form(alloc, &form.term)? {
            let Head { name, arity, .. } = head;
            set.insert((name, arity))?;
        }
    }
    Ok(set)
}

fn are_declared(set: &IndexSet<(Name, u8)>, exports: &[(Name, u8)]) -> bool
    ensures { result ≡ list_all (header.is_declared (keys set.now)) exports.now }
{
    exports.iter().all(|key| set.contains(key))
}

/// The exports that a form has, where each of them is there.
pub fn exported(
    alloc: Global,
    set: &IndexSet<(Name, u8)>,
    term: &Term,
) -> Result<Items<(Name, u8)>, Fault>
    ensures { Gave result (header.exported (keys set.now) term.now) }
{
    let exports = exports(alloc, term)?;
    if !are_declared(set, exports.as_slice()) {
        return Err(Fault::Shape);
    }
    Ok(exports)
}

/// What is there of a form in this line, or its refusal.
pub fn at<T: Drop>(line: u32, part: Result<T, Fault>) -> Result<T, ModuleRefusal>
    ensures { (gives : Option T) → Gave part gives → Found result line gives }
{
    match part {
        Ok(value) => Ok(value),
        Err(Fault::Shape) => Err(ModuleRefusal::Shape { line }),
        Err(Fault::Memory(e)) => Err(ModuleRefusal::Memory(e)),
    }
}

/// The attributes that a form has.
pub fn attributes(term: &Term) -> Option<&Term>
    ensures { option_copied result ≡ header.attributes_of term.now }
{
    behind("attributes", term)
}

/// The number of labels that a form has.
pub fn labels(term: &Term) -> Option<u32>
    ensures { result ≡ header.labels_of term.now }
{
    number(behind("labels", term)?)
}
