//! Which instruction a form is.
ghost use Rattle.beam_code.specs.declared.instr.Instr.{Instr};
ghost use Rattle.std.specs.Prelude.{◌≡◌, Option, option_map};
ghost use Rattle.module_forms.specs.Form as form;
ghost use Rattle.module_forms.specs.Form.{Judges, finished, answer};
ghost use Rattle.module_forms.specs.Rest.{Took, Rest};
ghost use Rattle.module_forms.specs.Rows.{row};

use crate::part::{atom, is_built_in_name};
use crate::rows::{self, Op, op_named, read_row, test_named};
use crate::{Fault, Parts};
use beam_code::Instr;
use std::alloc::{AllocError, Global};
use term_tree::{Name, Term};

/// Why a form is no instruction.
#[derive(Drop)]
pub enum FormRefusal {
    /// No instruction, test or built-in has this name.
    Unsupported(Name),
    Shape,
    /// A number is past its limit.
    Register,
    Memory(AllocError),
}

fn refused(done: bool) -> FormRefusal
    ensures { result ≡ form.refused done }
{
    if done {
        FormRefusal::Register
    } else {
        FormRefusal::Shape
    }
}

/// The answer, where all parts that there should be were read.
fn complete(instr: Instr, done: bool, wide: bool) -> Result<Instr, FormRefusal>
    ensures { result ≡ form.judged instr done wide }
{
    if done && !wide {
        Ok(instr)
    } else {
        Err(refused(done))
    }
}

/// The answer, where parts were read.
fn end(read: Result<Instr, Fault>, parts: &Parts<'_>) -> Result<Instr, FormRefusal>
    ensures { (took : Option (Instr × Rest)) → Took read parts.now took → Judges result (finished took) }
{
    match read {
        Err(Fault::Shape) => Err(FormRefusal::Shape),
        Err(Fault::Memory(e)) => Err(FormRefusal::Memory(e)),
        Ok(instr) => complete(instr, parts.is_done(), parts.is_wide()),
    }
}

fn read_op(alloc: Global, last: u16, op: Op, items: &[Term]) -> Result<Instr, FormRefusal>
    ensures { Judges result (answer last (row op) items.now) }
{
    let mut parts = Parts::new(last, items);
    let read = read_row(alloc, op, &mut parts);
    end(read, &parts)
}

fn unsupported(alloc: Global, name: &Name) -> Result<Instr, FormRefusal>
    ensures { Judges result (form.Unknown name.now) }
{
    match name.copy(alloc) {
        Ok(name) => Err(FormRefusal::Unsupported(name)),
        Err(e) => Err(FormRefusal::Memory(e)),
    }
}

fn test(alloc: Global, last: u16, name: &Name, items: &[Term]) -> Result<Instr, FormRefusal>
    ensures { Judges result (form.answered last name.now (form.test_named_row name.now) items.now) }
{
    let Some(view) = test_named(name.as_str()) else {
        return unsupported(alloc, name);
    };
    let mut parts = Parts::new(last, items);
    let read = rows::test(alloc, name, view, &mut parts);
    end(read, &parts)
}

fn bif(alloc: Global, last: u16, name: &Name, items: &[Term]) -> Result<Instr, FormRefusal>
    ensures { Judges result (form.answered last name.now (form.bif_named_row name.now) items.now) }
{
    let mut parts = Parts::new(last, items);
    if name.as_str() == "raise" {
        let read = rows::bif_raise(alloc, &mut parts);
        return end(read, &parts);
    }
    if is_built_in_name(name.as_str()) {
        let read = rows::bif(alloc, name, &mut parts);
        return end(read, &parts);
    }
    unsupported(alloc, name)
}

fn gc_bif(alloc: Global, last: u16, name: &Name, items: &[Term]) -> Result<Instr, FormRefusal>
    ensures { Judges result (form.answered last name.now (form.gc_bif_named_row name.now) items.now) }
{
    if is_built_in_name(name.as_str()) {
        let mut parts = Parts::new(last, items);
        let read = rows::gc_bif(alloc, name, &mut parts);
        return end(read, &parts);
    }
    unsupported(alloc, name)
}

/// An atom, and the terms behind it.
pub fn headed(items: &[Term]) -> Option<(&Name, &[Term])>
    ensures { option_map (λ p. (p.0.now, p.1.now)) result ≡ form.headed_by items.now }
{
    match items {
        [] => None,
        [head, rest @ ..] => match head {
            Term::Atom(word) => Some((word, rest)),
            _ => None,
        },
    }
}

fn is_bare_word(text: &str) -> bool
    ensures { result ≡ form.is_bare_word text.now }
{
    text == "return" || (text == "if_end" || text == "raw_raise")
}

fn is_front_word(text: &str) -> bool
    ensures { result ≡ form.is_front_word text.now }
{
    text == "function" || (text == "test" || (text == "bif" || text == "gc_bif"))
}

/// Whether some form begins with a word, or is that word.
fn is_known(text: &str) -> bool
    ensures { result ≡ form.is_known text.now }
{
    is_bare_word(text) || (is_front_word(text) || op_named(text).is_some())
}

/// The answer to a word that decides no row.
fn unless_known(alloc: Global, word: &Name) -> Result<Instr, FormRefusal>
    ensures { Judges result (form.unless_known word.now) }
{
    if is_known(word.as_str()) {
        return Err(FormRefusal::Shape);
    }
    unsupported(alloc, word)
}

fn test_in(alloc: Global, last: u16, items: &[Term]) -> Result<Instr, FormRefusal>
    ensures { Judges result (form.by_second last form.test_named_row items.now) }
{
    match headed(items) {
        None => Err(FormRefusal::Shape),
        Some((name, rest)) => test(alloc, last, name, rest),
    }
}

fn bif_in(alloc: Global, last: u16, items: &[Term]) -> Result<Instr, FormRefusal>
    ensures { Judges result (form.by_second last form.bif_named_row items.now) }
{
    match headed(items) {
        None => Err(FormRefusal::Shape),
        Some((name, rest)) => bif(alloc, last, name, rest),
    }
}

fn gc_bif_in(alloc: Global, last: u16, items: &[Term]) -> Result<Instr, FormRefusal>
    ensures { Judges result (form.by_second last form.gc_bif_named_row items.now) }
{
    match headed(items) {
        None => Err(FormRefusal::Shape),
        Some((name, rest)) => gc_bif(alloc, last, name, rest),
    }
}

fn tagged(alloc: Global, last: u16, word: &Name, items: &[Term]) -> Result<Instr, FormRefusal>
    ensures { Judges result (form.tagged_of last word.now items.now) }
{
    let text = word.as_str();
    if text == "test" {
        return test_in(alloc, last, items);
    }
    if text == "bif" {
        return bif_in(alloc, last, items);
    }
    if text == "gc_bif" {
        return gc_bif_in(alloc, last, items);
    }
    match op_named(text) {
        Some(op) => read_op(alloc, last, op, items),
        None => unless_known(alloc, word),
    }
}

fn bare(alloc: Global, word: &Name) -> Result<Instr, FormRefusal>
    ensures { Judges result (form.bare_of word.now) }
{
    let text = word.as_str();
    if text == "return" {
        return Ok(Instr::Return);
    }
    if text == "if_end" {
        return Ok(Instr::IfEnd);
    }
    if text == "raw_raise" {
        return Ok(Instr::RawRaise);
    }
    unless_known(alloc, word)
}

/// The instruction that a form is, where `last` is the greatest index of a register.
pub fn read_form(alloc: Global, last: u16, term: &Term) -> Result<Instr, FormRefusal>
    ensures { Judges result (form.form_of last term.now) }
{
    match term {
        Term::Atom(word) => bare(alloc, word),
        Term::Tuple(items) => match headed(items.as_slice()) {
            None => Err(FormRefusal::Shape),
            Some((word, rest)) => tagged(alloc, last, word, rest),
        },
        _ => Err(FormRefusal::Shape),
    }
}
