//! The module of a text.
ghost use Rattle.asm_text.specs.Canonical.{has_canonical};
ghost use Rattle.asm_text.specs.Reading.{reading};
ghost use Rattle.std.specs.List.{list_all};
ghost use Rattle.text_forms.specs.Refusals.{Meets as Reads};
ghost use Rattle.text_forms.specs.declared.form.Form.{Form};
ghost use Rattle.text_forms.specs.declared.refusal.TextRefusal.{TextRefusal};
ghost use Rattle.indexmap.specs.IndexSet.{keys};
ghost use Rattle.std.specs.Prelude.{◌≡◌, ◌≤◌, ℕ, List, Result, Ok, Err, IfOk, IsTrue, length};
ghost use Rattle.beam_code.specs.declared.module.Module.{Module};
ghost use Rattle.beam_profile.specs.Module as whole;
ghost use Rattle.beam_profile.specs.Sequence.{Meets, has_cause};
ghost use Rattle.beam_profile.specs.Sizes.{item_count};
ghost use Rattle.beam_profile.specs.Whole.{IsModuleOf};

use crate::ModuleRefusal;
use crate::header::{at, attributes, declared, exported, labels, module_name};
use crate::labels::first_broken;
use crate::sequence::functions;
use asm_text::{Form, TextRefusal, read_forms};
use beam_code::{Functions, MOST_TEXT_BYTES, Module};
use indexmap::IndexSet;
use sqlite_items::Items;
use std::alloc::Global;
use term_tree::Name;

/// The greatest index of a register.
pub const LAST_INDEX: u16 = 255;

/// A module but for its text, whose labels were not looked at.
#[derive(Drop)]
pub struct Outline {
    pub name: Name,
    pub exports: Items<(Name, u8)>,
    pub functions: Functions,
}

fn at_labels(
    alloc: Global,
    last: u16,
    name: Name,
    exports: Items<(Name, u8)>,
    line: u32,
    forms: &[Form],
) -> Result<Outline, ModuleRefusal>
    requires few { length forms.now ≤ MOST_TEXT_BYTES }
    requires canonical { IsTrue (list_all has_canonical forms.now) }
    ensures { Meets result (whole.at_labels last name exports line forms.now) }
{
    let [form, rest @ ..] = forms else {
        return Err(ModuleRefusal::Shape { line });
    };
    let Some(_) = labels(&form.term) else {
        return Err(ModuleRefusal::Shape { line: form.line });
    };
    let functions = functions(alloc, last, &name, rest)?;
    Ok(Outline {
        name,
        exports,
        functions,
    })
}

fn at_attributes(
    alloc: Global,
    last: u16,
    name: Name,
    exports: Items<(Name, u8)>,
    line: u32,
    forms: &[Form],
) -> Result<Outline, ModuleRefusal>
    requires few { length forms.now ≤ MOST_TEXT_BYTES }
    requires canonical { IsTrue (list_all has_canonical forms.now) }
    ensures { Meets result (whole.at_attributes last name exports line forms.now) }
{
    let [form, rest @ ..] = forms else {
        return Err(ModuleRefusal::Shape { line });
    };
    let Some(_) = attributes(&form.term) else {
        return Err(ModuleRefusal::Shape { line: form.line });
    };
    at_labels(alloc, last, name, exports, form.line, rest)
}

fn at_exports(
    alloc: Global,
    last: u16,
    there: &IndexSet<(Name, u8)>,
    name: Name,
    line: u32,
    forms: &[Form],
) -> Result<Outline, ModuleRefusal>
    requires few { length forms.now ≤ MOST_TEXT_BYTES }
    requires canonical { IsTrue (list_all has_canonical forms.now) }
    ensures { Meets result (whole.at_exports last (keys there.now) name line forms.now) }
{
    let [form, rest @ ..] = forms else {
        return Err(ModuleRefusal::Shape { line });
    };
    let exports = at(form.line, exported(alloc, there, &form.term))?;
    at_attributes(alloc, last, name, exports, form.line, rest)
}

/// The module but for its text, as far as its forms tell one by one.
fn outline_of(alloc: Global, last: u16, forms: &[Form]) -> Result<Outline, ModuleRefusal>
    requires few { length forms.now ≤ MOST_TEXT_BYTES }
    requires canonical { IsTrue (list_all has_canonical forms.now) }
    ensures { Meets result (whole.outline last forms.now) }
{
    let there = declared(alloc, forms)?;
    let [form, rest @ ..] = forms else {
        return Err(ModuleRefusal::Shape { line: 1 });
    };
    let name = at(form.line, module_name(alloc, &form.term))?;
    at_exports(alloc, last, &there, name, form.line, rest)
}

/// The module of these forms, which keeps the text.
fn module_with(
    alloc: Global,
    last: u16,
    text: Items<u8>,
    forms: &[Form],
) -> Result<Module, ModuleRefusal>
    requires few { length forms.now ≤ MOST_TEXT_BYTES }
    requires canonical { IsTrue (list_all has_canonical forms.now) }
    ensures { Meets result (whole.module_with last text forms.now) }
{
    let Outline {
        name,
        exports,
        functions,
    } = outline_of(alloc, last, forms)?;
    if let Some(line) = first_broken(alloc, functions.as_slice())? {
        return Err(ModuleRefusal::Label { line });
    }
    Ok(Module {
        name,
        exports,
        functions,
        text,
    })
}

fn text_refused(refusal: TextRefusal) -> ModuleRefusal
    ensures { (last : ℕ) (text : List ℕ) (wanted : Result (List Form) TextRefusal) → Reads (Err refusal) wanted → IsTrue (has_cause result) → whole.module_in last text wanted ≡ Err result }
{
    match refusal {
        TextRefusal::Memory(e) => ModuleRefusal::Memory(e),
        TextRefusal::Syntax { line } => ModuleRefusal::Text(TextRefusal::Syntax { line }),
        TextRefusal::Wide { line } => ModuleRefusal::Text(TextRefusal::Wide { line }),
        TextRefusal::Kind { line, kind } => ModuleRefusal::Text(TextRefusal::Kind { line, kind }),
        TextRefusal::Deep { line } => ModuleRefusal::Text(TextRefusal::Deep { line }),
    }
}

/// The forms of a text, no more than it has bytes.
fn forms_of(alloc: Global, text: &[u8]) -> Result<Items<Form>, TextRefusal>
    ensures forms { Reads result (reading text.now) }
    ensures few { IfOk result (λ forms. length forms ≤ length text.now) }
    ensures canonical { IfOk result (λ forms. IsTrue (list_all has_canonical forms)) }
{
    read_forms(alloc, text)
}

/// The module of a text, where `last` is the greatest index of a register.
fn read_within(alloc: Global, last: u16, text: Items<u8>) -> Result<Module, ModuleRefusal>
    requires { length text ≤ MOST_TEXT_BYTES }
    ensures { Meets result (whole.module_of_text last text) }
{
    match forms_of(alloc, text.as_slice()) {
        Ok(forms) => module_with(alloc, last, text, forms.as_slice()),
        Err(e) => Err(text_refused(e)),
    }
}

/// The module of a text, or why there is none.
pub fn read_module(alloc: Global, text: Items<u8>) -> Result<Module, ModuleRefusal>
    requires { length text ≤ MOST_TEXT_BYTES }
    ensures exact { Meets result (whole.module_of_text LAST_INDEX text) }
    ensures written { IfOk result (λ m. IsModuleOf LAST_INDEX text m) }
    ensures read { (m : Module) → IsModuleOf LAST_INDEX text m → Meets result (Ok m) }
    ensures few { IfOk result (λ m. item_count m.functions ≤ length text) }
{
    read_within(alloc, LAST_INDEX, text)
}
