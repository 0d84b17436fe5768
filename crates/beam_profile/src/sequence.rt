//! The forms of functions, one after another.
ghost use Rattle.indexmap.specs.IndexSet.{keys};
ghost use Rattle.asm_text.specs.Canonical.{has_canonical};
ghost use Rattle.beam_code.specs.Canonical.{is_canonical_instr};
ghost use Rattle.std.specs.List.{list_all};
ghost use Rattle.std.specs.Prelude.{◌≡◌, ◌+◌, ◌<◌, ◌≤◌, ◌^◌, List, length, IfOk, IsTrue};
ghost use Rattle.term_tree.specs.Term.{is_canonical};
ghost use Rattle.beam_profile.specs.Header.{Key};
ghost use Rattle.beam_profile.specs.Sequence as sequence;
ghost use Rattle.beam_profile.specs.Sequence.{Added, Meets, Stepped, with_new};

use crate::ModuleRefusal;
use crate::header::{Head, first_form};
use asm_text::Form;
use beam_code::{Body, Function, Functions, Instr, Item};
use indexmap::IndexSet;
use module_forms::{FormRefusal, read_form};
use std::alloc::{AllocError, Global};
use term_tree::Name;

/// How far the beginning of a function has come: it wants a label, its own `func_info`, its entry
/// label; or it has begun at the item with this index.
#[derive(Clone, Copy)]
pub enum Stage {
    WantsLabel,
    WantsInfo,
    WantsEntry,
    Begun(u32),
}

/// The function that is read, and those before it.
#[derive(Drop)]
pub struct State {
    pub owner: Name,
    pub head: Head,
    pub stage: Stage,
    pub items: Body,
    pub done: Functions,
}

/// Whether these are the names of the function.
fn is_own(owner: &Name, head: &Head, of: &Name, name: &Name, arity: u32) -> bool
    ensures { result ≡ sequence.is_own owner.now head.now of.now name.now arity }
{
    *of == *owner && *name == head.name && arity == u32::from(head.arity)
}

fn after_label(head: &Head, at: u32, stage: Stage, label: u32) -> Option<Stage>
    ensures { result ≡ sequence.after_label head.now at stage label }
{
    match stage {
        Stage::WantsLabel => Some(Stage::WantsInfo),
        Stage::WantsInfo => None,
        Stage::WantsEntry => {
            if label == head.entry {
                Some(Stage::Begun(at))
            } else {
                None
            }
        }
        Stage::Begun(entry) => Some(Stage::Begun(entry)),
    }
}

fn after_info(stage: Stage, own: bool) -> Option<Stage>
    ensures { result ≡ sequence.after_info stage own }
{
    match stage {
        Stage::WantsLabel | Stage::WantsEntry => None,
        Stage::WantsInfo => { if own { Some(Stage::WantsEntry) } else { None } }
        Stage::Begun(entry) => Some(Stage::Begun(entry)),
    }
}

fn after_other(stage: Stage) -> Option<Stage>
    ensures { result ≡ sequence.after_other stage }
{
    match stage {
        Stage::WantsLabel | Stage::WantsInfo | Stage::WantsEntry => None,
        Stage::Begun(entry) => Some(Stage::Begun(entry)),
    }
}

/// What an item with this index does to the beginning of a function.
fn next(owner: &Name, head: &Head, at: u32, stage: Stage, instr: &Instr) -> Option<Stage>
    ensures { result ≡ sequence.next owner.now head.now at stage (sequence.mark_of instr.now) }
{
    match instr {
        Instr::Line(_) | Instr::Comment(_) => Some(stage),
        Instr::Label(n) => after_label(head, at, stage, *n),
        Instr::FuncInfo(of, name, arity) => {
            after_info(stage, is_own(owner, head, of, name, *arity))
        }
        _ => after_other(stage),
    }
}

/// The function that is read, with one item more.
fn with_item(state: State, line: u32, instr: Instr) -> Result<State, ModuleRefusal>
    requires few { length state.items < 2 ^ 32 }
    requires canonical { IsTrue (is_canonical_instr instr) }
    ensures step { (seen : List Key) → Stepped result seen (sequence.with_item state seen line instr) }
    ensures more { IfOk result (λ s. length s.items ≤ length state.items + 1) }
{
    let at = state.items.len() as u32;
    let Some(stage) = next(&state.owner, &state.head, at, state.stage, &instr) else {
        return Err(ModuleRefusal::Shape { line });
    };
    let State {
        owner,
        head,
        mut items,
        done,
        ..
    } = state;
    items.push(Item::new(line, instr))?;
    Ok(State {
        owner,
        head,
        stage,
        items,
        done,
    })
}

/// The functions with the one that is read, if it may end.
fn closed(
    head: Head,
    stage: Stage,
    items: Body,
    done: Functions,
) -> Result<Option<Functions>, AllocError>
    ensures { IfOk result (λ all. all ≡ sequence.closed_with head items done stage) }
{
    let entry = match stage {
        Stage::Begun(entry) => entry,
        Stage::WantsLabel | Stage::WantsInfo | Stage::WantsEntry => return Ok(None),
    };
    let Head { name, arity, .. } = head;
    let mut done = done;
    done.push(Function {
        name,
        arity,
        entry,
        items,
    })?;
    Ok(Some(done))
}

/// A function that begins behind these.
fn begun(alloc: Global, owner: Name, head: Head, done: Functions) -> State
    ensures { result ≡ sequence.begun owner head done }
{
    State {
        owner,
        head,
        stage: Stage::WantsLabel,
        items: Body::new(alloc),
        done,
    }
}

/// Notes that a function began, and says whether none with its name and arity had.
#[tactic(auto, using(crate::proofs::Added::added_is))]
fn add(seen: &mut IndexSet<(Name, u8)>, key: (Name, u8)) -> Result<bool, AllocError>
    ensures { IfOk result (λ new. Added new (keys seen.new) (with_new (keys seen.old) key)) }
{
    match seen.insert(key) {
        Ok(new) => Ok(new),
        Err(e) => Err(AllocError::from(e)),
    }
}

/// The next function, behind the one that was read.
fn with_function(
    alloc: Global,
    state: State,
    seen: &mut IndexSet<(Name, u8)>,
    line: u32,
    head: Head,
) -> Result<State, ModuleRefusal>
    ensures step { Stepped result (keys seen.new) (sequence.with_function state (keys seen.old) line head) }
    ensures more { IfOk result (λ s. length s.items ≤ length state.items + 1) }
{
    let State {
        owner,
        head: before,
        stage,
        items,
        done,
    } = state;
    let Some(done) = closed(before, stage, items, done)? else {
        return Err(ModuleRefusal::Shape { line });
    };
    let name = head.name.copy(alloc)?;
    if add(seen, (name, head.arity))? {
        Ok(begun(alloc, owner, head, done))
    } else {
        Err(ModuleRefusal::Shape { line })
    }
}

/// A form whose only fault is that a number is past its limit.
fn register(line: u32, stage: Stage) -> ModuleRefusal
    ensures { result ≡ sequence.register_at line stage }
{
    match stage {
        Stage::Begun(_) => ModuleRefusal::Register { line },
        Stage::WantsLabel | Stage::WantsInfo | Stage::WantsEntry => ModuleRefusal::Shape { line },
    }
}

fn unsupported(line: u32, name: Name) -> ModuleRefusal
    ensures { result ≡ ModuleRefusal.Unsupported line name }
{
    ModuleRefusal::Unsupported { line, name }
}

/// One form more.
fn step(
    alloc: Global,
    last: u16,
    state: State,
    seen: &mut IndexSet<(Name, u8)>,
    form: &Form,
) -> Result<State, ModuleRefusal>
    requires few { length state.items < 2 ^ 32 }
    requires canonical { IsTrue (is_canonical form.now.term) }
    ensures step { Stepped result (keys seen.new) (sequence.step last state (keys seen.old) form.now) }
    ensures more { IfOk result (λ s. length s.items ≤ length state.items + 1) }
{
    if let Some(head) = first_form(alloc, &form.term)? {
        return with_function(alloc, state, seen, form.line, head);
    }
    match read_form(alloc, last, &form.term) {
        Ok(instr) => with_item(state, form.line, instr),
        Err(FormRefusal::Unsupported(name)) => Err(unsupported(form.line, name)),
        Err(FormRefusal::Shape) => Err(ModuleRefusal::Shape { line: form.line }),
        Err(FormRefusal::Register) => Err(register(form.line, state.stage)),
        Err(FormRefusal::Memory(e)) => Err(ModuleRefusal::Memory(e)),
    }
}

/// The functions, where the text ends behind this line.
fn end(line: u32, state: State) -> Result<Functions, ModuleRefusal>
    ensures { Meets result (sequence.ended line state) }
{
    let State {
        head,
        stage,
        items,
        done,
        ..
    } = state;
    match closed(head, stage, items, done)? {
        Some(all) => Ok(all),
        None => Err(ModuleRefusal::Shape { line }),
    }
}

/// The functions of these forms.
pub fn functions(
    alloc: Global,
    last: u16,
    owner: &Name,
    forms: &[Form],
) -> Result<Functions, ModuleRefusal>
    requires few { length forms.now ≤ 2 ^ 31 }
    requires canonical { IsTrue (list_all has_canonical forms.now) }
    ensures { Meets result (sequence.functions last owner.now forms.now) }
{
    let [first, rest @ ..] = forms else {
        return Ok(Functions::new(alloc));
    };
    let Some(head) = first_form(alloc, &first.term)? else {
        return Err(ModuleRefusal::Shape { line: first.line });
    };
    let mut seen = IndexSet::new(alloc);
    seen.insert((head.name.copy(alloc)?, head.arity))?;
    let mut state = begun(alloc, owner.copy(alloc)?, head, Functions::new(alloc));
    let mut line = first.line;
    for form in rest {
        state = step(alloc, last, state, &mut seen, form)?;
        line = form.line;
    }
    end(line, state)
}
