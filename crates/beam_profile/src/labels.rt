//! Which labels an item may define and name.
ghost use Rattle.indexmap.specs.IndexSet.{keys};
ghost use Rattle.std.specs.Prelude.{◌≡◌, [], IfOk, None};
ghost use Rattle.beam_code.specs.Shape.{ByValue, BySize, shape_of};
ghost use Rattle.beam_profile.specs.Labels as labels;

use beam_code::{ArityCase, Case, Function, Instr, Item};
use indexmap::IndexSet;
use std::alloc::{AllocError, Global};

fn label_in(instr: &Instr) -> Option<u32>
    ensures { result ≡ labels.label_in instr.now }
{
    match instr {
        Instr::Label(n) => Some(*n),
        _ => None,
    }
}

/// The labels of some items.
fn labels_of(alloc: Global, items: &[Item]) -> Result<IndexSet<u32>, AllocError>
    ensures { IfOk result (λ set. keys set ≡ labels.collected [] items.now) }
{
    let mut set = IndexSet::new(alloc);
    for item in items {
        if let Some(n) = label_in(item.instr()) {
            set.insert(n)?;
        }
    }
    Ok(set)
}

fn is_bound(own: &IndexSet<u32>, label: u32) -> bool
    ensures { result ≡ labels.is_bound (keys own.now) label }
{
    label != 0 && own.contains(&label)
}

fn is_bound_or_none(own: &IndexSet<u32>, label: u32) -> bool
    ensures { result ≡ labels.is_bound_or_none (keys own.now) label }
{
    label == 0 || own.contains(&label)
}

fn are_cases_bound(own: &IndexSet<u32>, cases: &[Case]) -> bool
    ensures { result ≡ labels.branches_bound (keys own.now) (ByValue cases.now) }
{
    cases.iter().all(|case| is_bound(own, case.label))
}

fn are_arity_cases_bound(own: &IndexSet<u32>, cases: &[ArityCase]) -> bool
    ensures { result ≡ labels.branches_bound (keys own.now) (BySize cases.now) }
{
    cases.iter().all(|case| is_bound(own, case.label))
}

/// Whether an instruction names, outside calls, only labels of its function, and 0 only where it
/// may.
fn are_bound(own: &IndexSet<u32>, instr: &Instr) -> bool
    ensures { result ≡ labels.shape_bound (keys own.now) (shape_of instr.now) }
{
    match instr {
        Instr::Test(_, label, _) => is_bound(own, *label),
        Instr::Jump(label) | Instr::Try(_, label) | Instr::Catch(_, label) => {
            is_bound(own, *label)
        }
        Instr::SelectVal(_, label, cases) => {
            is_bound(own, *label) && are_cases_bound(own, cases.as_slice())
        }
        Instr::SelectTupleArity(_, label, cases) => {
            is_bound(own, *label) && are_arity_cases_bound(own, cases.as_slice())
        }
        Instr::Bif(_, fail, _, _) | Instr::GcBif(_, fail, _, _, _) => is_bound_or_none(own, *fail),
        Instr::Call(_, label) | Instr::CallOnly(_, label) => *label != 0,
        Instr::CallLast(_, label, _) => *label != 0,
        _ => true,
    }
}

/// The line of the first item that breaks the rule. If none does, its labels come to those before.
fn broken_in(
    before: &mut IndexSet<u32>,
    own: &IndexSet<u32>,
    items: &[Item],
) -> Result<Option<u32>, AllocError>
    ensures line { IfOk result (λ line. line ≡ labels.broken_in (keys before.old) (keys own.now) items.now) }
    ensures labels { IfOk result (λ line. line ≡ None → keys before.new ≡ labels.collected (keys before.old) items.now) }
{
    for item in items {
        if !are_bound(own, item.instr()) {
            return Ok(Some(item.line()));
        }
        if let Some(n) = label_in(item.instr()) {
            if !before.insert(n)? {
                return Ok(Some(item.line()));
            }
        }
    }
    Ok(None)
}

/// The line of the first item of these functions that breaks the rule.
pub fn first_broken(alloc: Global, functions: &[Function]) -> Result<Option<u32>, AllocError>
    ensures { IfOk result (λ line. line ≡ labels.first_broken [] functions.now) }
{
    let mut before = IndexSet::new(alloc);
    for function in functions {
        let items = function.items.as_slice();
        let own = labels_of(alloc, items)?;
        if let Some(line) = broken_in(&mut before, &own, items)? {
            return Ok(Some(line));
        }
    }
    Ok(None)
}
