// The y registers that an item names.

ghost use Rattle.std.specs.Prelude.{◌≡◌};
ghost use Rattle.std.specs.List.{list_all};
ghost use Rattle.beam_code.specs.Shape.{shape_of};
ghost use Rattle.path_rules.specs.Asked.{asked};
ghost use Rattle.path_rules.specs.Rules as rules_spec;
ghost use Rattle.path_rules.specs.Tags as tags_spec;
ghost use Rattle.path_rules.specs.Registers as registers;

use crate::tag::Tag;
use beam_code::{Instr, Operand, Place};

/// What is asked of a y register: that a stack of so many has it; that none of these tags is its.
#[derive(Clone, Copy)]
pub(crate) enum Asked<'a> {
    InStack(Option<u32>),
    Untagged(&'a [Tag]),
}

fn is_in_stack(stack: Option<u32>, y: u32) -> bool
    ensures { result ≡ rules_spec.is_in_stack stack y }
{
    match stack {
        None => false,
        Some(size) => y < size,
    }
}

pub(crate) fn is_untagged(tags: &[Tag], y: u32) -> bool
    ensures { result ≡ tags_spec.is_untagged tags.now y }
{
    tags.iter().all(|t| t.y != y)
}

fn passes(ask: Asked, y: u16) -> bool
    ensures { result ≡ asked ask.entry y }
{
    match ask {
        Asked::InStack(stack) => is_in_stack(stack, u32::from(y)),
        Asked::Untagged(tags) => is_untagged(tags, u32::from(y)),
    }
}

fn operand_passes(ask: Asked, operand: &Operand) -> bool
    ensures { result ≡ registers.operand_passes (asked ask.entry) operand.now }
{
    match operand {
        Operand::Y(n) => passes(ask, *n),
        _ => true,
    }
}

fn place_passes(ask: Asked, place: Place) -> bool
    ensures { result ≡ registers.place_passes (asked ask.entry) place }
{
    match place {
        Place::X(_) => true,
        Place::Y(n) => passes(ask, n),
    }
}

fn all_pass(ask: Asked, operands: &[Operand]) -> bool
    ensures { result ≡ list_all (registers.operand_passes (asked ask.entry)) operands.now }
{
    operands.iter().all(|operand| operand_passes(ask, operand))
}

/// Whether it holds of each y register that an item reads or gives a value.
pub(crate) fn uses_pass(ask: Asked, instr: &Instr) -> bool
    ensures { result ≡ registers.uses_pass (asked ask.entry) (shape_of instr.now) }
{
    match instr {
        Instr::Move(from, to)
        | Instr::GetHd(from, to)
        | Instr::GetTl(from, to)
        | Instr::GetTupleElement(from, _, to) => operand_passes(ask, from)
            && place_passes(ask, *to),
        Instr::Swap(a, b) => place_passes(ask, *a) && place_passes(ask, *b),
        Instr::GetList(from, a, b) => {
            operand_passes(ask, from) && place_passes(ask, *a) && place_passes(ask, *b)
        }
        Instr::PutList(head, tail, to) => {
            operand_passes(ask, head) && operand_passes(ask, tail) && place_passes(ask, *to)
        }
        Instr::PutTuple2(to, parts) => { all_pass(ask, parts.as_slice()) && place_passes(ask, *to) }
        Instr::Bif(_, _, operands, to) | Instr::GcBif(_, _, _, operands, to) => {
            all_pass(ask, operands.as_slice()) && place_passes(ask, *to)
        }
        Instr::Test(_, _, operands) => all_pass(ask, operands.as_slice()),
        Instr::SelectVal(from, _, _)
        | Instr::SelectTupleArity(from, _, _)
        | Instr::Badmatch(from)
        | Instr::CaseEnd(from)
        | Instr::TryCaseEnd(from) => operand_passes(ask, from),
        Instr::BifRaise(class, reason, _) | Instr::Raise(class, reason, _) => {
            operand_passes(ask, class) && operand_passes(ask, reason)
        }
        _ => true,
    }
}

/// Whether it holds of each y register that an item names in another way.
pub(crate) fn others_pass(ask: Asked, instr: &Instr) -> bool
    ensures { result ≡ registers.others_pass (asked ask.entry) (shape_of instr.now) }
{
    match instr {
        Instr::Init(y)
        | Instr::Kill(y)
        | Instr::Try(y, _)
        | Instr::Catch(y, _)
        | Instr::TryEnd(y)
        | Instr::TryCase(y)
        | Instr::CatchEnd(y) => passes(ask, *y),
        Instr::BifRaise(_, _, to) | Instr::Raise(_, _, to) => place_passes(ask, *to),
        _ => true,
    }
}
