// What an item reads, keeps, loses and adds.

ghost use Rattle.std.specs.Prelude.{◌≡◌, ◌<◌, ◌^◌};
ghost use Rattle.beam_code.specs.Shape.{shape_of};
ghost use Rattle.data_flow.specs.Names.{no_names};
ghost use Rattle.path_rules.specs.Registers as registers;
ghost use Rattle.path_flows.specs.FlowOf as flows;
ghost use Rattle.path_flows.specs.Sets as sets;
ghost use Rattle.path_flows.specs.Ways as ways;

use crate::names::{below, with_operand, with_operands, with_place, y_name};
use crate::way::Way;
use beam_code::{Instr, Place};
use data_flow::{Change, Names};

/// How many registers have names: x registers, and as many slots.
pub(crate) const MOST: u32 = 256;

fn kept_xs(instr: &Instr) -> u32
    ensures { result ≡ ways.kept_xs (shape_of instr.now) }
{
    match instr {
        Instr::Allocate(_, live)
        | Instr::AllocateZero(_, live)
        | Instr::AllocateHeap(_, _, live)
        | Instr::AllocateHeapZero(_, _, live)
        | Instr::TestHeap(_, live)
        | Instr::GcBif(_, _, live, _, _) => *live,
        Instr::Call(_, _)
        | Instr::CallExt(_, _)
        | Instr::CallLast(_, _, _)
        | Instr::CallExtLast(_, _, _)
        | Instr::CallOnly(_, _)
        | Instr::CallExtOnly(_, _) => 0,
        _ => MOST,
    }
}

fn left_slots(stack: Option<u32>, n: u32) -> u32
    ensures { result ≡ ways.left_slots stack n }
{
    match stack {
        None => 0,
        Some(size) => size.saturating_sub(n),
    }
}

fn kept_slots(stack: Option<u32>, instr: &Instr) -> u32
    ensures { result ≡ ways.kept_slots stack (shape_of instr.now) }
{
    match instr {
        Instr::Allocate(_, _)
        | Instr::AllocateZero(_, _)
        | Instr::AllocateHeap(_, _, _)
        | Instr::AllocateHeapZero(_, _, _)
        | Instr::Deallocate(_) => 0,
        Instr::Trim(n, _) => left_slots(stack, *n),
        _ => MOST,
    }
}

fn lost(stack: Option<u32>, instr: &Instr) -> Names
    ensures { result ≡ ways.lost_name stack (ways.lost (shape_of instr.now)) }
{
    match instr {
        Instr::Init(y)
        | Instr::Kill(y)
        | Instr::Try(y, _)
        | Instr::Catch(y, _)
        | Instr::TryEnd(y)
        | Instr::TryCase(y)
        | Instr::CatchEnd(y) => y_name(stack, u32::from(*y)),
        _ => Names::NONE,
    }
}

fn gain(stack: Option<u32>, instr: &Instr) -> Names
    ensures { result ≡ sets.with_places stack (ways.gained (shape_of instr.now)) no_names }
{
    match instr {
        Instr::Move(_, to)
        | Instr::GetHd(_, to)
        | Instr::GetTl(_, to)
        | Instr::GetTupleElement(_, _, to)
        | Instr::PutList(_, _, to)
        | Instr::PutTuple2(to, _)
        | Instr::Bif(_, _, _, to)
        | Instr::GcBif(_, _, _, _, to) => with_place(stack, *to, Names::NONE),
        Instr::Swap(a, b) | Instr::GetList(_, a, b) => {
            with_place(stack, *b, with_place(stack, *a, Names::NONE))
        }
        Instr::Call(_, _)
        | Instr::CallExt(_, _)
        | Instr::CallLast(_, _, _)
        | Instr::CallExtLast(_, _, _)
        | Instr::CallOnly(_, _)
        | Instr::CallExtOnly(_, _)
        | Instr::FuncInfo(_, _, _)
        | Instr::Badmatch(_)
        | Instr::CaseEnd(_)
        | Instr::TryCaseEnd(_)
        | Instr::IfEnd
        | Instr::BifRaise(_, _, _)
        | Instr::Raise(_, _, _)
        | Instr::RawRaise
        | Instr::CatchEnd(_) => with_place(stack, Place::X(0), Names::NONE),
        Instr::Label(_)
        | Instr::Line(_)
        | Instr::Comment(_)
        | Instr::Test(_, _, _)
        | Instr::SelectVal(_, _, _)
        | Instr::SelectTupleArity(_, _, _)
        | Instr::Jump(_)
        | Instr::Allocate(_, _)
        | Instr::AllocateZero(_, _)
        | Instr::AllocateHeap(_, _, _)
        | Instr::AllocateHeapZero(_, _, _)
        | Instr::TestHeap(_, _)
        | Instr::Init(_)
        | Instr::Kill(_)
        | Instr::Trim(_, _)
        | Instr::Deallocate(_)
        | Instr::Return
        | Instr::Try(_, _)
        | Instr::Catch(_, _)
        | Instr::TryEnd(_)
        | Instr::TryCase(_) => Names::NONE,
    }
}

/// What the way onward does to heap words.
pub(crate) fn change(instr: &Instr) -> Change
    ensures { result ≡ ways.change_of (shape_of instr.now) }
{
    match instr {
        Instr::AllocateHeap(_, need, _)
        | Instr::AllocateHeapZero(_, need, _)
        | Instr::TestHeap(need, _) => Change::Asks(*need),
        Instr::Call(_, _)
        | Instr::CallExt(_, _)
        | Instr::CallLast(_, _, _)
        | Instr::CallExtLast(_, _, _)
        | Instr::CallOnly(_, _)
        | Instr::CallExtOnly(_, _) => Change::Asks(0),
        _ => Change::Spends,
    }
}

/// The words of the cell that an item makes.
pub(crate) fn cell_words(instr: &Instr) -> u32
    requires { registers.cell_words (shape_of instr.now) < 2 ^ 32 }
    ensures { result ≡ registers.cell_words (shape_of instr.now) }
{
    match instr {
        Instr::PutList(_, _, _) => 2,
        Instr::PutTuple2(_, parts) => (parts.as_slice().len() + 1) as u32,
        _ => 0,
    }
}

/// How many x registers an item reads without naming them.
fn implied(instr: &Instr) -> u32
    ensures { result ≡ registers.implied_xs (shape_of instr.now) }
{
    match instr {
        Instr::Call(arity, _)
        | Instr::CallExt(arity, _)
        | Instr::CallLast(arity, _, _)
        | Instr::CallExtLast(arity, _, _)
        | Instr::CallOnly(arity, _)
        | Instr::CallExtOnly(arity, _) => *arity,
        Instr::Return | Instr::CatchEnd(_) => 1,
        Instr::RawRaise => 3,
        _ => 0,
    }
}

/// These names, and those that an item names and reads.
fn with_named(stack: Option<u32>, instr: &Instr, set: Names) -> Names
    ensures { result ≡ sets.with_operands stack (registers.operands_of (shape_of instr.now)) set }
{
    match instr {
        Instr::Move(from, _)
        | Instr::GetList(from, _, _)
        | Instr::GetHd(from, _)
        | Instr::GetTl(from, _)
        | Instr::GetTupleElement(from, _, _)
        | Instr::SelectVal(from, _, _)
        | Instr::SelectTupleArity(from, _, _)
        | Instr::Badmatch(from)
        | Instr::CaseEnd(from)
        | Instr::TryCaseEnd(from) => with_operand(stack, from, set),
        Instr::Swap(a, b) => with_place(stack, *b, with_place(stack, *a, set)),
        Instr::PutList(a, b, _) | Instr::BifRaise(a, b, _) | Instr::Raise(a, b, _) => {
            with_operand(stack, b, with_operand(stack, a, set))
        }
        Instr::PutTuple2(_, operands)
        | Instr::Test(_, _, operands)
        | Instr::Bif(_, _, operands, _)
        | Instr::GcBif(_, _, _, operands, _) => with_operands(stack, operands.as_slice(), set),
        _ => set,
    }
}

/// The registers that an item reads.
pub(crate) fn reads(stack: Option<u32>, instr: &Instr) -> Names
    ensures { result ≡ flows.read_names stack (shape_of instr.now) }
{
    with_named(stack, instr, below(implied(instr), 0))
}

/// The way onward.
pub(crate) fn onward_way(stack: Option<u32>, to: u32, instr: &Instr) -> Way
    ensures { result ≡ ways.onward_way stack to (shape_of instr.now) }
{
    Way {
        to,
        xs: kept_xs(instr),
        slots: kept_slots(stack, instr),
        lost: lost(stack, instr),
        gain: gain(stack, instr),
        change: change(instr),
    }
}
