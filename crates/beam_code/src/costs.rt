ghost use Rattle.beam_code.specs.Function.{most_of, cost_of};
ghost use Rattle.beam_code.specs.Registers.{operand_xs, operands_xs, place_xs, instr_xs, instr_ys};
ghost use Rattle.std.specs.Prelude.{◌≡◌, ◌-◌, ◌^◌, min};

use crate::{Function, Instr, Item, Operand, Place};

fn operand_xs(s: &Operand) -> u32
    ensures { result ≡ operand_xs s.now }
{
    match s {
        Operand::X(n) => u32::from(*n) + 1,
        Operand::Y(_) | Operand::Int(_) | Operand::Atom(_) | Operand::Nil | Operand::Literal(_) => {
            0
        }
    }
}

fn place_xs(place: Place) -> u32
    ensures { result ≡ place_xs place }
{
    match place {
        Place::X(n) => u32::from(n) + 1,
        Place::Y(_) => 0,
    }
}

fn operands_xs(all: &[Operand]) -> u32
    ensures { result ≡ operands_xs all.now }
{
    let mut most = 0;
    for s in all {
        most = most.max(operand_xs(s));
    }
    most
}

/// One more than the greatest index of an x register that an instruction reads or writes, or 0.
fn instr_xs(instr: &Instr) -> u32
    ensures { result ≡ instr_xs instr.now }
{
    match instr {
        Instr::Move(s, d)
        | Instr::GetHd(s, d)
        | Instr::GetTl(s, d)
        | Instr::GetTupleElement(s, _, d) => operand_xs(s).max(place_xs(*d)),
        Instr::Swap(d, e) => place_xs(*d).max(place_xs(*e)),
        Instr::GetList(s, d, e) => operand_xs(s).max(place_xs(*d).max(place_xs(*e))),
        Instr::PutList(s, u, d) => operand_xs(s).max(operand_xs(u).max(place_xs(*d))),
        Instr::PutTuple2(d, all) | Instr::Bif(_, _, all, d) | Instr::GcBif(_, _, _, all, d) => {
            operands_xs(all.as_slice()).max(place_xs(*d))
        }
        Instr::Test(_, _, all) => operands_xs(all.as_slice()),
        Instr::SelectVal(s, _, _)
        | Instr::SelectTupleArity(s, _, _)
        | Instr::Badmatch(s)
        | Instr::CaseEnd(s)
        | Instr::TryCaseEnd(s) => operand_xs(s),
        Instr::BifRaise(s, u, _) | Instr::Raise(s, u, _) => operand_xs(s).max(operand_xs(u)),
        Instr::Call(arity, _)
        | Instr::CallExt(arity, _)
        | Instr::CallLast(arity, _, _)
        | Instr::CallExtLast(arity, _, _)
        | Instr::CallOnly(arity, _)
        | Instr::CallExtOnly(arity, _) => (*arity).max(1),
        Instr::Return | Instr::CatchEnd(_) => 1,
        Instr::RawRaise => 3,
        _ => 0,
    }
}

/// How many y registers an instruction allocates.
fn instr_ys(instr: &Instr) -> u32
    ensures { result ≡ instr_ys instr.now }
{
    match instr {
        Instr::Allocate(n, _)
        | Instr::AllocateZero(n, _)
        | Instr::AllocateHeap(n, _, _)
        | Instr::AllocateHeapZero(n, _, _) => *n,
        _ => 0,
    }
}

fn most_xs(items: &[Item]) -> u32
    ensures { result ≡ most_of instr_xs items.now }
{
    let mut most = 0;
    for item in items {
        most = most.max(instr_xs(item.instr()));
    }
    most
}

fn most_ys(items: &[Item]) -> u32
    ensures { result ≡ most_of instr_ys items.now }
{
    let mut most = 0;
    for item in items {
        most = most.max(instr_ys(item.instr()));
    }
    most
}

/// The words of a function's frame: its return address, its y registers, and a home for each x
/// register. The greatest `u32` where it has more.
pub fn cost(f: &Function) -> u32
    ensures { result ≡ min (cost_of f.now) (2 ^ 32 - 1) }
{
    let ys = most_ys(f.items.as_slice());
    let xs = most_xs(f.items.as_slice()).max(u32::from(f.arity)).max(1);
    ys.saturating_add(1).saturating_add(xs)
}
