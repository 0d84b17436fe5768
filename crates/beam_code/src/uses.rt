ghost use Rattle.std.specs.Prelude.{◌≡◌, ◌+◌, ◌*◌, ◌-◌, ◌^◌, min};
ghost use Rattle.beam_code.specs.Uses as uses;

use crate::{Callee, Instr, Operand, Place};

fn same_place(a: Place, b: Place) -> bool
    ensures { result ≡ uses.same_place a b }
{
    match a {
        Place::X(n) => match b {
            Place::X(m) => n == m,
            Place::Y(_) => false,
        },
        Place::Y(n) => match b {
            Place::X(_) => false,
            Place::Y(m) => n == m,
        },
    }
}

fn names(s: &Operand, place: Place) -> bool
    ensures { result ≡ uses.names s.now place }
{
    match s {
        Operand::X(n) => same_place(Place::X(*n), place),
        Operand::Y(n) => same_place(Place::Y(*n), place),
        _ => false,
    }
}

fn any_names(all: &[Operand], place: Place) -> bool
    ensures { result ≡ uses.any_names all.now place }
{
    all.iter().any(|s| names(s, place))
}

fn is_below(n: u32, place: Place) -> bool
    ensures { result ≡ uses.is_below n place }
{
    match place {
        Place::X(m) => u32::from(m) < n,
        Place::Y(_) => false,
    }
}

fn is_slot_below(n: u32, place: Place) -> bool
    ensures { result ≡ uses.is_slot_below n place }
{
    match place {
        Place::X(_) => false,
        Place::Y(m) => u32::from(m) < n,
    }
}

/// Whether an instruction reads a register, those included that it reads without naming them.
pub fn reads(instr: &Instr, place: Place) -> bool
    ensures { result ≡ uses.reads instr.now place }
{
    match instr {
        Instr::Move(s, _)
        | Instr::GetList(s, _, _)
        | Instr::GetHd(s, _)
        | Instr::GetTl(s, _)
        | Instr::GetTupleElement(s, _, _)
        | Instr::SelectVal(s, _, _)
        | Instr::SelectTupleArity(s, _, _)
        | Instr::Badmatch(s)
        | Instr::CaseEnd(s)
        | Instr::TryCaseEnd(s) => names(s, place),
        Instr::Swap(d, e) => same_place(*d, place) || same_place(*e, place),
        Instr::PutList(s, u, _) | Instr::BifRaise(s, u, _) | Instr::Raise(s, u, _) => {
            names(s, place) || names(u, place)
        }
        Instr::PutTuple2(_, all)
        | Instr::Test(_, _, all)
        | Instr::Bif(_, _, all, _)
        | Instr::GcBif(_, _, _, all, _) => any_names(all.as_slice(), place),
        Instr::Return | Instr::CatchEnd(_) => is_below(1, place),
        Instr::Call(arity, _)
        | Instr::CallExt(arity, _)
        | Instr::CallLast(arity, _, _)
        | Instr::CallExtLast(arity, _, _)
        | Instr::CallOnly(arity, _)
        | Instr::CallExtOnly(arity, _) => is_below(*arity, place),
        Instr::RawRaise => is_below(3, place),
        Instr::Label(_)
        | Instr::Line(_)
        | Instr::Comment(_)
        | Instr::FuncInfo(_, _, _)
        | Instr::Jump(_)
        | Instr::Allocate(_, _)
        | Instr::AllocateZero(_, _)
        | Instr::AllocateHeap(_, _, _)
        | Instr::AllocateHeapZero(_, _, _)
        | Instr::TestHeap(_, _)
        | Instr::Init(_)
        | Instr::Kill(_)
        | Instr::Trim(_, _)
        | Instr::Deallocate(_)
        | Instr::IfEnd
        | Instr::Try(_, _)
        | Instr::Catch(_, _)
        | Instr::TryEnd(_)
        | Instr::TryCase(_) => false,
    }
}

/// Whether an instruction writes a register, those included that it writes without naming them.
pub fn writes(instr: &Instr, place: Place) -> bool
    ensures { result ≡ uses.writes instr.now place }
{
    match instr {
        Instr::Move(_, d)
        | Instr::GetHd(_, d)
        | Instr::GetTl(_, d)
        | Instr::GetTupleElement(_, _, d)
        | Instr::PutList(_, _, d)
        | Instr::PutTuple2(d, _)
        | Instr::Bif(_, _, _, d)
        | Instr::GcBif(_, _, _, _, d) => same_place(*d, place),
        Instr::Swap(d, e) | Instr::GetList(_, d, e) => {
            same_place(*d, place) || same_place(*e, place)
        }
        Instr::Init(y)
        | Instr::Kill(y)
        | Instr::Try(y, _)
        | Instr::Catch(y, _)
        | Instr::TryEnd(y)
        | Instr::TryCase(y) => same_place(Place::Y(*y), place),
        Instr::CatchEnd(y) => same_place(Place::Y(*y), place) || is_below(1, place),
        Instr::Allocate(n, _)
        | Instr::AllocateZero(n, _)
        | Instr::AllocateHeap(n, _, _)
        | Instr::AllocateHeapZero(n, _, _)
        | Instr::Deallocate(n) => is_slot_below(*n, place),
        Instr::Call(_, _)
        | Instr::CallExt(_, _)
        | Instr::CallLast(_, _, _)
        | Instr::CallExtLast(_, _, _)
        | Instr::CallOnly(_, _)
        | Instr::CallExtOnly(_, _)
        | Instr::RawRaise => is_below(1, place),
        _ => false,
    }
}

fn never_returns(callee: &Callee) -> bool
    ensures { result ≡ uses.never_returns callee.now.owner callee.now.name callee.now.arity }
{
    let name = callee.name.as_str();
    if callee.owner.as_str() != "erlang" {
        return false;
    }
    match callee.arity {
        1 => name == "throw" || name == "exit" || name == "error",
        2 => name == "error",
        _ => false,
    }
}

/// Whether the next item may follow an instruction.
pub fn goes_on(instr: &Instr) -> bool
    ensures { result ≡ uses.goes_on instr.now }
{
    match instr {
        Instr::FuncInfo(_, _, _)
        | Instr::Jump(_)
        | Instr::SelectVal(_, _, _)
        | Instr::SelectTupleArity(_, _, _)
        | Instr::Return
        | Instr::CallLast(_, _, _)
        | Instr::CallExtLast(_, _, _)
        | Instr::CallOnly(_, _)
        | Instr::CallExtOnly(_, _)
        | Instr::Badmatch(_)
        | Instr::CaseEnd(_)
        | Instr::TryCaseEnd(_)
        | Instr::IfEnd
        | Instr::BifRaise(_, _, _)
        | Instr::Raise(_, _, _) => false,
        Instr::CallExt(_, callee) => !never_returns(callee),
        _ => true,
    }
}

fn twice(n: usize) -> u32
    ensures { result ≡ min (2 * n + 1) (2 ^ 32 - 1) }
{
    match u32::try_from(n) {
        Ok(n) => n.saturating_mul(2).saturating_add(1),
        Err(_) => u32::MAX,
    }
}

fn once(n: usize) -> u32
    ensures { result ≡ min (n + 1) (2 ^ 32 - 1) }
{
    match u32::try_from(n) {
        Ok(n) => n.saturating_add(1),
        Err(_) => u32::MAX,
    }
}

/// The units of an instruction: 1, and the elements of its list, and the arity of a call or a
/// `func_info`. The greatest `u32` where there are more.
pub fn units(instr: &Instr) -> u32
    ensures { result ≡ min (uses.units instr.now) (2 ^ 32 - 1) }
{
    match instr {
        Instr::FuncInfo(_, _, arity)
        | Instr::Call(arity, _)
        | Instr::CallExt(arity, _)
        | Instr::CallLast(arity, _, _)
        | Instr::CallExtLast(arity, _, _)
        | Instr::CallOnly(arity, _)
        | Instr::CallExtOnly(arity, _) => arity.saturating_add(1),
        Instr::PutTuple2(_, all) => once(all.as_slice().len()),
        Instr::SelectVal(_, _, cases) => twice(cases.as_slice().len()),
        Instr::SelectTupleArity(_, _, cases) => twice(cases.as_slice().len()),
        _ => 1,
    }
}
