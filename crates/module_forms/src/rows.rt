//! Which instruction the parts behind a form's word are.
ghost use Rattle.std.specs.Prelude.{◌≡◌};
ghost use Rattle.module_forms.specs.Rest.{Took};
ghost use Rattle.module_forms.specs.Seen.{saw, tested};
ghost use Rattle.module_forms.specs.Rows as table;
ghost use Rattle.module_forms.specs.Rows.{taken};

use crate::{Fault, Look, Parts};
use beam_code::{Few, Instr, Operand};
use std::alloc::Global;
use term_tree::Name;

#[derive(Clone, Copy)]
pub enum DataOp {
    Label,
    Line,
    Comment,
    FuncInfo,
    Move,
    Swap,
    GetList,
    GetHd,
    GetTl,
    GetTupleElement,
    PutList,
    PutTuple2,
}

#[derive(Clone, Copy)]
pub enum FlowOp {
    SelectVal,
    SelectTupleArity,
    Jump,
    Allocate,
    AllocateZero,
    AllocateHeap,
    AllocateHeapZero,
    TestHeap,
    Init,
    Kill,
    Trim,
    Deallocate,
}

#[derive(Clone, Copy)]
pub enum CallOp {
    Call,
    CallExt,
    CallLast,
    CallExtLast,
    CallOnly,
    CallExtOnly,
}

#[derive(Clone, Copy)]
pub enum EndOp {
    Badmatch,
    CaseEnd,
    TryCaseEnd,
    Try,
    Catch,
    TryEnd,
    TryCase,
    CatchEnd,
    Raise,
}

/// The word of an instruction with a tag, but of tests and built-ins.
#[derive(Clone, Copy)]
pub enum Op {
    Data(DataOp),
    Flow(FlowOp),
    Call(CallOp),
    End(EndOp),
}

fn data_row(alloc: Global, op: DataOp, parts: &mut Parts<'_>) -> Result<Instr, Fault>
    ensures { Took result parts.new (taken (table.data_row op) parts.old) }
{
    match op {
        DataOp::Label => Ok(Instr::Label(parts.number()?)),
        DataOp::Line => Ok(Instr::Line(parts.any(alloc)?)),
        DataOp::Comment => Ok(Instr::Comment(parts.any(alloc)?)),
        DataOp::FuncInfo => Ok(Instr::FuncInfo(
            parts.named(alloc)?,
            parts.named(alloc)?,
            parts.arity()?,
        )),
        DataOp::Move => Ok(Instr::Move(parts.source(alloc)?, parts.dest()?)),
        DataOp::Swap => Ok(Instr::Swap(parts.dest()?, parts.dest()?)),
        DataOp::GetList => Ok(Instr::GetList(parts.source(alloc)?, parts.dest()?, parts.dest()?)),
        DataOp::GetHd => Ok(Instr::GetHd(parts.source(alloc)?, parts.dest()?)),
        DataOp::GetTl => Ok(Instr::GetTl(parts.source(alloc)?, parts.dest()?)),
        DataOp::GetTupleElement => Ok(Instr::GetTupleElement(
            parts.source(alloc)?,
            parts.number()?,
            parts.dest()?,
        )),
        DataOp::PutList => Ok(Instr::PutList(
            parts.source(alloc)?,
            parts.source(alloc)?,
            parts.dest()?,
        )),
        DataOp::PutTuple2 => Ok(Instr::PutTuple2(parts.dest()?, parts.elements(alloc)?)),
    }
}

fn flow_row(alloc: Global, op: FlowOp, parts: &mut Parts<'_>) -> Result<Instr, Fault>
    ensures { Took result parts.new (taken (table.flow_row op) parts.old) }
{
    match op {
        FlowOp::SelectVal => Ok(Instr::SelectVal(
            parts.source(alloc)?,
            parts.label()?,
            parts.cases(alloc)?,
        )),
        FlowOp::SelectTupleArity => Ok(Instr::SelectTupleArity(
            parts.source(alloc)?,
            parts.label()?,
            parts.arity_cases(alloc)?,
        )),
        FlowOp::Jump => Ok(Instr::Jump(parts.label()?)),
        FlowOp::Allocate => Ok(Instr::Allocate(parts.stack()?, parts.stack()?)),
        FlowOp::AllocateZero => Ok(Instr::AllocateZero(parts.stack()?, parts.stack()?)),
        FlowOp::AllocateHeap => Ok(Instr::AllocateHeap(
            parts.stack()?,
            parts.number()?,
            parts.stack()?,
        )),
        FlowOp::AllocateHeapZero => Ok(Instr::AllocateHeapZero(
            parts.stack()?,
            parts.number()?,
            parts.stack()?,
        )),
        FlowOp::TestHeap => Ok(Instr::TestHeap(parts.number()?, parts.stack()?)),
        FlowOp::Init => Ok(Instr::Init(parts.slot()?)),
        FlowOp::Kill => Ok(Instr::Kill(parts.slot()?)),
        FlowOp::Trim => Ok(Instr::Trim(parts.stack()?, parts.stack()?)),
        FlowOp::Deallocate => Ok(Instr::Deallocate(parts.stack()?)),
    }
}

fn call_row(alloc: Global, op: CallOp, parts: &mut Parts<'_>) -> Result<Instr, Fault>
    ensures { Took result parts.new (taken (table.call_row op) parts.old) }
{
    match op {
        CallOp::Call => Ok(Instr::Call(parts.arity()?, parts.label()?)),
        CallOp::CallExt => Ok(Instr::CallExt(parts.arity()?, parts.callee(alloc)?)),
        CallOp::CallLast => Ok(Instr::CallLast(parts.arity()?, parts.label()?, parts.stack()?)),
        CallOp::CallExtLast => Ok(Instr::CallExtLast(
            parts.arity()?,
            parts.callee(alloc)?,
            parts.stack()?,
        )),
        CallOp::CallOnly => Ok(Instr::CallOnly(parts.arity()?, parts.label()?)),
        CallOp::CallExtOnly => Ok(Instr::CallExtOnly(parts.arity()?, parts.callee(alloc)?)),
    }
}

fn end_row(alloc: Global, op: EndOp, parts: &mut Parts<'_>) -> Result<Instr, Fault>
    ensures { Took result parts.new (taken (table.end_row op) parts.old) }
{
    match op {
        EndOp::Badmatch => Ok(Instr::Badmatch(parts.source(alloc)?)),
        EndOp::CaseEnd => Ok(Instr::CaseEnd(parts.source(alloc)?)),
        EndOp::TryCaseEnd => Ok(Instr::TryCaseEnd(parts.source(alloc)?)),
        EndOp::Try => Ok(Instr::Try(parts.slot()?, parts.label()?)),
        EndOp::Catch => Ok(Instr::Catch(parts.slot()?, parts.label()?)),
        EndOp::TryEnd => Ok(Instr::TryEnd(parts.slot()?)),
        EndOp::TryCase => Ok(Instr::TryCase(parts.slot()?)),
        EndOp::CatchEnd => Ok(Instr::CatchEnd(parts.slot()?)),
        EndOp::Raise => {
            parts.no_fail()?;
            let (class, reason) = parts.two_sources(alloc)?;
            Ok(Instr::Raise(class, reason, parts.dest()?))
        }
    }
}

/// The instruction with these parts.
pub fn read_row(alloc: Global, op: Op, parts: &mut Parts<'_>) -> Result<Instr, Fault>
    ensures { Took result parts.new (taken (table.row op) parts.old) }
{
    match op {
        Op::Data(op) => data_row(alloc, op, parts),
        Op::Flow(op) => flow_row(alloc, op, parts),
        Op::Call(op) => call_row(alloc, op, parts),
        Op::End(op) => end_row(alloc, op, parts),
    }
}

/// The words of instructions with a tag, but of tests and built-ins.
const WORDS: [(&str, Op); 39] = [
    ("label", Op::Data(DataOp::Label)),
    ("line", Op::Data(DataOp::Line)),
    ("%", Op::Data(DataOp::Comment)),
    ("func_info", Op::Data(DataOp::FuncInfo)),
    ("move", Op::Data(DataOp::Move)),
    ("swap", Op::Data(DataOp::Swap)),
    ("get_list", Op::Data(DataOp::GetList)),
    ("get_hd", Op::Data(DataOp::GetHd)),
    ("get_tl", Op::Data(DataOp::GetTl)),
    ("get_tuple_element", Op::Data(DataOp::GetTupleElement)),
    ("put_list", Op::Data(DataOp::PutList)),
    ("put_tuple2", Op::Data(DataOp::PutTuple2)),
    ("select_val", Op::Flow(FlowOp::SelectVal)),
    ("select_tuple_arity", Op::Flow(FlowOp::SelectTupleArity)),
    ("jump", Op::Flow(FlowOp::Jump)),
    ("allocate", Op::Flow(FlowOp::Allocate)),
    ("allocate_zero", Op::Flow(FlowOp::AllocateZero)),
    ("allocate_heap", Op::Flow(FlowOp::AllocateHeap)),
    ("allocate_heap_zero", Op::Flow(FlowOp::AllocateHeapZero)),
    ("test_heap", Op::Flow(FlowOp::TestHeap)),
    ("init", Op::Flow(FlowOp::Init)),
    ("kill", Op::Flow(FlowOp::Kill)),
    ("trim", Op::Flow(FlowOp::Trim)),
    ("deallocate", Op::Flow(FlowOp::Deallocate)),
    ("call", Op::Call(CallOp::Call)),
    ("call_ext", Op::Call(CallOp::CallExt)),
    ("call_last", Op::Call(CallOp::CallLast)),
    ("call_ext_last", Op::Call(CallOp::CallExtLast)),
    ("call_only", Op::Call(CallOp::CallOnly)),
    ("call_ext_only", Op::Call(CallOp::CallExtOnly)),
    ("badmatch", Op::End(EndOp::Badmatch)),
    ("case_end", Op::End(EndOp::CaseEnd)),
    ("try_case_end", Op::End(EndOp::TryCaseEnd)),
    ("try", Op::End(EndOp::Try)),
    ("catch", Op::End(EndOp::Catch)),
    ("try_end", Op::End(EndOp::TryEnd)),
    ("try_case", Op::End(EndOp::TryCase)),
    ("catch_end", Op::End(EndOp::CatchEnd)),
    ("raise", Op::End(EndOp::Raise)),
];

/// The first row with a word.
fn among<T: Copy>(words: &[(&str, T)], text: &str) -> Option<T>
    ensures { result ≡ table.first_named text.now words.now }
{
    for row in words {
        if row.0 == text {
            return Some(row.1);
        }
    }
    None
}

/// The instruction with a word.
#[tactic(auto, unfolding(crate::specs::Rows::op_named))]
pub fn op_named(text: &str) -> Option<Op>
    ensures { result ≡ table.op_named text.now }
{
    among(&WORDS, text)
}

/// How much a test looks at: one operand; two; an operand and a number; an operand, a number and
/// an atom; an operand, and an operand or a number.
#[derive(Clone, Copy)]
pub enum View {
    One,
    Two,
    Sized,
    Marked,
    EitherWay,
}

/// The tests.
const TESTS: [(&str, View); 25] = [
    ("is_integer", View::One),
    ("is_number", View::One),
    ("is_atom", View::One),
    ("is_nil", View::One),
    ("is_list", View::One),
    ("is_nonempty_list", View::One),
    ("is_tuple", View::One),
    ("is_boolean", View::One),
    ("is_lt", View::Two),
    ("is_ge", View::Two),
    ("is_eq", View::Two),
    ("is_ne", View::Two),
    ("is_eq_exact", View::Two),
    ("is_ne_exact", View::Two),
    ("test_arity", View::Sized),
    ("is_tagged_tuple", View::Marked),
    ("is_float", View::One),
    ("is_pid", View::One),
    ("is_reference", View::One),
    ("is_port", View::One),
    ("is_binary", View::One),
    ("is_bitstr", View::One),
    ("is_map", View::One),
    ("is_function", View::One),
    ("is_function2", View::EitherWay),
];

/// The test with a name.
#[tactic(auto, unfolding(crate::specs::Rows::test_named))]
pub fn test_named(text: &str) -> Option<View>
    ensures { result ≡ table.test_named text.now }
{
    among(&TESTS, text)
}

const ONE: [Look; 1] = [Look::Source];

const TWO: [Look; 2] = [Look::Source, Look::Source];

const SIZED: [Look; 2] = [Look::Source, Look::Number];

const MARKED: [Look; 3] = [Look::Source, Look::Number, Look::Atom];

const EITHER_WAY: [Look; 2] = [Look::Source, Look::Either];

fn operands(alloc: Global, view: View, parts: &mut Parts<'_>) -> Result<Few<Operand>, Fault>
    ensures { Took result parts.new (saw (table.looks_in view) parts.old) }
{
    match view {
        View::One => parts.looks(alloc, &ONE),
        View::Two => parts.looks(alloc, &TWO),
        View::Sized => parts.looks(alloc, &SIZED),
        View::Marked => parts.looks(alloc, &MARKED),
        View::EitherWay => parts.looks(alloc, &EITHER_WAY),
    }
}

fn tested(alloc: Global, name: &Name, view: View, parts: &mut Parts<'_>) -> Result<Instr, Fault>
    ensures { Took result parts.new (tested name.now (table.looks_in view) parts.old) }
{
    let label = parts.label()?;
    let operands = operands(alloc, view, parts)?;
    Ok(Instr::Test(name.copy(alloc)?, label, operands))
}

/// The test with this name.
pub fn test(alloc: Global, name: &Name, view: View, parts: &mut Parts<'_>) -> Result<Instr, Fault>
    ensures { Took result parts.new (taken (table.test_row name.now (table.looks_in view)) parts.old) }
{
    tested(alloc, name, view, parts)
}

/// The built-in with this name.
pub fn bif(alloc: Global, name: &Name, parts: &mut Parts<'_>) -> Result<Instr, Fault>
    ensures { Took result parts.new (taken (table.bif_row name.now) parts.old) }
{
    let fail = parts.label()?;
    let arguments = parts.arguments(alloc, name.as_str())?;
    let to = parts.dest()?;
    Ok(Instr::Bif(name.copy(alloc)?, fail, arguments, to))
}

/// The built-in with this name, which may ask for memory.
pub fn gc_bif(alloc: Global, name: &Name, parts: &mut Parts<'_>) -> Result<Instr, Fault>
    ensures { Took result parts.new (taken (table.gc_bif_row name.now) parts.old) }
{
    let fail = parts.label()?;
    let live = parts.stack()?;
    let arguments = parts.arguments(alloc, name.as_str())?;
    let to = parts.dest()?;
    Ok(Instr::GcBif(name.copy(alloc)?, fail, live, arguments, to))
}

pub fn bif_raise(alloc: Global, parts: &mut Parts<'_>) -> Result<Instr, Fault>
    ensures { Took result parts.new (taken table.bif_raise_row parts.old) }
{
    parts.no_fail()?;
    let (class, reason) = parts.two_sources(alloc)?;
    Ok(Instr::BifRaise(class, reason, parts.dest()?))
}
