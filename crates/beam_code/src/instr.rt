use crate::Few;
use term_tree::{Name, Term};

/// A register of the virtual machine: `X` is an argument or a scratch register, `Y` a slot of the
/// function's own stack frame.
#[derive(Clone, Copy, PartialEq, Eq, Debug)]
pub enum Place {
    X(u16),
    Y(u16),
}

/// What an instruction reads: a register or a constant. An `Int` is a small integer (28 bits).
#[derive(Debug)]
pub enum Operand {
    X(u16),
    Y(u16),
    Int(i32),
    Atom(Name),
    Nil,
    Literal(Term),
}

impl Drop for Operand {
    fn drop(self) {
        match self {
            Operand::X(_) | Operand::Y(_) | Operand::Int(_) | Operand::Nil => {}
            Operand::Atom(_) => {}
            Operand::Literal(_) => {}
        }
    }
}

impl Default for Operand {
    fn default() -> Operand {
        Operand::Nil
    }
}

/// A branch of a selection by value, an integer or an atom.
#[derive(Drop, Debug)]
pub struct Case {
    pub value: Operand,
    pub label: u32,
}

impl Default for Case {
    fn default() -> Case {
        Case {
            value: Operand::Nil,
            label: 0,
        }
    }
}

/// A branch of a selection by the size of a tuple.
#[derive(Clone, Copy, Debug)]
pub struct ArityCase {
    pub arity: u32,
    pub label: u32,
}

impl Default for ArityCase {
    fn default() -> ArityCase {
        ArityCase { arity: 0, label: 0 }
    }
}

/// A function by its module, name and arity.
#[derive(Drop, Debug)]
pub struct Callee {
    pub owner: Name,
    pub name: Name,
    pub arity: u32,
}

/// An instruction, its parts in the order of its written form (`docs/BEAM.md`). A label 0 in the
/// place of a fail label means that there is none.
#[derive(Debug)]
pub enum Instr {
    /// `{label,N}`
    Label(u32),
    /// `{line,T}`
    Line(Term),
    /// `{'%',T}`
    Comment(Term),
    /// `{func_info,{atom,M},{atom,F},A}`
    FuncInfo(Name, Name, u32),
    /// `{move,S,D}`
    Move(Operand, Place),
    /// `{swap,D,D}`
    Swap(Place, Place),
    /// `{get_list,S,D,D}`
    GetList(Operand, Place, Place),
    /// `{get_hd,S,D}`
    GetHd(Operand, Place),
    /// `{get_tl,S,D}`
    GetTl(Operand, Place),
    /// `{get_tuple_element,S,N,D}`
    GetTupleElement(Operand, u32, Place),
    /// `{put_list,S,S,D}`
    PutList(Operand, Operand, Place),
    /// `{put_tuple2,D,{list,[S,...]}}`
    PutTuple2(Place, Few<Operand>),
    /// `{test,T,L,[S,...]}`; a number in the list is an `Int`, an atom an `Atom`
    Test(Name, u32, Few<Operand>),
    /// `{select_val,S,L,{list,[V,L,...]}}`
    SelectVal(Operand, u32, Few<Case>),
    /// `{select_tuple_arity,S,L,{list,[N,L,...]}}`
    SelectTupleArity(Operand, u32, Few<ArityCase>),
    /// `{jump,L}`
    Jump(u32),
    /// `{allocate,N,Live}`
    Allocate(u32, u32),
    /// `{allocate_zero,N,Live}`
    AllocateZero(u32, u32),
    /// `{allocate_heap,N,Need,Live}`
    AllocateHeap(u32, u32, u32),
    /// `{allocate_heap_zero,N,Need,Live}`
    AllocateHeapZero(u32, u32, u32),
    /// `{test_heap,Need,Live}`
    TestHeap(u32, u32),
    /// `{init,{y,N}}`
    Init(u16),
    /// `{kill,{y,N}}`
    Kill(u16),
    /// `{trim,N,R}`
    Trim(u32, u32),
    /// `{deallocate,N}`
    Deallocate(u32),
    /// `return`
    Return,
    /// `{call,A,L}`
    Call(u32, u32),
    /// `{call_ext,A,{extfunc,M,F,A}}`
    CallExt(u32, Callee),
    /// `{call_last,A,L,N}`
    CallLast(u32, u32, u32),
    /// `{call_ext_last,A,{extfunc,M,F,A},N}`
    CallExtLast(u32, Callee, u32),
    /// `{call_only,A,L}`
    CallOnly(u32, u32),
    /// `{call_ext_only,A,{extfunc,M,F,A}}`
    CallExtOnly(u32, Callee),
    /// `{bif,B,F,[S,...],D}`
    Bif(Name, u32, Few<Operand>, Place),
    /// `{gc_bif,B,F,Live,[S,...],D}`
    GcBif(Name, u32, u32, Few<Operand>, Place),
    /// `{badmatch,S}`
    Badmatch(Operand),
    /// `{case_end,S}`
    CaseEnd(Operand),
    /// `{try_case_end,S}`
    TryCaseEnd(Operand),
    /// `if_end`
    IfEnd,
    /// `{'try',{y,N},L}`
    Try(u16, u32),
    /// `{'catch',{y,N},L}`
    Catch(u16, u32),
    /// `{try_end,{y,N}}`
    TryEnd(u16),
    /// `{try_case,{y,N}}`
    TryCase(u16),
    /// `{catch_end,{y,N}}`
    CatchEnd(u16),
    /// `{bif,raise,{f,0},[S,S],D}`
    BifRaise(Operand, Operand, Place),
    /// `{raise,{f,0},[S,S],D}`
    Raise(Operand, Operand, Place),
    /// `raw_raise`
    RawRaise,
}

impl Drop for Instr {
    fn drop(self) {
        match self {
            Instr::Label(_) => {}
            Instr::Line(_) => {}
            Instr::Comment(_) => {}
            Instr::FuncInfo(_, _, _) => {}
            Instr::Move(_, _) => {}
            Instr::Swap(_, _) => {}
            Instr::GetList(_, _, _) => {}
            Instr::GetHd(_, _) => {}
            Instr::GetTl(_, _) => {}
            Instr::GetTupleElement(_, _, _) => {}
            Instr::PutList(_, _, _) => {}
            Instr::PutTuple2(_, _) => {}
            Instr::Test(_, _, _) => {}
            Instr::SelectVal(_, _, _) => {}
            Instr::SelectTupleArity(_, _, _) => {}
            Instr::Jump(_) => {}
            Instr::Allocate(_, _) => {}
            Instr::AllocateZero(_, _) => {}
            Instr::AllocateHeap(_, _, _) => {}
            Instr::AllocateHeapZero(_, _, _) => {}
            Instr::TestHeap(_, _) => {}
            Instr::Init(_) => {}
            Instr::Kill(_) => {}
            Instr::Trim(_, _) => {}
            Instr::Deallocate(_) => {}
            Instr::Return => {}
            Instr::Call(_, _) => {}
            Instr::CallExt(_, _) => {}
            Instr::CallLast(_, _, _) => {}
            Instr::CallExtLast(_, _, _) => {}
            Instr::CallOnly(_, _) => {}
            Instr::CallExtOnly(_, _) => {}
            Instr::Bif(_, _, _, _) => {}
            Instr::GcBif(_, _, _, _, _) => {}
            Instr::Badmatch(_) => {}
            Instr::CaseEnd(_) => {}
            Instr::TryCaseEnd(_) => {}
            Instr::IfEnd => {}
            Instr::Try(_, _) => {}
            Instr::Catch(_, _) => {}
            Instr::TryEnd(_) => {}
            Instr::TryCase(_) => {}
            Instr::CatchEnd(_) => {}
            Instr::BifRaise(_, _, _) => {}
            Instr::Raise(_, _, _) => {}
            Instr::RawRaise => {}
        }
    }
}
