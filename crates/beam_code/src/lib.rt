//! Modules of BEAM assembly, their instructions, and what they mean.
#![tactic(auto)]

mod call;
mod costs;
mod few;
mod functions;
mod gates;
mod instr;
mod item;
mod module;
mod uses;

pub use call::{Limits, RaiseClass};
pub use costs::cost;
pub use few::Few;
pub use functions::Functions;
pub use gates::{
    BUILT_INS, FIRST_RAISER, GATE_BAD_OPERAND, GATE_BADARG, GATE_BADARITH, GATE_BADMATCH,
    GATE_BIGNUM, GATE_BUILT_INS, GATE_CASE_CLAUSE, GATE_FUNCTION_CLAUSE, GATE_GUARDS,
    GATE_HEAP_FULL, GATE_IF_CLAUSE, GATE_NOT_PROVIDED, GATE_OUT_OF_REDUCTIONS, GATE_RAISE,
    GATE_RAW_RAISE, GATE_STACK_FULL, GATE_STOP, GATE_TRY_CLAUSE, GATE_UNDEF, LAST_RAISER,
};
pub use instr::{ArityCase, Callee, Case, Instr, Operand, Place};
pub use item::{Body, Item};
pub use module::{Function, HandlerKind, MOST_TEXT_BYTES, Module};
pub use uses::{goes_on, reads, units, writes};
