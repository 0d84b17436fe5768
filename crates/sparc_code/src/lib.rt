//! The words of a SPARC program: instructions, their encoding, and what each one does.
//!
//! It follows The SPARC Architecture Manual, Version 8, for the instructions that compiled code uses.
#![tactic(auto)]

mod bits;
mod decoding;
mod encoding;
mod execution;
pub mod instruction;
pub mod machine;
pub mod memory;
mod registers;

pub use decoding::decode;
pub use encoding::encode;
pub use execution::step;
pub use instruction::{ArithOp, Cond, Instr, Source};
pub use machine::{MachineFault, Regs};
pub use memory::WordMemory;
