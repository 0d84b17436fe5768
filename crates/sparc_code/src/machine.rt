//! The state that an instruction changes.

use thiserror::Error;

/// The registers that a program sees.
#[derive(Clone, Copy, PartialEq, Eq)]
pub struct Regs {
    /// `%g0` to `%g7`, `%o0` to `%o7`, `%l0` to `%l7`, `%i0` to `%i7`. `%g0` reads 0 whatever stands here.
    pub r: [u32; 32],
    /// The Y register: the high word of the last product.
    pub y: u32,
    /// The last result with condition codes was negative.
    pub n: bool,
    /// It was zero.
    pub z: bool,
    /// It overflowed as a signed number.
    pub v: bool,
    /// It carried or borrowed.
    pub c: bool,
    /// The address, in bytes, of the instruction that is done now.
    pub pc: u32,
    /// The address, in bytes, of the one after it.
    pub npc: u32,
}

/// Why an instruction was not done.
#[derive(Clone, Copy, PartialEq, Eq, Debug, Error)]
pub enum MachineFault {
    /// The word is no instruction.
    #[error("the word is no instruction")]
    Illegal,
    /// An address, in bytes, that is no multiple of 4.
    #[error("the address is no multiple of 4")]
    Unaligned(u32),
    /// An address, in bytes, at which the memory has no word.
    #[error("the memory has no word there")]
    Range(u32),
}
