//! One instruction as a value.

/// The second operand of an instruction.
#[derive(Clone, Copy)]
pub enum Source {
    /// A register, 0 to 31.
    Reg(u8),
    /// A number of 13 bits with a sign, -4096 to 4095.
    Imm(i16),
}

/// What an instruction of the arithmetic format does with its two operands. `Cc` in a name says that it sets
/// the condition codes.
#[derive(Clone, Copy)]
pub enum ArithOp {
    /// `add`
    Add,
    /// `and`
    And,
    /// `or`
    Or,
    /// `xor`
    Xor,
    /// `sub`
    Sub,
    /// `andn`: the first operand without the bits of the second.
    AndNot,
    /// `smul`: the low word of the signed product; the high word goes to Y.
    SignedMultiply,
    /// `addcc`
    AddCc,
    /// `andcc`
    AndCc,
    /// `orcc`
    OrCc,
    /// `xorcc`
    XorCc,
    /// `subcc`
    SubCc,
    /// `sll`
    ShiftLeft,
    /// `srl`
    ShiftRightLogical,
    /// `sra`
    ShiftRightArithmetic,
    /// `jmpl`: a jump to the sum of the operands, with a link in the destination.
    JumpAndLink,
}

/// When a branch is taken, in the manual's order: each of the last eight is the contrary of the one eight before it.
#[derive(Clone, Copy)]
pub enum Cond {
    /// `bn`
    Never,
    /// `be`
    Equal,
    /// `ble`
    LessOrEqual,
    /// `bl`
    Less,
    /// `bleu`
    LessOrEqualUnsigned,
    /// `bcs`
    CarrySet,
    /// `bneg`
    Negative,
    /// `bvs`
    OverflowSet,
    /// `ba`
    Always,
    /// `bne`
    NotEqual,
    /// `bg`
    Greater,
    /// `bge`
    GreaterOrEqual,
    /// `bgu`
    GreaterUnsigned,
    /// `bcc`
    CarryClear,
    /// `bpos`
    Positive,
    /// `bvc`
    OverflowClear,
}

/// One instruction. Registers are numbers from 0 to 31: `%g0` to `%g7`, `%o0` to `%o7`, `%l0` to `%l7`, `%i0` to `%i7`.
/// An instruction is in width where each part fits its bits in a word.
#[derive(Clone, Copy)]
pub enum Instr {
    /// `call`, with its distance in words, of 30 bits with a sign.
    Call {
        disp: i32,
    },
    /// `sethi`: the upper 22 bits of a register.
    Sethi {
        rd: u8,
        imm: u32,
    },
    /// A branch, with its distance in words, of 22 bits with a sign. `annul` is its annul bit.
    Branch {
        cond: Cond,
        annul: bool,
        disp: i32,
    },
    /// An operation on `rs1` and `src`, whose result goes to `rd`.
    Arith {
        op: ArithOp,
        rd: u8,
        rs1: u8,
        src: Source,
    },
    /// `rd %y`
    ReadY {
        rd: u8,
    },
    /// `ld`: `rd` takes the word at the sum of `rs1` and `src`.
    Load {
        rd: u8,
        rs1: u8,
        src: Source,
    },
    /// `st`: the word at the sum of `rs1` and `src` takes `rd`.
    Store {
        rd: u8,
        rs1: u8,
        src: Source,
    },
}
