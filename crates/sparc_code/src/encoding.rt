//! From instructions to words.

ghost use Rattle.std.specs.Prelude.{ℕ, ◌≡◌, ◌<◌, ◌^◌};
ghost use Rattle.sparc_code.specs.Code.{encoded, decoded, source_of, annul_bit, format3_of, IsInWidth, IsSource, IsRegister};
ghost use Rattle.sparc_code.specs.Tables.{op3_of, number_of};

use crate::bits::{join, unsigned_field};
use crate::instruction::{ArithOp, Cond, Instr, Source};

/// The word of an instruction that is in width. It decodes to that instruction.
pub fn encode(i: &Instr) -> u32
    requires { IsInWidth i.now }
    ensures word { result ≡ encoded i.now }
    ensures decodes { decoded result ≡ Some i.now }
{
    word_of(i)
}

fn word_of(i: &Instr) -> u32
    requires { IsInWidth i.now }
    ensures { result ≡ encoded i.now }
{
    match *i {
        Instr::Call { disp } => join(1, 30, unsigned_field(30, disp)),
        Instr::Sethi { rd, imm } => join(join(rd as u32, 3, 4), 22, imm),
        Instr::Branch { cond, annul, disp } => {
            let top = join(annul as u32, 4, cond_number(cond));
            join(join(top, 3, 2), 22, unsigned_field(22, disp))
        }
        Instr::Arith { op, rd, rs1, src } => format3(2, rd, op3_number(op), rs1, source_bits(src)),
        Instr::ReadY { rd } => format3(2, rd, 0x28, 0, 0),
        Instr::Load { rd, rs1, src } => format3(3, rd, 0x00, rs1, source_bits(src)),
        Instr::Store { rd, rs1, src } => format3(3, rd, 0x04, rs1, source_bits(src)),
    }
}

/// A word of two register fields, a number of an operation and the lower 14 bits.
fn format3(top: u32, rd: u8, op3: u32, rs1: u8, source: u32) -> u32
    requires top_fits { top < 2 ^ 2 }
    requires rd_fits { IsRegister rd }
    requires op3_fits { op3 < 2 ^ 6 }
    requires rs1_fits { IsRegister rs1 }
    requires source_fits { source < 2 ^ 14 }
    ensures { result ≡ format3_of top rd op3 rs1 source }
{
    let upper = join(join(top, 5, rd as u32), 6, op3);
    join(join(upper, 5, rs1 as u32), 14, source)
}

fn source_bits(src: Source) -> u32
    requires { IsSource src }
    ensures value { result ≡ source_of src }
    ensures fits { result < 2 ^ 14 }
{
    match src {
        Source::Reg(number) => number as u32,
        Source::Imm(number) => join(1, 13, unsigned_field(13, number as i32)),
    }
}

fn op3_number(op: ArithOp) -> u32
    ensures value { result ≡ op3_of op }
    ensures fits { result < 2 ^ 6 }
{
    match op {
        ArithOp::Add => 0x00,
        ArithOp::And => 0x01,
        ArithOp::Or => 0x02,
        ArithOp::Xor => 0x03,
        ArithOp::Sub => 0x04,
        ArithOp::AndNot => 0x05,
        ArithOp::SignedMultiply => 0x0B,
        ArithOp::AddCc => 0x10,
        ArithOp::AndCc => 0x11,
        ArithOp::OrCc => 0x12,
        ArithOp::XorCc => 0x13,
        ArithOp::SubCc => 0x14,
        ArithOp::ShiftLeft => 0x25,
        ArithOp::ShiftRightLogical => 0x26,
        ArithOp::ShiftRightArithmetic => 0x27,
        ArithOp::JumpAndLink => 0x38,
    }
}

fn cond_number(cond: Cond) -> u32
    ensures value { result ≡ number_of cond }
    ensures fits { result < 2 ^ 4 }
{
    match cond {
        Cond::Never => 0,
        Cond::Equal => 1,
        Cond::LessOrEqual => 2,
        Cond::Less => 3,
        Cond::LessOrEqualUnsigned => 4,
        Cond::CarrySet => 5,
        Cond::Negative => 6,
        Cond::OverflowSet => 7,
        Cond::Always => 8,
        Cond::NotEqual => 9,
        Cond::Greater => 10,
        Cond::GreaterOrEqual => 11,
        Cond::GreaterUnsigned => 12,
        Cond::CarryClear => 13,
        Cond::Positive => 14,
        Cond::OverflowClear => 15,
    }
}
