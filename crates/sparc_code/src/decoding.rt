//! From words to instructions.

ghost use Rattle.std.specs.Prelude.{ℕ, ◌≡◌, ◌<◌, ◌^◌, IfSome};
ghost use Rattle.sparc_code.specs.Code.{encoded, decoded, format2_at, arith_at, memory_at, source_at, IsInWidth};
ghost use Rattle.sparc_code.specs.Tables.{op_at, cond_at};
ghost use Rattle.sparc_code.specs.declared.instruction.Instr.{Instr};

use crate::bits::{field, signed_field};
use crate::instruction::{ArithOp, Cond, Instr, Source};

/// The instruction of a word: the one that encodes to it, and `None` exactly where no instruction in width does.
#[inline]
pub fn decode(word: u32) -> Option<Instr>
    ensures meaning { result ≡ decoded word }
    ensures spelled { IfSome result (λ i. IsInWidth i × (encoded i ≡ word)) }
    ensures every { (i : Instr) → IsInWidth i → encoded i ≡ word → result ≡ Some i }
{
    by_format(word)
}

#[inline]
fn by_format(word: u32) -> Option<Instr>
    ensures { result ≡ decoded word }
{
    match word >> 30 {
        0 => format2(word),
        1 => Some(Instr::Call {
            disp: signed_field(30, field(word, 0, 30)),
        }),
        2 => arith(word),
        _ => memory(word),
    }
}

#[inline]
fn format2(word: u32) -> Option<Instr>
    ensures { result ≡ format2_at word }
{
    match field(word, 22, 3) {
        4 => Some(Instr::Sethi {
            rd: field(word, 25, 5) as u8,
            imm: field(word, 0, 22),
        }),
        2 => Some(Instr::Branch {
            cond: condition(field(word, 25, 4))?,
            annul: field(word, 29, 1) == 1,
            disp: signed_field(22, field(word, 0, 22)),
        }),
        _ => None,
    }
}

#[inline]
fn arith(word: u32) -> Option<Instr>
    ensures { result ≡ arith_at word }
{
    let op3 = field(word, 19, 6);
    let rd = field(word, 25, 5) as u8;
    if op3 == 0x28 {
        return if field(word, 0, 19) == 0 {
            Some(Instr::ReadY { rd })
        } else {
            None
        };
    }
    let op = operation(op3)?;
    let src = source(word)?;
    Some(Instr::Arith {
        op,
        rd,
        rs1: field(word, 14, 5) as u8,
        src,
    })
}

#[inline]
fn memory(word: u32) -> Option<Instr>
    ensures { result ≡ memory_at word }
{
    let rd = field(word, 25, 5) as u8;
    let rs1 = field(word, 14, 5) as u8;
    match field(word, 19, 6) {
        0x00 => Some(Instr::Load {
            rd,
            rs1,
            src: source(word)?,
        }),
        0x04 => Some(Instr::Store {
            rd,
            rs1,
            src: source(word)?,
        }),
        _ => None,
    }
}

#[inline]
fn source(word: u32) -> Option<Source>
    ensures { result ≡ source_at word }
{
    if field(word, 13, 1) == 1 {
        Some(Source::Imm(signed_field(13, field(word, 0, 13)) as i16))
    } else if field(word, 5, 8) == 0 {
        Some(Source::Reg(field(word, 0, 5) as u8))
    } else {
        None
    }
}

#[inline]
fn operation(op3: u32) -> Option<ArithOp>
    ensures { result ≡ op_at op3 }
{
    match op3 {
        0x00 => Some(ArithOp::Add),
        0x01 => Some(ArithOp::And),
        0x02 => Some(ArithOp::Or),
        0x03 => Some(ArithOp::Xor),
        0x04 => Some(ArithOp::Sub),
        0x05 => Some(ArithOp::AndNot),
        0x0B => Some(ArithOp::SignedMultiply),
        0x10 => Some(ArithOp::AddCc),
        0x11 => Some(ArithOp::AndCc),
        0x12 => Some(ArithOp::OrCc),
        0x13 => Some(ArithOp::XorCc),
        0x14 => Some(ArithOp::SubCc),
        0x25 => Some(ArithOp::ShiftLeft),
        0x26 => Some(ArithOp::ShiftRightLogical),
        0x27 => Some(ArithOp::ShiftRightArithmetic),
        0x38 => Some(ArithOp::JumpAndLink),
        _ => None,
    }
}

#[inline]
fn condition(number: u32) -> Option<Cond>
    ensures { result ≡ cond_at number }
{
    match number {
        0 => Some(Cond::Never),
        1 => Some(Cond::Equal),
        2 => Some(Cond::LessOrEqual),
        3 => Some(Cond::Less),
        4 => Some(Cond::LessOrEqualUnsigned),
        5 => Some(Cond::CarrySet),
        6 => Some(Cond::Negative),
        7 => Some(Cond::OverflowSet),
        8 => Some(Cond::Always),
        9 => Some(Cond::NotEqual),
        10 => Some(Cond::Greater),
        11 => Some(Cond::GreaterOrEqual),
        12 => Some(Cond::GreaterUnsigned),
        13 => Some(Cond::CarryClear),
        14 => Some(Cond::Positive),
        15 => Some(Cond::OverflowClear),
        _ => None,
    }
}
