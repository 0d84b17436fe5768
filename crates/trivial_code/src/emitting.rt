// The code words of trivial functions.

ghost use Rattle.image_format.specs.declared.limits.TheConstants.{MOST_FRAME};
ghost use Rattle.sparc_code.specs.Code.{encoded, IsInWidth};
ghost use Rattle.std.specs.Prelude.{◌≡◌, ◌≤◌, ◌<◌, ◌^◌, ◌++◌, ◌∷◌, [], map, false, OnOk, IfOk};
ghost use Rattle.trivial_code.specs.Words.{FitsWord, entry_instrs, return_instrs, end_instrs, trivial_words};

use mode_switch::GATE_START;
use sparc_code::{ArithOp, Cond, Instr, Source, encode};
use std::alloc::{AllocError, Global};

/// What the native code of a trivial function returns: what came in %o0, in another of the first
/// five argument registers, or in the x area; or a word.
#[derive(Clone, Copy)]
pub enum Given {
    Came,
    Register(u8),
    Area(u8),
    Word(u32),
}

/// How many code words a trivial function has.
pub const FUNCTION_WORDS: u32 = 15;

/// The upper 22 bits of the addresses of the gates.
const GATE_PAGE: u32 = GATE_START / 1024;

fn put(code: &mut Vec<u32>, instr: Instr) -> Result<(), AllocError>
    requires { IsInWidth instr }
    ensures { OnOk result (code.new.items ≡ code.old.items ++ encoded instr ∷ []) }
{
    code.push(encode(&instr))?;
    Ok(())
}

fn put_branch(code: &mut Vec<u32>, cond: Cond, disp: i32) -> Result<(), AllocError>
    requires { IsInWidth (Instr.Branch cond false disp) }
    ensures { OnOk result (code.new.items ≡ code.old.items ++ encoded (Instr.Branch cond false disp) ∷ []) }
{
    let annul = false;
    put(code, Instr::Branch { cond, annul, disp })
}

fn put_sethi(code: &mut Vec<u32>, rd: u8, imm: u32) -> Result<(), AllocError>
    requires { IsInWidth (Instr.Sethi rd imm) }
    ensures { OnOk result (code.new.items ≡ code.old.items ++ encoded (Instr.Sethi rd imm) ∷ []) }
{
    put(code, Instr::Sethi { rd, imm })
}

fn put_arith(
    code: &mut Vec<u32>,
    op: ArithOp,
    rd: u8,
    rs1: u8,
    src: Source,
) -> Result<(), AllocError>
    requires { IsInWidth (Instr.Arith op rd rs1 src) }
    ensures { OnOk result (code.new.items ≡ code.old.items ++ encoded (Instr.Arith op rd rs1 src) ∷ []) }
{
    put(code, Instr::Arith { op, rd, rs1, src })
}

/// The entry: it takes a reduction, and looks whether the frame has room on the stack.
fn put_entry(code: &mut Vec<u32>, cost: u32) -> Result<(), AllocError>
    requires { cost ≤ MOST_FRAME }
    ensures { OnOk result (code.new.items ≡ code.old.items ++ map encoded (entry_instrs cost)) }
{
    let bytes = 4 * cost as i16;
    put_arith(code, ArithOp::SubCc, 0, 6, Source::Imm(0))?;
    put_branch(code, Cond::Equal, 10)?;
    put_sethi(code, 1, GATE_PAGE)?;
    put_arith(code, ArithOp::Sub, 6, 6, Source::Imm(1))?;
    put_arith(code, ArithOp::Sub, 23, 14, Source::Imm(bytes))?;
    put_arith(code, ArithOp::SubCc, 0, 23, Source::Reg(5))?;
    put_branch(code, Cond::CarrySet, 7)?;
    put_sethi(code, 0, 0)
}

/// The return of what came in %o0.
fn put_same(code: &mut Vec<u32>) -> Result<(), AllocError>
    ensures { OnOk result (code.new.items ≡ code.old.items ++ map encoded (return_instrs Given.Came)) }
{
    put_sethi(code, 0, 0)?;
    put_arith(code, ArithOp::JumpAndLink, 0, 15, Source::Imm(8))?;
    put_sethi(code, 0, 0)
}

/// The return of what came in another of the first five argument registers.
fn put_register(code: &mut Vec<u32>, number: u8) -> Result<(), AllocError>
    requires { FitsWord (Given.Register number) }
    ensures { OnOk result (code.new.items ≡ code.old.items ++ map encoded (return_instrs (Given.Register number))) }
{
    put_sethi(code, 0, 0)?;
    put_arith(code, ArithOp::JumpAndLink, 0, 15, Source::Imm(8))?;
    put_arith(code, ArithOp::Or, 8, 0, Source::Reg(8 + number))
}

/// The return of what came in the x area.
fn put_area(code: &mut Vec<u32>, number: u8) -> Result<(), AllocError>
    requires { FitsWord (Given.Area number) }
    ensures { OnOk result (code.new.items ≡ code.old.items ++ map encoded (return_instrs (Given.Area number))) }
{
    let src = Source::Imm(4 * number as i16);
    put_sethi(code, 0, 0)?;
    put_arith(code, ArithOp::JumpAndLink, 0, 15, Source::Imm(8))?;
    put(code, Instr::Load { rd: 8, rs1: 7, src })
}

/// The return of a word.
fn put_word(code: &mut Vec<u32>, word: u32) -> Result<(), AllocError>
    ensures { OnOk result (code.new.items ≡ code.old.items ++ map encoded (return_instrs (Given.Word word))) }
{
    let upper = word / 1024;
    let lower = (word % 1024) as i16;
    put_sethi(code, 8, upper)?;
    put_arith(code, ArithOp::JumpAndLink, 0, 15, Source::Imm(8))?;
    put_arith(code, ArithOp::Or, 8, 8, Source::Imm(lower))
}

fn put_return(code: &mut Vec<u32>, given: Given) -> Result<(), AllocError>
    requires { FitsWord given }
    ensures { OnOk result (code.new.items ≡ code.old.items ++ map encoded (return_instrs given)) }
{
    match given {
        Given::Came => put_same(code),
        Given::Register(number) => put_register(code, number),
        Given::Area(number) => put_area(code, number),
        Given::Word(word) => put_word(code, word),
    }
}

/// The two ends of an entry.
fn put_ends(code: &mut Vec<u32>) -> Result<(), AllocError>
    ensures { OnOk result (code.new.items ≡ code.old.items ++ map encoded end_instrs) }
{
    put_arith(code, ArithOp::JumpAndLink, 0, 1, Source::Imm(4))?;
    put_sethi(code, 0, 0)?;
    put_arith(code, ArithOp::JumpAndLink, 0, 1, Source::Imm(8))?;
    put_sethi(code, 0, 0)
}

/// The native code of a function that returns this, and whose frame has `cost` words.
pub fn put_function(code: &mut Vec<u32>, given: Given, cost: u32) -> Result<(), AllocError>
    requires fits { FitsWord given }
    requires frame { cost ≤ MOST_FRAME }
    ensures { OnOk result (code.new.items ≡ code.old.items ++ trivial_words given cost) }
{
    put_entry(code, cost)?;
    put_return(code, given)?;
    put_ends(code)
}
