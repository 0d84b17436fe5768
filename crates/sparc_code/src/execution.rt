//! One instruction is done.

ghost use Rattle.std.specs.Prelude.{ℕ, ◌≡◌, ◌<◌, ◌^◌, OnErr};
ghost use Rattle.sparc_code.specs.Code.{decoded, IsInWidth, IsRegister};
ghost use Rattle.sparc_code.specs.Step.{Leaves, LeavesRegisters, word_effect, effect_of, arith_effect, load_effect, store_effect};

use crate::decoding::decode;
use crate::instruction::{ArithOp, Instr};
use crate::machine::{MachineFault, Regs};
use crate::memory::WordMemory;
use crate::registers::{is_aligned, is_jump};

/// Does one instruction: `word` is the word at PC. After a fault registers and memory are as they were.
#[inline]
pub fn step<M: WordMemory>(regs: &mut Regs, word: u32, memory: &mut M) -> Result<(), MachineFault>
    ensures effect { Leaves M.stored (word_effect (M.words memory.old) (M.stores memory.old) regs.old (decoded word)) regs.old regs.new memory.old memory.new result }
    ensures unchanged { OnErr result ((regs.new ≡ regs.old) × (memory.new ≡ memory.old)) }
{
    match decode(word) {
        Some(instr) => execute(regs, instr, memory),
        None => Err(MachineFault::Illegal),
    }
}

#[inline]
fn execute<M: WordMemory>(regs: &mut Regs, instr: Instr, memory: &mut M) -> Result<(), MachineFault>
    requires { IsInWidth instr }
    ensures { Leaves M.stored (effect_of (M.words memory.old) (M.stores memory.old) regs.old instr) regs.old regs.new memory.old memory.new result }
{
    match instr {
        Instr::Call { disp } => {
            regs.call(disp);
            Ok(())
        }
        Instr::Sethi { rd, imm } => {
            regs.give(rd, imm << 10);
            Ok(())
        }
        Instr::Branch { cond, annul, disp } => {
            regs.branch(cond, annul, disp);
            Ok(())
        }
        Instr::Arith { op, rd, rs1, src } => {
            let first = regs.register(rs1);
            let second = regs.operand(src);
            arith(regs, op, rd, first, second)
        }
        Instr::ReadY { rd } => {
            let value = regs.y;
            regs.give(rd, value);
            Ok(())
        }
        Instr::Load { rd, rs1, src } => {
            let addr = regs.address(rs1, src);
            load(regs, rd, addr, memory)
        }
        Instr::Store { rd, rs1, src } => {
            let addr = regs.address(rs1, src);
            store(regs, rd, addr, memory)
        }
    }
}

#[inline]
fn arith(regs: &mut Regs, op: ArithOp, rd: u8, a: u32, b: u32) -> Result<(), MachineFault>
    requires { IsRegister rd }
    ensures { LeavesRegisters (arith_effect regs.old op rd a b) regs.old regs.new result }
{
    let sum = a.wrapping_add(b);
    if is_jump(op) && !is_aligned(sum) {
        return Err(MachineFault::Unaligned(sum));
    }
    regs.operate(op, rd, a, b);
    Ok(())
}

#[inline]
fn load<M: WordMemory>(regs: &mut Regs, rd: u8, addr: u32, memory: &M) -> Result<(), MachineFault>
    requires { IsRegister rd }
    ensures { LeavesRegisters (load_effect (M.words memory.now) regs.old rd addr) regs.old regs.new result }
{
    if !is_aligned(addr) {
        return Err(MachineFault::Unaligned(addr));
    }
    match memory.load(addr) {
        Some(word) => {
            regs.give(rd, word);
            Ok(())
        }
        None => Err(MachineFault::Range(addr)),
    }
}

#[inline]
fn store<M: WordMemory>(
    regs: &mut Regs,
    rd: u8,
    addr: u32,
    memory: &mut M,
) -> Result<(), MachineFault>
    requires { IsRegister rd }
    ensures { Leaves M.stored (store_effect (M.stores memory.old) regs.old rd addr) regs.old regs.new memory.old memory.new result }
{
    if !is_aligned(addr) {
        return Err(MachineFault::Unaligned(addr));
    }
    let value = regs.register(rd);
    if memory.store(addr, value) {
        regs.advance();
        Ok(())
    } else {
        Err(MachineFault::Range(addr))
    }
}
