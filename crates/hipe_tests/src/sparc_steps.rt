//! Instructions of `sparc_code`: words, and what steps do, worked by hand.
//!
//! Each word is put together from its fields, as the tables of appendix F of The SPARC Architecture Manual, Version 8,
//! number them, and each step is worked from the text of appendix B.

ghost use Rattle.std.specs.Prelude.{ℕ, ◌≡◌, ◌<◌, ◌&&◌, Bool, Option, Some, None, IsTrue, nat_eq, if◌then◌else◌};
ghost use Rattle.std.proofs.Common.{rules, arith};

use sparc_code::{ArithOp, Cond, Instr, MachineFault, Regs, Source, WordMemory, decode, step};
use std::alloc::{AllocError, Global};
use std::process::Abort;
use std::test::Fail;

const PC: u32 = 0x2000;

const NPC: u32 = 0x2004;

const T: bool = true;

const F: bool = false;

/// A memory of one word.
#[derive(Clone, Copy, PartialEq, Eq)]
struct Cell {
    at: u32,
    word: u32,
    is_writable: bool,
}

impl WordMemory for Cell {
    ghost words = { λ m a. if nat_eq a m.at then Some m.word else None };

    ghost stores = { λ m a. m.is_writable && nat_eq a m.at };

    ghost stored = { λ m a w. record m { word = w } };

    fn load(&self, addr: u32) -> Option<u32> {
        if addr == self.at {
            Some(self.word)
        } else {
            None
        }
    }

    fn store(&mut self, addr: u32, w: u32) -> bool {
        if self.is_writable && addr == self.at {
            self.word = w;
            true
        } else {
            false
        }
    }

    ghost holds_what_it_stores = { Prim.search rules };

    ghost changes_one_word = { Prim.grind arith };

    ghost keeps_places = { Prim.search rules };
}

const NO_MEMORY: Cell = Cell {
    at: 0,
    word: 0,
    is_writable: false,
};

/// What a step leaves, and its fault.
#[derive(Clone, Copy, PartialEq, Eq)]
struct Left {
    regs: Regs,
    memory: Cell,
    fault: Option<MachineFault>,
}

fn after(word: u32, mut regs: Regs, mut memory: Cell) -> Left {
    let fault = step(&mut regs, word, &mut memory).err();
    Left {
        regs,
        memory,
        fault,
    }
}

/// Registers with two operands in %g1 and %g2, and condition codes that are all set or all clear.
fn ready(a: u32, b: u32, codes: bool) -> Regs {
    let mut r = [0x1111_1111; 32];
    r[1] = a;
    r[2] = b;
    Regs {
        r,
        y: 0x5555_5555,
        n: codes,
        z: codes,
        v: codes,
        c: codes,
        pc: PC,
        npc: NPC,
    }
}

/// Registers after an instruction that gave %g3 a value.
fn given(mut regs: Regs, value: u32) -> Regs {
    regs.r[3] = value;
    regs.pc = NPC;
    regs.npc = NPC + 4;
    regs
}

/// The annul bit of a branch, bit 29.
const ANNUL: u32 = 0x2000_0000;

/// Words and their instructions in the manual's notation; a branch and a call have their distance in words.
///
/// `op %r1,%r2,%r3` has op 2, rd 3, rs1 1 and rs2 2, 0x86004002, and its op3 19 bits up. A branch of five words has op 0,
/// op2 2 and disp22 5, 0x00800005, and its cond 25 bits up.
const WORDS: [(u32, &str); 46] = [
    (0x0100_0000, "sethi 0,%r0"),
    (0x093F_FFFF, "sethi 4194303,%r4"),
    (0x9010_2001, "or %r0,1,%r8"),
    (0x9002_0009, "add %r8,%r9,%r8"),
    (0x81C3_E008, "jmpl %r15,8,%r0"),
    (0x1080_0000, "ba 0"),
    (0x32BF_FFFF, "bne,a -1"),
    (0x4000_0003, "call 3"),
    (0x7FFF_FFFE, "call -2"),
    (0x8740_0000, "rd %y,%r3"),
    (0xC600_4002, "ld %r1,%r2,%r3"),
    (0xC603_BFFC, "ld %r14,-4,%r3"),
    (0xC620_4002, "st %r1,%r2,%r3"),
    (0xC623_8002, "st %r14,%r2,%r3"),
    (0x8600_4002, "add %r1,%r2,%r3"),
    (0x8608_4002, "and %r1,%r2,%r3"),
    (0x8610_4002, "or %r1,%r2,%r3"),
    (0x8618_4002, "xor %r1,%r2,%r3"),
    (0x8620_4002, "sub %r1,%r2,%r3"),
    (0x8628_4002, "andn %r1,%r2,%r3"),
    (0x8658_4002, "smul %r1,%r2,%r3"),
    (0x8680_4002, "addcc %r1,%r2,%r3"),
    (0x8688_4002, "andcc %r1,%r2,%r3"),
    (0x8690_4002, "orcc %r1,%r2,%r3"),
    (0x8698_4002, "xorcc %r1,%r2,%r3"),
    (0x86A0_4002, "subcc %r1,%r2,%r3"),
    (0x8728_4002, "sll %r1,%r2,%r3"),
    (0x8730_4002, "srl %r1,%r2,%r3"),
    (0x8738_4002, "sra %r1,%r2,%r3"),
    (0x87C0_4002, "jmpl %r1,%r2,%r3"),
    (0x0080_0005, "bn 5"),
    (0x0280_0005, "be 5"),
    (0x0480_0005, "ble 5"),
    (0x0680_0005, "bl 5"),
    (0x0880_0005, "bleu 5"),
    (0x0A80_0005, "bcs 5"),
    (0x0C80_0005, "bneg 5"),
    (0x0E80_0005, "bvs 5"),
    (0x1080_0005, "ba 5"),
    (0x1280_0005, "bne 5"),
    (0x1480_0005, "bg 5"),
    (0x1680_0005, "bge 5"),
    (0x1880_0005, "bgu 5"),
    (0x1A80_0005, "bcc 5"),
    (0x1C80_0005, "bpos 5"),
    (0x1E80_0005, "bvc 5"),
];

fn operation_name(op: ArithOp) -> &'static str {
    match op {
        ArithOp::Add => "add",
        ArithOp::And => "and",
        ArithOp::Or => "or",
        ArithOp::Xor => "xor",
        ArithOp::Sub => "sub",
        ArithOp::AndNot => "andn",
        ArithOp::SignedMultiply => "smul",
        ArithOp::AddCc => "addcc",
        ArithOp::AndCc => "andcc",
        ArithOp::OrCc => "orcc",
        ArithOp::XorCc => "xorcc",
        ArithOp::SubCc => "subcc",
        ArithOp::ShiftLeft => "sll",
        ArithOp::ShiftRightLogical => "srl",
        ArithOp::ShiftRightArithmetic => "sra",
        ArithOp::JumpAndLink => "jmpl",
    }
}

fn branch_name(cond: Cond) -> &'static str {
    match cond {
        Cond::Never => "bn",
        Cond::Equal => "be",
        Cond::LessOrEqual => "ble",
        Cond::Less => "bl",
        Cond::LessOrEqualUnsigned => "bleu",
        Cond::CarrySet => "bcs",
        Cond::Negative => "bneg",
        Cond::OverflowSet => "bvs",
        Cond::Always => "ba",
        Cond::NotEqual => "bne",
        Cond::Greater => "bg",
        Cond::GreaterOrEqual => "bge",
        Cond::GreaterUnsigned => "bgu",
        Cond::CarryClear => "bcc",
        Cond::Positive => "bpos",
        Cond::OverflowClear => "bvc",
    }
}

/// An instruction of two operands and a register.
fn shown_operands(
    alloc: Global,
    name: &str,
    rs1: u8,
    src: Source,
    rd: u8,
) -> Result<String, AllocError> {
    match src {
        Source::Reg(number) => format!(in alloc; "{name} %r{rs1},%r{number},%r{rd}"),
        Source::Imm(number) => format!(in alloc; "{name} %r{rs1},{number},%r{rd}"),
    }
}

/// The instruction of a word; an empty text where it is none.
fn shown(alloc: Global, word: u32) -> Result<String, AllocError> {
    match decode(word) {
        None => Ok(String::new(alloc)),
        Some(Instr::Call { disp }) => format!(in alloc; "call {disp}"),
        Some(Instr::Sethi { rd, imm }) => format!(in alloc; "sethi {imm},%r{rd}"),
        Some(Instr::Branch { cond, annul, disp }) => {
            let comma = if annul { ",a" } else { "" };
            format!(in alloc; "{}{comma} {disp}", branch_name(cond))
        }
        Some(Instr::Arith { op, rd, rs1, src }) => {
            shown_operands(alloc, operation_name(op), rs1, src, rd)
        }
        Some(Instr::ReadY { rd }) => format!(in alloc; "rd %y,%r{rd}"),
        Some(Instr::Load { rd, rs1, src }) => shown_operands(alloc, "ld", rs1, src, rd),
        Some(Instr::Store { rd, rs1, src }) => shown_operands(alloc, "st", rs1, src, rd),
    }
}

#[test]
fn words_and_instructions(rt: HostRuntime) -> Result<(), Fail> {
    for row in WORDS.iter() {
        let (word, wanted) = *row;
        let found = shown(rt.alloc(), word)?;
        assert_eq!(rt; found.as_str(), wanted, "{word:x}");
    }
    Ok(())
}

/// Words that no instruction encodes to: among them a register of rd %asr, bits beside rs2, and the op3 of another load.
const NO_WORDS: [u32; 6] = [
    0,
    0x8600_4022,
    0x8740_0001,
    0x86C0_4002,
    0xC708_4002,
    0xFFFF_FFFF,
];

/// Whether a word is no instruction, and a step at it changes nothing.
fn is_illegal(word: u32, before: Regs) -> bool {
    let wanted = Left {
        regs: before,
        memory: NO_MEMORY,
        fault: Some(MachineFault::Illegal),
    };
    decode(word).is_none() && after(word, before, NO_MEMORY) == wanted
}

#[test]
fn words_of_no_instruction(rt: HostRuntime) {
    for word in NO_WORDS.iter() {
        check(&rt, is_illegal(*word, ready(1, 2, T)), *word);
    }
}

/// Fails with the word where something does not hold.
fn check(rt: &impl Abort, holds: bool, word: u32) {
    assert!(rt; holds, "{word:x}");
}

/// What `%g1 op %g2` leaves, where it gave %g3 a value and changed nothing else.
fn gives(word: u32, a: u32, b: u32, value: u32, codes: bool) -> bool {
    let before = ready(a, b, codes);
    let left = after(word, before, NO_MEMORY);
    left.fault.is_none() && left.regs == given(before, value)
}

/// The same where Y changed too.
fn gives_with_y(a: u32, b: u32, value: u32, y: u32, codes: bool) -> bool {
    let before = ready(a, b, codes);
    let left = after(0x8658_4002, before, NO_MEMORY);
    let mut wanted = given(before, value);
    wanted.y = y;
    left.fault.is_none() && left.regs == wanted
}

/// The condition codes N, Z, V and C become these four bits.
fn put_codes(regs: &mut Regs, nzvc: u32) {
    regs.n = nzvc & 8 != 0;
    regs.z = nzvc & 4 != 0;
    regs.v = nzvc & 2 != 0;
    regs.c = nzvc & 1 != 0;
}

/// The same where the condition codes changed too.
fn gives_with_codes(word: u32, a: u32, b: u32, value: u32, nzvc: u32, codes: bool) -> bool {
    let before = ready(a, b, codes);
    let left = after(word, before, NO_MEMORY);
    let mut wanted = given(before, value);
    put_codes(&mut wanted, nzvc);
    left.fault.is_none() && left.regs == wanted
}

/// An operation, its operands and its result.
const OPERATIONS: [(u32, u32, u32, u32); 22] = [
    (0x8600_4002, 1, 2, 3), // add
    (0x8600_4002, 0xFFFF_FFFF, 1, 0),
    (0x8600_4002, 0x7FFF_FFFF, 1, 0x8000_0000),
    (0x8600_4002, 0x8000_0000, 0x8000_0000, 0),
    (0x8608_4002, 0xFF00_FF00, 0x0FF0_0FF0, 0x0F00_0F00), // and
    (0x8610_4002, 0xFF00_FF00, 0x0FF0_0FF0, 0xFFF0_FFF0), // or
    (0x8618_4002, 0xFF00_FF00, 0x0FF0_0FF0, 0xF0F0_F0F0), // xor
    (0x8628_4002, 0xFF00_FF00, 0x0FF0_0FF0, 0xF000_F000), // andn
    (0x8620_4002, 5, 3, 2), // sub
    (0x8620_4002, 0, 1, 0xFFFF_FFFF),
    (0x8620_4002, 0x8000_0000, 1, 0x7FFF_FFFF),
    (0x8728_4002, 1, 31, 0x8000_0000), // sll
    (0x8728_4002, 1, 32, 1),
    (0x8728_4002, 0x8000_0001, 4, 0x10),
    (0x8728_4002, 5, 0, 5),
    (0x8730_4002, 0x8000_0000, 31, 1), // srl
    (0x8730_4002, 0xFFFF_FFFF, 4, 0x0FFF_FFFF),
    (0x8730_4002, 0x8000_0000, 33, 0x4000_0000),
    (0x8738_4002, 0x8000_0000, 31, 0xFFFF_FFFF), // sra
    (0x8738_4002, 0x8000_000F, 4, 0xF800_0000),
    (0x8738_4002, 0x7FFF_FFFF, 4, 0x07FF_FFFF),
    (0x8738_4002, 0x8000_0000, 32, 0x8000_0000),
];

#[test]
fn operations(rt: HostRuntime) {
    for row in OPERATIONS.iter() {
        let (word, a, b, value) = *row;
        check(&rt, gives(word, a, b, value, F), word);
        check(&rt, gives(word, a, b, value, T), word);
    }
}

/// The operands of `smul`, the low word of the product and its high word.
const PRODUCTS: [(u32, u32, u32, u32); 7] = [
    (0xFFFF_FFFF, 0xFFFF_FFFF, 1, 0),
    (0x8000_0000, 0x8000_0000, 0, 0x4000_0000),
    (0xFFFF_FFFF, 2, 0xFFFF_FFFE, 0xFFFF_FFFF),
    (0x7FFF_FFFF, 0x7FFF_FFFF, 1, 0x3FFF_FFFF),
    (0x10000, 0x10000, 0, 1),
    (0x8000_0000, 1, 0x8000_0000, 0xFFFF_FFFF),
    (0, 0x7FFF_FFFF, 0, 0),
];

#[test]
fn products(rt: HostRuntime) {
    for row in PRODUCTS.iter() {
        let (a, b, value, y) = *row;
        check(&rt, gives_with_y(a, b, value, y, F), a);
        check(&rt, gives_with_y(a, b, value, y, T), a);
    }
}

/// An operation, its operands, its result and N, Z, V and C.
const CODES: [(u32, u32, u32, u32, u32); 26] = [
    (0x8680_4002, 0, 0, 0, 0b0100), // addcc
    (0x8680_4002, 1, 1, 2, 0b0000),
    (0x8680_4002, 1, 0xFFFF_FFFF, 0, 0b0101),
    (0x8680_4002, 0x7FFF_FFFF, 1, 0x8000_0000, 0b1010),
    (0x8680_4002, 0x8000_0000, 0x8000_0000, 0, 0b0111),
    (0x8680_4002, 0x8000_0000, 0xFFFF_FFFF, 0x7FFF_FFFF, 0b0011),
    (0x8680_4002, 0xFFFF_FFFF, 0xFFFF_FFFF, 0xFFFF_FFFE, 0b1001),
    (0x8680_4002, 0x7FFF_FFFF, 0x10, 0x8000_000F, 0b1010),
    (0x8680_4002, 0x8000_000F, 0xFFFF_FFF0, 0x7FFF_FFFF, 0b0011),
    (0x86A0_4002, 0, 0, 0, 0b0100), // subcc
    (0x86A0_4002, 1, 0, 1, 0b0000),
    (0x86A0_4002, 0, 1, 0xFFFF_FFFF, 0b1001),
    (0x86A0_4002, 0x8000_0000, 1, 0x7FFF_FFFF, 0b0010),
    (0x86A0_4002, 0x7FFF_FFFF, 0xFFFF_FFFF, 0x8000_0000, 0b1011),
    (0x86A0_4002, 0xFFFF_FFFF, 0x7FFF_FFFF, 0x8000_0000, 0b1000),
    (0x86A0_4002, 0x8000_000F, 0x10, 0x7FFF_FFFF, 0b0010),
    (0x86A0_4002, 0x7FFF_FFFF, 0x8000_000F, 0xFFFF_FFF0, 0b1011),
    (0x8688_4002, 0xFF, 0xF0, 0xF0, 0b0000), // andcc
    (0x8688_4002, 0x8000_0000, 0xFFFF_FFFF, 0x8000_0000, 0b1000),
    (0x8688_4002, 1, 2, 0, 0b0100),
    (0x8690_4002, 1, 2, 3, 0b0000), // orcc
    (0x8690_4002, 0x8000_0000, 1, 0x8000_0001, 0b1000),
    (0x8690_4002, 0, 0, 0, 0b0100),
    (0x8698_4002, 5, 1, 4, 0b0000), // xorcc
    (0x8698_4002, 0x8000_0000, 0, 0x8000_0000, 0b1000),
    (0x8698_4002, 0x7FFF_FFFF, 0x7FFF_FFFF, 0, 0b0100),
];

#[test]
fn condition_codes(rt: HostRuntime) {
    for row in CODES.iter() {
        let (word, a, b, value, nzvc) = *row;
        check(&rt, gives_with_codes(word, a, b, value, nzvc, F), word);
        check(&rt, gives_with_codes(word, a, b, value, nzvc, T), word);
    }
}

/// Whether a branch with these condition codes leaves these PC and nPC.
fn branches_to(word: u32, nzvc: u32, pc: u32, npc: u32) -> bool {
    let mut before = ready(0, 0, F);
    put_codes(&mut before, nzvc);
    let left = after(word, before, NO_MEMORY);
    left.regs.pc == pc && left.regs.npc == npc
}

/// Each condition, codes with which it is taken, and codes with which it is not.
const BRANCHES: [(u32, u32, u32); 21] = [
    (0x0280_0005, 0b0100, 0b1011), // be
    (0x0480_0005, 0b0100, 0b0001), // ble
    (0x0480_0005, 0b1000, 0b1010),
    (0x0480_0005, 0b0010, 0b1011),
    (0x0680_0005, 0b1000, 0b1010), // bl
    (0x0680_0005, 0b0010, 0b0101),
    (0x0880_0005, 0b0001, 0b1010), // bleu
    (0x0880_0005, 0b0100, 0b0000),
    (0x0A80_0005, 0b0001, 0b1110), // bcs
    (0x0C80_0005, 0b1000, 0b0111), // bneg
    (0x0E80_0005, 0b0010, 0b1101), // bvs
    (0x1280_0005, 0b1011, 0b0100), // bne
    (0x1480_0005, 0b0001, 0b0100), // bg
    (0x1480_0005, 0b1010, 0b1000),
    (0x1680_0005, 0b1010, 0b1000), // bge
    (0x1680_0005, 0b0101, 0b0010),
    (0x1880_0005, 0b1010, 0b0001), // bgu
    (0x1880_0005, 0b0000, 0b0100),
    (0x1A80_0005, 0b1110, 0b0001), // bcc
    (0x1C80_0005, 0b0111, 0b1000), // bpos
    (0x1E80_0005, 0b1101, 0b0010), // bvc
];

#[test]
fn branches(rt: HostRuntime) {
    for row in BRANCHES.iter() {
        let (word, taken, untaken) = *row;
        check(&rt, branches_to(word, taken, 0x2004, 0x2014), word);
        check(&rt, branches_to(word | ANNUL, taken, 0x2004, 0x2014), word);
        check(&rt, branches_to(word, untaken, 0x2004, 0x2008), word);
        check(
            &rt,
            branches_to(word | ANNUL, untaken, 0x2008, 0x200C),
            word,
        );
    }
}

#[test]
fn branches_without_a_condition(rt: HostRuntime) {
    for nzvc in [0b0000, 0b1111] {
        // ba; ba,a; bn; bn,a
        check(&rt, branches_to(0x1080_0005, nzvc, 0x2004, 0x2014), nzvc);
        check(&rt, branches_to(0x3080_0005, nzvc, 0x2014, 0x2018), nzvc);
        check(&rt, branches_to(0x0080_0005, nzvc, 0x2004, 0x2008), nzvc);
        check(&rt, branches_to(0x2080_0005, nzvc, 0x2008, 0x200C), nzvc);
    }
}

/// Registers in a delay slot: nPC does not follow PC.
fn in_delay_slot() -> Regs {
    let mut regs = ready(0x1000, 0x3004, F);
    regs.r[0] = 0x7777_7777;
    regs.npc = 0x3000;
    regs
}

/// The registers of `in_delay_slot` after a step, where one of them took a value.
fn left_slot(number: u8, value: u32, npc: u32) -> Regs {
    let mut regs = in_delay_slot();
    if let Some(place) = regs.r.get_mut(number as usize) {
        *place = value;
    }
    regs.pc = 0x3000;
    regs.npc = npc;
    regs
}

/// A word, a register and the value that it has after it, and nPC after it.
const TRANSFERS: [(u32, u8, u32, u32); 13] = [
    // a branch and a call, whose targets are counted from PC
    (0x10BF_FFFF, 0, 0x7777_7777, 0x1FFC),
    (0x4000_0003, 15, 0x2000, 0x200C),
    (0x7FFF_FFFF, 15, 0x2000, 0x1FFC),
    // jmpl %g0,%g2,%g2 and jmpl %g2,-4,%g0
    (0x85C0_0002, 2, 0x2000, 0x3004),
    (0x81C0_BFFC, 0, 0x7777_7777, 0x3000),
    // sethi 0x3fffff,%g4; sethi 1,%g0
    (0x093F_FFFF, 4, 0xFFFF_FC00, 0x3004),
    (0x0100_0001, 0, 0x7777_7777, 0x3004),
    // rd %y,%g5
    (0x8B40_0000, 5, 0x5555_5555, 0x3004),
    // add %g1,-1,%g3; add %g1,-4096,%g3; add %g1,4095,%g3; add %g0,%g1,%g3; add %g1,%g2,%g0
    (0x8600_7FFF, 3, 0xFFF, 0x3004),
    (0x8600_7000, 3, 0, 0x3004),
    (0x8600_6FFF, 3, 0x1FFF, 0x3004),
    (0x8600_0001, 3, 0x1000, 0x3004),
    (0x8000_4002, 0, 0x7777_7777, 0x3004),
];

/// Whether a step in the delay slot leaves these registers and this memory, or this fault.
fn leaves(word: u32, before: Cell, regs: Regs, memory: Cell, fault: Option<MachineFault>) -> bool {
    let wanted = Left {
        regs,
        memory,
        fault,
    };
    after(word, in_delay_slot(), before) == wanted
}

#[test]
fn transfers_and_moves(rt: HostRuntime) {
    for row in TRANSFERS.iter() {
        let (word, number, value, npc) = *row;
        let regs = left_slot(number, value, npc);
        check(&rt, leaves(word, NO_MEMORY, regs, NO_MEMORY, None), word);
    }
}

/// `jmpl %g1,2,%g1`: a target that is no multiple of 4.
#[test]
fn a_jump_off_the_words(rt: HostRuntime) {
    let fault = Some(MachineFault::Unaligned(0x1002));
    let holds = leaves(0x83C0_6002, NO_MEMORY, in_delay_slot(), NO_MEMORY, fault);
    assert!(rt; holds);
}

/// A memory that holds this word.
fn holding(word: u32, is_writable: bool) -> Cell {
    Cell {
        at: 0x1000,
        word,
        is_writable,
    }
}

/// The word that the memory holds at 0x1000.
const HELD: u32 = 0xABCD_EF01;

/// Whether stores reach the memory, a word, a register and the value that it has after it, and the word in the memory then.
const ACCESSES: [(bool, u32, u8, u32, u32); 4] = [
    // ld [%g1],%g3; ld [%g1+%g0],%g0
    (F, 0xC600_6000, 3, HELD, HELD),
    (T, 0xC000_4000, 0, 0x7777_7777, HELD),
    // st %g2,[%g1]; st %g0,[%g1]
    (T, 0xC420_6000, 0, 0x7777_7777, 0x3004),
    (T, 0xC020_6000, 0, 0x7777_7777, 0),
];

#[test]
fn loads_and_stores(rt: HostRuntime) {
    for row in ACCESSES.iter() {
        let (is_writable, word, number, value, held) = *row;
        let regs = left_slot(number, value, 0x3004);
        let (before, after) = (holding(HELD, is_writable), holding(held, is_writable));
        check(&rt, leaves(word, before, regs, after, None), word);
    }
}

/// Whether stores reach the memory, a word and its fault.
const REFUSED_ACCESSES: [(bool, u32, MachineFault); 7] = [
    // ld [%g1-4],%g3; ld [%g1+1],%g3; ld [%g2+2],%g3
    (T, 0xC600_7FFC, MachineFault::Range(0xFFC)),
    (T, 0xC600_6001, MachineFault::Unaligned(0x1001)),
    (T, 0xC600_A002, MachineFault::Unaligned(0x3006)),
    // st %g2,[%g1] where stores do not reach
    (F, 0xC420_6000, MachineFault::Range(0x1000)),
    // st %g2,[%g1+4]; st %g2,[%g1+3]; st %g2,[%g2+1]
    (T, 0xC420_6004, MachineFault::Range(0x1004)),
    (T, 0xC420_6003, MachineFault::Unaligned(0x1003)),
    (T, 0xC420_A001, MachineFault::Unaligned(0x3005)),
];

#[test]
fn refused_loads_and_stores(rt: HostRuntime) {
    for row in REFUSED_ACCESSES.iter() {
        let (is_writable, word, fault) = *row;
        let memory = holding(HELD, is_writable);
        let holds = leaves(word, memory, in_delay_slot(), memory, Some(fault));
        check(&rt, holds, word);
    }
}
