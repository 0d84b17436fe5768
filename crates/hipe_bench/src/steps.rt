//! Steps of SPARC instructions.

use crate::memory::Cells;
use anyhow::Result;
use sparc_code::{Regs, step};
use std::alloc::Global;

/// Eight words: the loop loads a word, adds to it, stores it, tests a bit and counts down.
const CODE: [u32; 8] = [
    0xC400_6008, // ld [%g1+8],%g2
    0x8400_8003, // add %g2,%g3,%g2
    0xC420_6008, // st %g2,[%g1+8]
    0x8888_A001, // andcc %g2,1,%g4
    0x8928_A003, // sll %g2,3,%g4
    0x86A0_E001, // subcc %g3,1,%g3
    0x12BF_FFFA, // bne to the first word
    0x8A19_4004, // xor %g5,%g4,%g5
];

/// Does at most this many steps, and says how many were done.
fn run(regs: &mut Regs, memory: &mut Cells, steps: u32) -> u32 {
    for done in 0..steps {
        let word = CODE[(regs.pc / 4 % 8) as usize];
        if step(regs, word, memory).is_err() {
            return done;
        }
    }
    steps
}

/// Does so many steps, and says how many were done and what `%g5` then holds.
pub fn steps_done(alloc: Global, steps: u32) -> Result<String> {
    let mut regs = Regs {
        r: [0; 32],
        y: 0,
        n: false,
        z: false,
        v: false,
        c: false,
        pc: 0,
        npc: 4,
    };
    let mut memory = Cells::new();
    let done = run(&mut regs, &mut memory, steps);
    Ok(format!(in alloc; "{done} steps, {} at the end", regs.r[5])?)
}
