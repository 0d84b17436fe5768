//! Words of one block that are read and written at random addresses.

ghost use Rattle.std.specs.Prelude.{◌+◌, ◌*◌, ◌^◌, ◌≤◌};

use anyhow::{Result, bail};
use std::alloc::Global;
use tagged_words::WordBlock;

/// Where the block begins, and the most words that it may have.
const LOW: u32 = 0x1000_0000;

const MOST_WORDS: u32 = 0x1C00_0000;

/// Writes and reads words of a block, and says how many were written and what the read ones add up to.
pub fn words_moved(alloc: Global, words: u32, gets: u32, sets: u32) -> Result<String> {
    if words > MOST_WORDS {
        bail!("a block has at most {MOST_WORDS} words");
    }
    let mut block = WordBlock::new(alloc, LOW, words)?;
    let done = write_words(&mut block, words, sets);
    let sum = read_words(&block, words, gets);
    Ok(format!(in alloc; "{done} of {sets} words written; {gets} words read add up to {sum}")?)
}

/// How many of `sets` random words were written, by `WordBlock::set`.
fn write_words(block: &mut WordBlock, words: u32, sets: u32) -> u32 {
    let mut seed = 1;
    let mut done: u32 = 0;
    for _ in 0..sets {
        seed = next_number(seed);
        if block.set(address(seed, words), seed) {
            done = done.wrapping_add(1);
        }
    }
    done
}

/// The sum, below 2 ^ 32, of `gets` random words that were read by `WordBlock::get`.
fn read_words(block: &WordBlock, words: u32, gets: u32) -> u32 {
    let mut seed = 2;
    let mut sum: u32 = 0;
    for _ in 0..gets {
        seed = next_number(seed);
        if let Some(word) = block.get(address(seed, words)) {
            sum = sum.wrapping_add(word);
        }
    }
    sum
}

/// The next number of a linear congruential generator; its high bits are the random ones.
fn next_number(seed: u32) -> u32 {
    seed.wrapping_mul(1_664_525).wrapping_add(1_013_904_223)
}

/// The address of one of the block's words, by the high bits of a random number.
fn address(seed: u32, words: u32) -> u32 {
    let index = ((seed as u64).wrapping_mul(words as u64) >> 32 & 0xFFFF_FFFF) as u32;
    index.wrapping_mul(4).wrapping_add(LOW)
}
