//! Images that are read, and a run on one.

ghost use Rattle.std.specs.Prelude.{◌≡◌, [], IfOk};

use anyhow::{Result, bail};
use hand_images::image_of;
use image_format::{MOST_CODE, MOST_IMAGE_BYTES};
use mode_switch::{Call, Limits, MOST_REDUCTIONS, Machine};
use native_link::{Image, read_image};
use sqlite_items::Items;
use std::alloc::{AllocError, Global};
use term_tree::Name;

fn numbers(alloc: Global, count: u32) -> Result<Vec<u32>, AllocError> {
    let mut numbers = Vec::new(alloc);
    for number in 0..count {
        numbers.push(number)?;
    }
    Ok(numbers)
}

/// The bytes of an image of one function with this native code.
fn image_bytes_of(alloc: Global, words: &[u32]) -> Result<Vec<u8>> {
    if words.is_empty() || words.len() > MOST_CODE as usize {
        bail!("a native function has 1 to {MOST_CODE} words");
    }
    Ok(image_of(alloc, words)?)
}

/// Whether these bytes are read as an image with so many code words.
fn is_read(alloc: Global, bytes: &[u8], words: u32) -> Result<bool> {
    if bytes.len() > MOST_IMAGE_BYTES {
        bail!("an image has at most {MOST_IMAGE_BYTES} bytes");
    }
    let image = read_image(alloc, bytes)?;
    Ok(image.parts().code.len() == words as usize)
}

fn count_read(alloc: Global, bytes: &[u8], words: u32, reads: u32) -> Result<u32> {
    let mut read: u32 = 0;
    for _ in 0..reads {
        if is_read(alloc, bytes, words)? {
            read = read.wrapping_add(1);
        }
    }
    Ok(read)
}

/// Makes an image of one native function with so many code words, reads it so many times, and says how often the words
/// were all there.
pub fn images_read(alloc: Global, words: u32, reads: u32) -> Result<String> {
    let bytes = image_bytes_of(alloc, &numbers(alloc, words)?)?;
    let read = count_read(alloc, &bytes, words, reads)?;
    let size = bytes.len();
    Ok(format!(in alloc; "{read} of {reads} times {words} code words read from {size} bytes")?)
}

/// A branch to itself, and the word in its delay slot.
const LOOP: [u32; 2] = [
    0x1080_0000, // ba to this word
    0x0100_0000, // nop
];

fn call(alloc: Global) -> Result<Call, AllocError>
    ensures { IfOk result (λ call. call.args ≡ []) }
{
    Ok(Call {
        module: Name::from_short(alloc, "one")?,
        function: Name::from_short(alloc, "f")?,
        args: Items::new(alloc),
    })
}

/// How many steps the run of the call makes.
fn steps_on(alloc: Global, image: Image, reductions: u32) -> Result<u64> {
    if reductions > MOST_REDUCTIONS {
        bail!("a call has at most {MOST_REDUCTIONS} reductions");
    }
    let limits = Limits {
        reductions,
        heap: 16,
        stack: 16,
    };
    let call = call(alloc)?;
    let mut machine = Machine::open(alloc, image, call, limits, Vec::new(alloc))?;
    machine.run();
    Ok(machine.steps())
}

fn steps_of(alloc: Global, bytes: &[u8], reductions: u32) -> Result<u64> {
    if bytes.len() > MOST_IMAGE_BYTES {
        bail!("an image has at most {MOST_IMAGE_BYTES} bytes");
    }
    let image = read_image(alloc, bytes)?;
    steps_on(alloc, image, reductions)
}

/// Runs a native branch to itself until its steps are spent, and says how many were done. With r reductions the bound
/// is 22 (r + 2) steps.
pub fn steps_run(alloc: Global, reductions: u32) -> Result<String> {
    let bytes = image_bytes_of(alloc, &LOOP)?;
    let steps = steps_of(alloc, &bytes, reductions)?;
    Ok(format!(in alloc; "{steps} steps")?)
}
