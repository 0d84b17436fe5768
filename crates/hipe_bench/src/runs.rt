//! Whole commands over files in memory.

use anyhow::{Result, bail};
use hipe_base::{MemFiles, MemSink};
use hipe_core::command;
use std::alloc::{AllocError, Global};
use std::string::String;

/// A module whose one function returns its argument.
const IDENTITY: &[u8] =
    b"{module, id}.\n{exports, [{id,1}]}.\n{attributes, []}.\n{labels, 3}.\n{function, id, 1, 2}.\n{label,1}.\n{func_info,{atom,id},{atom,id},1}.\n{label,2}.\nreturn.\n";

/// The most bytes that one read gives or one write takes.
const PIECE: usize = 65_536;

/// What a command writes that ends with status 0.
fn written(alloc: Global, files: &mut MemFiles, words: &[String], room: usize) -> Result<MemSink> {
    let mut out = MemSink::new(alloc, PIECE, room)?;
    let mut err = MemSink::new(alloc, PIECE, 1000)?;
    let status = command(alloc, words, files, &mut out, &mut err);
    if status != 0 {
        bail!("the command ended with status {status}");
    }
    Ok(out)
}

fn owned(alloc: Global, words: &[&str]) -> Result<Vec<String>, AllocError> {
    let mut owned = Vec::new(alloc);
    for word in words {
        owned.push(String::from_str(alloc, word)?)?;
    }
    Ok(owned)
}

/// The text of a list of so many integers of seven digits.
fn list(alloc: Global, integers: u32) -> Result<String, AllocError> {
    let mut text = String::from_str(alloc, "[")?;
    for integer in 0..integers {
        let digits = format!(in alloc; "{}", 1_000_000 + integer % 1_000_000)?;
        if integer > 0 {
            text.push(',')?;
        }
        text.push_str(digits.as_str())?;
    }
    text.push(']')?;
    Ok(text)
}

/// The files in memory: the image of the module.
fn image_file(alloc: Global) -> Result<MemFiles> {
    let mut files = MemFiles::new(alloc, PIECE)?;
    files.add("id.S", IDENTITY)?;
    let words = owned(alloc, &["compile", "--native=all", "id.S"])?;
    let image = written(alloc, &mut files, words.as_slice(), 1000)?;
    files.add("id.img", image.bytes())?;
    Ok(files)
}

/// How many of these runs print this line.
fn count_printed(alloc: Global, words: &[String], line: &str, runs: u32) -> Result<u32> {
    let mut files = image_file(alloc)?;
    let mut printed: u32 = 0;
    for _ in 0..runs {
        let out = written(alloc, &mut files, words, line.len())?;
        if out.bytes() == line.as_bytes() {
            printed = printed.wrapping_add(1);
        }
    }
    Ok(printed)
}

/// Calls a function so many times, by a command each, on a list of so many integers, which it returns; and says how
/// often the list was printed.
pub fn lists_returned(alloc: Global, integers: u32, runs: u32) -> Result<String> {
    let list = list(alloc, integers)?;
    let size = list.len();
    let args = format!(in alloc; "[{list}]")?;
    let words = owned(alloc, &["run", "id.img", "id:id", args.as_str()])?;
    let line = format!(in alloc; "return {list}\n")?;
    let printed = count_printed(alloc, words.as_slice(), line.as_str(), runs)?;
    Ok(format!(in alloc; "{printed} of {runs} runs printed {size} bytes")?)
}
