//! Files that are read, as the compiler reads them.

ghost use Rattle.std.specs.Prelude.{◌≤◌, length};

use anyhow::Result;
use asm_text::read_forms;
use beam_code::MOST_TEXT_BYTES;
use beam_profile::read_module;
use hipe_base::{Files, read_file};
use sqlite_items::Items;
use std::alloc::Global;

/// The most bytes that a file may hold.
const LIMIT: usize = 100_000_000;

/// Reads a file so many times, and says how many bytes that gave in all.
pub fn files_read<F: Files>(
    alloc: Global,
    files: &mut F,
    name: &str,
    times: u32,
) -> Result<String> {
    let mut count: u64 = 0;
    for _ in 0..times {
        let bytes = read_file(alloc, files, name, LIMIT)?;
        count = count.saturating_add(bytes.len() as u64);
    }
    Ok(format!(in alloc; "{count} bytes")?)
}

/// Reads the forms of a file so many times, and says how many that gave in all.
pub fn forms_read<F: Files>(
    alloc: Global,
    files: &mut F,
    name: &str,
    times: u32,
) -> Result<String> {
    let text = read_file(alloc, files, name, LIMIT)?;
    let count = count_forms(alloc, &text, times)?;
    let size = text.len();
    Ok(format!(in alloc; "{count} forms in {times} readings of {size} bytes")?)
}

fn count_forms(alloc: Global, text: &[u8], times: u32) -> Result<u64> {
    let mut count: u64 = 0;
    for _ in 0..times {
        let forms = read_forms(alloc, text)?;
        count = count.saturating_add(forms.len() as u64);
    }
    Ok(count)
}

/// Reads the module of a file so many times, and says how many functions that gave in all.
pub fn modules_read<F: Files>(
    alloc: Global,
    files: &mut F,
    name: &str,
    times: u32,
) -> Result<String> {
    let text = read_file(alloc, files, name, MOST_TEXT_BYTES)?;
    let count = count_functions(alloc, &text, times)?;
    let size = text.len();
    Ok(format!(in alloc; "{count} functions in {times} readings of {size} bytes")?)
}

fn count_functions(alloc: Global, text: &[u8], times: u32) -> Result<u64>
    requires { length text.now ≤ MOST_TEXT_BYTES }
{
    let mut count: u64 = 0;
    for _ in 0..times {
        let text = Items::from_slice(alloc, text)?;
        let module = read_module(alloc, text)?;
        count = count.saturating_add(module.functions.len() as u64);
    }
    Ok(count)
}
