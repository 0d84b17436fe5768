//! Modules that are checked against the profile, as the compiler checks them.

ghost use Rattle.std.specs.Prelude.{◌≤◌, IfOk, length};
ghost use Rattle.beam_check.specs.Texts.{AreOfTheirTexts};

use anyhow::Result;
use beam_check::check;
use beam_code::{MOST_TEXT_BYTES, Module};
use beam_profile::read_module;
use hipe_base::{Files, read_file};
use sqlite_items::Items;
use std::alloc::Global;

/// The module of a text, alone in a list.
#[tactic(auto, using(beam_check::proofs::Texts::none, beam_check::proofs::Texts::added))]
fn alone(alloc: Global, text: &[u8]) -> Result<Items<Module>>
    requires { length text.now ≤ MOST_TEXT_BYTES }
    ensures { IfOk result AreOfTheirTexts }
{
    let text = Items::from_slice(alloc, text)?;
    let module = read_module(alloc, text)?;
    let mut modules = Items::new(alloc);
    modules.push(module)?;
    Ok(modules)
}

/// How many functions the module of a text has, or why it is out of the profile.
pub fn said(alloc: Global, text: &[u8]) -> Result<String>
    requires { length text.now ≤ MOST_TEXT_BYTES }
{
    let modules = alone(alloc, text)?;
    match check(alloc, modules) {
        Ok(checked) => Ok(format!(in alloc; "{} functions", checked.functions())?),
        Err(refusal) => Ok(format!(in alloc; "{refusal:?}")?),
    }
}

/// Checks the module of a file so many times, and tells what the last check said.
pub fn modules_checked<F: Files>(
    alloc: Global,
    files: &mut F,
    name: &str,
    times: u32,
) -> Result<String> {
    let text = read_file(alloc, files, name, MOST_TEXT_BYTES)?;
    let mut last = String::from_str(alloc, "nothing")?;
    for _ in 0..times {
        last = said(alloc, &text)?;
    }
    Ok(format!(in alloc; "{} in {times} checks", last.as_str())?)
}
