//! Modules are checked, and told of.

ghost use Rattle.hipe_core.specs.Checking.{counts_text, ok_line, ok_lines, ok_text, units_among};
ghost use Rattle.hipe_core.specs.Command.{Checks, effects};
ghost use Rattle.hipe_core.specs.Files.{IsQuiet, course};
ghost use Rattle.hipe_core.specs.Words.{others};
ghost use Rattle.hipe_core.specs.Writing.{WritesText};
ghost use Rattle.path_rules.specs.Profile.{units_of};
ghost use Rattle.std.specs.Prelude.{◌≡◌, ◌<◌, ◌-◌, ◌^◌, ◌++◌, All, IfOk, OnOk, map, string_bytes};

use crate::Ending;
use crate::files::checked_files;
use crate::saying::put_piece;
use beam_code::{Function, Item, Module, units};
use hipe_base::{Files, Sink};
use std::alloc::{AllocError, Global};
use std::fmt::Write;
use term_tree::name_text;

/// The units of these items together.
fn units_of(items: &[Item]) -> u64
    requires { units_of items.now < 2 ^ 32 - 1 }
    ensures { result ≡ units_of items.now }
{
    let mut sum = 0u64;
    for item in items {
        sum += u64::from(units(item.instr()));
    }
    sum
}

/// The units of these functions together.
fn units_among(functions: &[Function]) -> u64
    requires { units_among functions.now < 2 ^ 32 - 1 }
    ensures { result ≡ units_among functions.now }
{
    let mut sum = 0u64;
    for function in functions {
        sum += units_of(function.items.as_slice());
    }
    sum
}

/// So many functions and so many units.
fn counts_text(alloc: Global, functions: usize, units: u64) -> Result<String, AllocError>
    ensures { IfOk result (λ t. string_bytes t ≡ counts_text functions units) }
{
    let mut text = String::new(alloc);
    write!(text, "{functions}")?;
    text.push_str(" functions, ")?;
    write!(text, "{units}")?;
    text.push_str(" units\n")?;
    Ok(text)
}

/// The line of a module with this name and these counts.
fn ok_text(alloc: Global, name: &str, counts: &str) -> Result<String, AllocError>
    ensures { IfOk result (λ t. string_bytes t ≡ ok_text name.now counts.now) }
{
    let mut text = String::new(alloc);
    write!(text, "ok {name}: {counts}")?;
    Ok(text)
}

/// The line of a module.
fn ok_line(alloc: Global, module: &Module) -> Result<String, AllocError>
    requires { units_among «module».now.functions < 2 ^ 32 - 1 }
    ensures { IfOk result (λ t. string_bytes t ≡ ok_line «module».now) }
{
    let name = name_text(alloc, &module.name)?;
    let units = units_among(module.functions.as_slice());
    let counts = counts_text(alloc, module.functions.len(), units)?;
    ok_text(alloc, name.as_str(), counts.as_str())
}

/// Adds the line of a module.
fn put_ok_line(alloc: Global, out: &mut String, module: &Module) -> Result<(), AllocError>
    requires { units_among «module».now.functions < 2 ^ 32 - 1 }
    ensures { OnOk result (string_bytes out.new ≡ string_bytes out.old ++ ok_line «module».now) }
{
    let line = ok_line(alloc, module)?;
    out.push_str(line.as_str())
}

/// The lines of these modules.
fn ok_lines(alloc: Global, modules: &[Module]) -> Result<String, AllocError>
    requires { All (λ m. units_among m.functions < 2 ^ 32 - 1) modules.now }
    ensures { IfOk result (λ t. string_bytes t ≡ ok_lines modules.now) }
{
    let mut text = String::new(alloc);
    for module in modules {
        put_ok_line(alloc, &mut text, module)?;
    }
    Ok(text)
}

/// Writes the lines of these modules, or says why not.
fn write_lines<'a, O: Sink>(alloc: Global, modules: &[Module], out: &mut O) -> Ending<'a>
    requires { All (λ m. units_among m.functions < 2 ^ 32 - 1) modules.now }
    ensures { WritesText result (ok_lines modules.now) (O.seen out.old) (O.seen out.new) }
{
    match ok_lines(alloc, modules) {
        Err(_) => Ending::NoMemory,
        Ok(text) => {
            if put_piece(out, text.as_bytes()) {
                Ending::Said(0)
            } else {
                Ending::CannotWrite
            }
        }
    }
}

/// Checks the modules of the files that these words name.
pub fn check_files<'a, F: Files, O: Sink>(
    alloc: Global,
    words: &'a [String],
    files: &mut F,
    out: &mut O,
) -> Ending<'a>
    ensures ends { Checks result (others (map string_bytes words.now)) (effects (course (F.told files.old) (F.told files.new)) (O.seen out.old) (O.seen out.new)) }
    ensures quiet { IsQuiet (course (F.told files.old) (F.told files.new)) }
{
    match checked_files(alloc, words, files) {
        Err(ending) => ending,
        Ok(checked) => write_lines(alloc, checked.modules(), out),
    }
}
