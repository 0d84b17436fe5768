//! A call is run on an image.

ghost use Rattle.asm_text.specs.Entry.{entry_of};
ghost use Rattle.hipe_core.specs.Command.{RunsBytes, RunsEntry, RunsFile, RunsWith, effects};
ghost use Rattle.hipe_core.specs.Files.{IsQuiet, course};
ghost use Rattle.hipe_core.specs.Running.{EndsArgs, EndsImage, RunsOpened, SaysLine, SaysRun, called};
ghost use Rattle.image_format.specs.declared.limits.TheConstants.{MOST_IMAGE_BYTES};
ghost use Rattle.mode_switch.specs.Call.{IsInRange};
ghost use Rattle.mode_switch.specs.Machine.{ran};
ghost use Rattle.std.specs.List.{list_all};
ghost use Rattle.std.specs.Prelude.{◌≡◌, ◌≤◌, IsTrue, None, Some, is_some, length, string_bytes, true};
ghost use Rattle.term_tree.specs.Term.{is_canonical};

use crate::Ending;
use crate::saying::put_piece;
use asm_text::{TextRefusal, read_args, read_entry};
use hipe_base::{Files, ReadRefusal, Sink, read_file};
use image_format::MOST_IMAGE_BYTES;
use mode_switch::{Call, Limits, Machine, NOT_BUILT_STATUS, OpenRefusal};
use native_link::{Image, ImageRefusal, read_image};
use std::alloc::Global;
use term_tree::Name;

/// Writes the line of an outcome, if there is one yet.
fn say_line<'a, O: Sink>(text: &str, status: u8, file: &'a str, out: &mut O) -> Ending<'a>
    ensures { SaysLine result file.now (text.now, status) (O.seen out.old) (O.seen out.new) }
{
    if status == NOT_BUILT_STATUS {
        Ending::NotBuilt(file)
    } else if put_piece(out, text.as_bytes()) {
        Ending::Said(status)
    } else {
        Ending::CannotWrite
    }
}

/// Writes the line of the run of a call.
fn say_run<'a, O: Sink>(
    alloc: Global,
    machine: &mut Machine,
    file: &'a str,
    out: &mut O,
) -> Ending<'a>
    requires { machine.old.outcome ≡ None }
    ensures { SaysRun result file.now (ran machine.old) (O.seen out.old) (O.seen out.new) }
{
    let outcome = machine.run();
    match machine.outcome_text(alloc, &outcome) {
        Err(_) => Ending::NoMemory,
        Ok((text, status)) => say_line(text.as_str(), status, file, out),
    }
}

/// Runs a call on an image.
fn run_call<'a, O: Sink>(
    alloc: Global,
    image: Image,
    call: Call,
    limits: Limits,
    file: &'a str,
    entry: &'a str,
    out: &mut O,
) -> Ending<'a>
    requires limits { IsInRange limits }
    requires canonical { IsTrue (list_all is_canonical call.args) }
    ensures { RunsOpened result image (called file.now entry.now call limits) (O.seen out.old) (O.seen out.new) }
{
    let count = call.args.len();
    match Machine::open(alloc, image, call, limits, Vec::new(alloc)) {
        Err(OpenRefusal::NotExported) => Ending::NotExported(entry, count),
        Err(OpenRefusal::ArgsDoNotFit) => Ending::ArgsDoNotFit,
        Err(OpenRefusal::Memory(_)) => Ending::NoMemory,
        Ok(machine) => {
            let mut machine = machine;
            say_run(alloc, &mut machine, file, out)
        }
    }
}

/// How the refusal of an image ends the command.
fn image_refused(file: &str, refusal: ImageRefusal) -> Ending<'_>
    ensures { EndsImage refusal file.now result }
{
    match refusal {
        ImageRefusal::Memory(_) => Ending::NoMemory,
        refusal => Ending::ImageRefused(file, refusal),
    }
}

/// Runs a call on the image with these bytes.
fn run_bytes<'a, O: Sink>(
    alloc: Global,
    bytes: &[u8],
    call: Call,
    limits: Limits,
    file: &'a str,
    entry: &'a str,
    out: &mut O,
) -> Ending<'a>
    requires size { length bytes.now ≤ MOST_IMAGE_BYTES }
    requires limits { IsInRange limits }
    requires canonical { IsTrue (list_all is_canonical call.args) }
    ensures { RunsBytes result bytes.now (called file.now entry.now call limits) (O.seen out.old) (O.seen out.new) }
{
    match read_image(alloc, bytes) {
        Err(refusal) => image_refused(file, refusal),
        Ok(image) => run_call(alloc, image, call, limits, file, entry, out),
    }
}

/// Runs a call on the image in the file that is named.
fn run_file<'a, F: Files, O: Sink>(
    alloc: Global,
    call: Call,
    limits: Limits,
    file: &'a str,
    entry: &'a str,
    files: &mut F,
    out: &mut O,
) -> Ending<'a>
    requires limits { IsInRange limits }
    requires canonical { IsTrue (list_all is_canonical call.args) }
    ensures ends { RunsFile result (called file.now entry.now call limits) (effects (course (F.told files.old) (F.told files.new)) (O.seen out.old) (O.seen out.new)) }
    ensures quiet { IsQuiet (course (F.told files.old) (F.told files.new)) }
{
    match read_file(alloc, files, file, MOST_IMAGE_BYTES) {
        Err(ReadRefusal::Fault) => Ending::CannotRead(file),
        Err(ReadRefusal::TooLong) => Ending::TooLong(file),
        Err(ReadRefusal::Memory(_)) => Ending::NoMemory,
        Ok(bytes) => run_bytes(alloc, bytes.as_slice(), call, limits, file, entry, out),
    }
}

/// How the refusal of arguments ends the command.
fn args_refused<'a>(refusal: TextRefusal) -> Ending<'a>
    ensures { EndsArgs refusal result }
{
    match refusal {
        TextRefusal::Memory(_) => Ending::NoMemory,
        refusal => Ending::ArgsRefused(refusal),
    }
}

/// Runs the function with these names on the arguments of a text.
fn run_names<'a, F: Files, O: Sink>(
    alloc: Global,
    names: (Name, Name),
    args: &str,
    limits: Limits,
    file: &'a str,
    entry: &'a str,
    files: &mut F,
    out: &mut O,
) -> Ending<'a>
    requires { IsInRange limits }
    ensures ends { RunsWith result file.now entry.now names args.now limits (effects (course (F.told files.old) (F.told files.new)) (O.seen out.old) (O.seen out.new)) }
    ensures quiet { IsQuiet (course (F.told files.old) (F.told files.new)) }
{
    match read_args(alloc, args.as_bytes()) {
        Err(refusal) => args_refused(refusal),
        Ok(args) => {
            let (module, function) = names;
            let call = Call {
                module,
                function,
                args,
            };
            run_file(alloc, call, limits, file, entry, files, out)
        }
    }
}

/// Runs the function with the entry that is named on the arguments of a text.
pub fn run<'a, F: Files, O: Sink>(
    alloc: Global,
    file: &'a str,
    entry: &'a str,
    args: &str,
    limits: Limits,
    files: &mut F,
    out: &mut O,
) -> Ending<'a>
    requires entry { is_some (entry_of entry.now) ≡ true }
    requires limits { IsInRange limits }
    ensures ends { RunsEntry result file.now entry.now (entry_of entry.now) args.now limits (effects (course (F.told files.old) (F.told files.new)) (O.seen out.old) (O.seen out.new)) }
    ensures quiet { IsQuiet (course (F.told files.old) (F.told files.new)) }
{
    match read_entry(alloc, entry.as_bytes()) {
        Err(_) => Ending::NoMemory,
        Ok(None) => unreachable!(),
        Ok(Some(names)) => run_names(alloc, names, args, limits, file, entry, files, out),
    }
}
