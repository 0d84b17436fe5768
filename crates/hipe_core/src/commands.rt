//! The command line: what its words ask is done.

ghost use Rattle.hipe_core.specs.Answer.{IsAnswer, case};
ghost use Rattle.hipe_core.specs.Command.{Ends, effects};
ghost use Rattle.hipe_core.specs.Files.{IsQuiet, course};
ghost use Rattle.hipe_core.specs.Words.{asked};
ghost use Rattle.std.specs.Prelude.{map, string_bytes};

use crate::Ending;
use crate::asking::{Asked, ask};
use crate::checking::check_files;
use crate::compiling::compile_files;
use crate::running::run;
use crate::saying::finish;
use hipe_base::{Files, Sink};
use std::alloc::Global;

/// Does what the words ask, and tells how it ended.
fn end<'a, F: Files, O: Sink>(
    alloc: Global,
    words: &'a [String],
    files: &mut F,
    out: &mut O,
) -> Ending<'a>
    ensures ends { Ends (asked (map string_bytes words.now)) result (effects (course (F.told files.old) (F.told files.new)) (O.seen out.old) (O.seen out.new)) }
    ensures quiet { IsQuiet (course (F.told files.old) (F.told files.new)) }
{
    match ask(words) {
        Asked::Nothing => Ending::Usage,
        Asked::Check(words) => check_files(alloc, words, files, out),
        Asked::Compile(chosen, words) => compile_files(alloc, chosen, words, files, out),
        Asked::Run(file, entry, args, limits) => {
            run(alloc, file, entry, args, limits, files, out)
        }
    }
}

/// All that the program does: the words after its name are a command, which reads files, writes its
/// output to `out` and a line to `err` where it has none, and ends with the status that is returned
/// (`docs/COMMANDS.md`).
pub fn command<F: Files, O: Sink, E: Sink>(
    alloc: Global,
    words: &[String],
    files: &mut F,
    out: &mut O,
    err: &mut E,
) -> u8
    ensures { IsAnswer (case (asked (map string_bytes words.now)) (effects (course (F.told files.old) (F.told files.new)) (O.seen out.old) (O.seen out.new)) (E.seen err.old) (E.seen err.new)) result }
{
    let ending = end(alloc, words, files, out);
    finish(alloc, err, &ending)
}
