//! Modules are compiled to an image.

ghost use Rattle.hipe_core.specs.Command.{Compiles, effects};
ghost use Rattle.hipe_core.specs.Files.{IsQuiet, course};
ghost use Rattle.hipe_core.specs.Image.{IsCompilable, IsImageOf};
ghost use Rattle.hipe_core.specs.Words.{others};
ghost use Rattle.hipe_core.specs.Writing.{IsNotBuiltBy, WritesImageOf};
ghost use Rattle.std.specs.Prelude.{◌<◌, IfOk, length, map, string_bytes};

use crate::Ending;
use crate::asking::{Chosen, other};
use crate::files::checked_files;
use crate::saying::put_piece;
use beam_check::Checked;
use hipe_base::{Files, Sink};
use image_format::image_bytes;
use std::alloc::{AllocError, Global};
use trivial_code::{are_trivial, parts};

/// The image of these modules, with all of their functions in native form.
pub fn compile(alloc: Global, checked: &Checked) -> Result<Vec<u8>, AllocError>
    requires { IsCompilable checked.now }
    ensures { IfOk result (λ bytes. IsImageOf checked.now bytes.items) }
{
    let parts = parts(alloc, checked)?;
    image_bytes(alloc, &parts)
}

/// Writes the image of these modules, or says why not.
fn write_image<'a, O: Sink>(alloc: Global, checked: &Checked, out: &mut O) -> Ending<'a>
    requires { IsCompilable checked.now }
    ensures { WritesImageOf result checked.now (O.seen out.old) (O.seen out.new) }
{
    match compile(alloc, checked) {
        Err(_) => Ending::NoMemory,
        Ok(bytes) => {
            if put_piece(out, bytes.as_slice()) {
                Ending::Said(0)
            } else {
                Ending::CannotWrite
            }
        }
    }
}

/// The ending where some function is none that this stage compiles.
fn not_built(words: &[String]) -> Ending<'_>
    requires { 0 < length (others (map string_bytes words.now)) }
    ensures { IsNotBuiltBy result (others (map string_bytes words.now)) }
{
    match other(words, 0) {
        Some(file) => Ending::NotBuilt(file),
        None => unreachable!(),
    }
}

/// Compiles the modules of the files that those of these words name which are no options.
pub fn compile_files<'a, F: Files, O: Sink>(
    alloc: Global,
    chosen: Chosen,
    words: &'a [String],
    files: &mut F,
    out: &mut O,
) -> Ending<'a>
    requires { 0 < length (others (map string_bytes words.now)) }
    ensures ends { Compiles result (others (map string_bytes words.now)) (effects (course (F.told files.old) (F.told files.new)) (O.seen out.old) (O.seen out.new)) }
    ensures quiet { IsQuiet (course (F.told files.old) (F.told files.new)) }
{
    match chosen {
        Chosen::All => match checked_files(alloc, words, files) {
            Err(ending) => ending,
            Ok(checked) => {
                if are_trivial(&checked) {
                    write_image(alloc, &checked, out)
                } else {
                    not_built(words)
                }
            }
        },
    }
}
