//! Modules that are read from files of texts.

ghost use Rattle.hipe_core.specs.Files.{AddsText, IsQuiet, IsRefusal, ReadsFile, ReadsModules, ReadsTexts, course};
ghost use Rattle.hipe_core.specs.Words.{others};
ghost use Rattle.std.specs.Prelude.{◌<◌, length, map, string_bytes};

use crate::Ending;
use crate::asking::{is_option, other};
use beam_check::Checked;
use beam_code::MOST_TEXT_BYTES;
use beam_profile::ModuleRefusal;
use hipe_base::{Files, ReadRefusal, read_file};
use module_texts::{TextsRefusal, check_texts};
use sqlite_items::Items;
use std::alloc::Global;

/// The bytes of a file, of which there may be so many.
fn read_text<'a, F: Files>(
    alloc: Global,
    file: &'a str,
    room: usize,
    files: &mut F,
) -> Result<Items<u8>, Ending<'a>>
    ensures text { ReadsFile result file.now room (course (F.told files.old) (F.told files.new)) }
    ensures quiet { IsQuiet (course (F.told files.old) (F.told files.new)) }
{
    match read_file(alloc, files, file, room) {
        Ok(text) => Ok(Items::from_vec(text)),
        Err(ReadRefusal::Fault) => Err(Ending::CannotRead(file)),
        Err(ReadRefusal::TooLong) => Err(Ending::TooLong(file)),
        Err(ReadRefusal::Memory(_)) => Err(Ending::NoMemory),
    }
}

/// Reads the text of one more file, and gives how many bytes those that follow may have.
fn add_text<'a, F: Files>(
    alloc: Global,
    file: &'a str,
    room: usize,
    texts: &mut Items<Items<u8>>,
    files: &mut F,
) -> Result<usize, Ending<'a>>
    ensures text { AddsText result texts.old texts.new file.now room (course (F.told files.old) (F.told files.new)) }
    ensures quiet { IsQuiet (course (F.told files.old) (F.told files.new)) }
{
    match read_text(alloc, file, room, files) {
        Err(ending) => Err(ending),
        Ok(text) => {
            let left = room - text.len();
            texts.push(text)?;
            Ok(left)
        }
    }
}

/// The texts of the files that those of these words name which are no options.
fn read_texts<'a, F: Files>(
    alloc: Global,
    words: &'a [String],
    files: &mut F,
) -> Result<Items<Items<u8>>, Ending<'a>>
    ensures texts { ReadsTexts result (others (map string_bytes words.now)) (course (F.told files.old) (F.told files.new)) }
    ensures quiet { IsQuiet (course (F.told files.old) (F.told files.new)) }
{
    let mut texts = Items::new(alloc);
    let mut room = MOST_TEXT_BYTES;
    let mut left = words;
    while let Some((first, more)) = left.split_first() {
        let file = first.as_str();
        if !is_option(file.as_bytes()) {
            match add_text(alloc, file, room, &mut texts, files) {
                Ok(rest) => room = rest,
                Err(ending) => return Err(ending),
            }
        }
        left = more;
    }
    Ok(texts)
}

/// The ending for the text at this place.
fn module_refused<'a>(words: &'a [String], index: usize, refusal: ModuleRefusal) -> Ending<'a>
    requires { index < length (others (map string_bytes words.now)) }
    ensures { IsRefusal result (others (map string_bytes words.now)) index refusal }
{
    match other(words, index) {
        Some(file) => Ending::ModuleRefused(file, refusal),
        None => unreachable!(),
    }
}

/// The modules of the files that those of these words name which are no options.
pub fn checked_files<'a, F: Files>(
    alloc: Global,
    words: &'a [String],
    files: &mut F,
) -> Result<Checked, Ending<'a>>
    ensures modules { ReadsModules result (others (map string_bytes words.now)) (course (F.told files.old) (F.told files.new)) }
    ensures quiet { IsQuiet (course (F.told files.old) (F.told files.new)) }
{
    let texts = read_texts(alloc, words, files)?;
    match check_texts(alloc, texts.as_slice()) {
        Ok(checked) => Ok(checked),
        Err(TextsRefusal::Module { index, refusal }) => Err(module_refused(words, index, refusal)),
        Err(TextsRefusal::Check(refusal)) => Err(Ending::CheckRefused(refusal)),
        Err(TextsRefusal::Memory(_)) => Err(Ending::NoMemory),
    }
}
