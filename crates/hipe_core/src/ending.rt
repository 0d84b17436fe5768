use asm_text::TextRefusal;
use beam_check::CheckRefusal;
use beam_profile::ModuleRefusal;
use native_link::ImageRefusal;
use std::alloc::{AllocError, AllocFailed};

/// How a command ended, with all that its line on standard error says. A file is named as the
/// word that names it.
#[derive(Drop)]
pub enum Ending<'a> {
    /// The output was written, and this is the status of what it says: 0 to 2.
    Said(u8),
    /// The words are no command.
    Usage,
    /// The text of the arguments is refused.
    ArgsRefused(TextRefusal),
    /// The text of this file is none of a module.
    ModuleRefused(&'a str, ModuleRefusal),
    /// The modules of the files are out of the profile.
    CheckRefused(CheckRefusal),
    /// The bytes of this file are no image.
    ImageRefused(&'a str, ImageRefusal),
    /// The function with this entry and so many arguments is not exported.
    NotExported(&'a str, usize),
    /// The words of the arguments pass the limit of the heap.
    ArgsDoNotFit,
    /// This file could not be read.
    CannotRead(&'a str),
    /// The output could not be written.
    CannotWrite,
    /// There was not enough memory.
    NoMemory,
    /// The files up to this one hold more bytes than the limit.
    TooLong(&'a str),
    /// What this file asks for is none that this stage of the program does.
    NotBuilt(&'a str),
}

impl<'a> From<AllocError> for Ending<'a> {
    ghost use Rattle.hipe_core.specs.declared.ending.Ending.TheVariants.{NoMemory};
    ghost use Rattle.std.specs.Prelude.{◌≡◌};

    ghost from_gives = { λ _ r. r ≡ NoMemory };

    fn from(_error: AllocError) -> Ending<'a> {
        Ending::NoMemory
    }
}

impl<'a, T: Drop> From<AllocFailed<T>> for Ending<'a> {
    ghost use Rattle.hipe_core.specs.declared.ending.Ending.TheVariants.{NoMemory};
    ghost use Rattle.std.specs.Prelude.{◌≡◌};

    ghost from_gives = { λ _ r. r ≡ NoMemory };

    fn from(_error: AllocFailed<T>) -> Ending<'a> {
        Ending::NoMemory
    }
}
