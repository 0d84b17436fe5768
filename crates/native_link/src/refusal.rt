ghost use Rattle.native_link.specs.Image.{of_format};
ghost use Rattle.std.specs.Prelude.{◌≡◌};

use beam_check::CheckRefusal;
use beam_profile::ModuleRefusal;
use image_format::{Flaw, FormatRefusal};
use std::alloc::AllocError;
use thiserror::Error;

/// Why bytes are no image.
#[derive(Debug, Drop, Error)]
pub enum ImageRefusal {
    /// A field breaks its rule, or what the modules ask of it. `offset` is the place of its first
    /// byte, in bytes from 0.
    #[error("a field is wrong")]
    Field { flaw: Flaw, offset: u32 },
    /// The first text that is none of a module, by its place from 0, and why.
    #[error("a text is none of a module")]
    Module { index: u32, refusal: ModuleRefusal },
    /// The modules are out of the profile.
    #[error("the modules are out of the profile")]
    Check(CheckRefusal),
    #[error("want of memory")]
    Memory(AllocError),
}

impl From<FormatRefusal> for ImageRefusal {
    ghost from_gives = { λ e r. r ≡ of_format e };

    fn from(refusal: FormatRefusal) -> ImageRefusal {
        match refusal {
            FormatRefusal::Field { flaw, offset } => ImageRefusal::Field { flaw, offset },
            FormatRefusal::Memory(e) => ImageRefusal::Memory(e),
        }
    }
}
