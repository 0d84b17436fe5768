use beam_check::CheckRefusal;
use beam_profile::ModuleRefusal;
use std::alloc::{AllocError, AllocFailed};
use thiserror::Error;

/// Why texts are none of modules in the profile.
#[derive(Drop, Debug, Error)]
pub enum TextsRefusal {
    /// The first text that is none of a module, by its place from 0, and why.
    #[error("a text is none of a module")]
    Module {
        index: usize,
        refusal: ModuleRefusal,
    },
    /// Each text is one of a module, but these are out of the profile.
    #[error("modules are out of the profile")]
    Check(CheckRefusal),
    #[error("want of memory")]
    Memory(AllocError),
}

impl From<AllocError> for TextsRefusal {
    ghost use Rattle.module_texts.specs.declared.refusal.TextsRefusal.TheVariants.{Memory};
    ghost use Rattle.std.specs.Prelude.{◌≡◌};

    ghost from_gives = { λ e r. r ≡ Memory e };

    fn from(error: AllocError) -> TextsRefusal {
        TextsRefusal::Memory(error)
    }
}

impl<T: Drop> From<AllocFailed<T>> for TextsRefusal {
    ghost use Rattle.module_texts.specs.declared.refusal.TextsRefusal.TheVariants.{Memory};
    ghost use Rattle.std.specs.Prelude.{◌≡◌, alloc_error};

    ghost from_gives = { λ _ r. r ≡ Memory alloc_error };

    fn from(error: AllocFailed<T>) -> TextsRefusal {
        TextsRefusal::Memory(AllocError::from(error))
    }
}
