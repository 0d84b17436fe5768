use asm_text::TextRefusal;
use std::alloc::{AllocError, AllocFailed};
use term_tree::Name;
use thiserror::Error;

/// Why a text is that of no module, with the line of the form or of the item.
#[derive(Drop, Debug, Error)]
pub enum ModuleRefusal {
    #[error("text")]
    Text(TextRefusal),
    /// The form is out of its rule, or a form is missing.
    #[error("shape")]
    Shape { line: u32 },
    /// No instruction, test or built-in has this name.
    #[error("unsupported")]
    Unsupported { line: u32, name: Name },
    /// A number is past its limit.
    #[error("register")]
    Register { line: u32 },
    /// The item defines a label again, or names one that its function lacks.
    #[error("label")]
    Label { line: u32 },
    #[error("want of memory")]
    Memory(AllocError),
}

impl From<AllocError> for ModuleRefusal {
    ghost use Rattle.beam_profile.specs.declared.refusal.ModuleRefusal.TheVariants.{Memory};
    ghost use Rattle.std.specs.Prelude.{◌≡◌};

    ghost from_gives = { λ e r. r ≡ Memory e };

    fn from(error: AllocError) -> ModuleRefusal {
        ModuleRefusal::Memory(error)
    }
}

impl<T: Drop> From<AllocFailed<T>> for ModuleRefusal {
    ghost use Rattle.beam_profile.specs.declared.refusal.ModuleRefusal.TheVariants.{Memory};
    ghost use Rattle.std.specs.Prelude.{◌≡◌, alloc_error};

    ghost from_gives = { λ _ r. r ≡ Memory alloc_error };

    fn from(error: AllocFailed<T>) -> ModuleRefusal {
        ModuleRefusal::Memory(AllocError::from(error))
    }
}
