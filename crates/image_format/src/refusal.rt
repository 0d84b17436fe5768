ghost use Rattle.std.specs.Prelude.{◌≡◌, ◌↔◌, ℕ, List, Err};
ghost use Rattle.image_format.specs.Places.{IsRefused};
ghost use Rattle.image_format.specs.Reading.{reading};
ghost use Rattle.image_format.specs.Cursor.{FieldFault};
ghost use Rattle.image_format.specs.declared.refusal.FormatRefusal.TheVariants.{Field, Memory};
ghost use Rattle.std.specs.Prelude.{alloc_error};

use std::alloc::{AllocError, AllocFailed};
use thiserror::Error;

/// What is wrong with a field of an image.
#[derive(Clone, Copy, PartialEq, Eq, Debug)]
pub enum Flaw {
    /// The first word is not that of an image.
    Magic,
    /// The version is not 1.
    Version,
    /// The bytes do not hold the field whole.
    Short,
    /// A count or a length passes its limit, or there is no module.
    Count,
    /// The field has a value that it may not have.
    Value,
    /// A number does not ascend.
    Order,
    /// Bytes follow the last field.
    Long,
}

impl Flaw {
    /// The refusal of the field at this offset.
    pub(crate) fn at(self, offset: u32) -> FormatRefusal
        ensures { result ≡ Field self offset }
    {
        FormatRefusal::Field { flaw: self, offset }
    }
}

/// Why bytes have no parts.
#[derive(Debug, Drop, Error)]
pub enum FormatRefusal {
    /// The first field that breaks its rule. `offset` is the place of its first byte, in bytes
    /// from 0.
    #[error("a field breaks its rule")]
    Field { flaw: Flaw, offset: u32 },
    #[error("want of memory")]
    Memory(AllocError),
}

impl From<AllocError> for FormatRefusal {
    ghost from_gives = { λ _ e. e ≡ Memory alloc_error };

    fn from(e: AllocError) -> FormatRefusal {
        FormatRefusal::Memory(e)
    }
}

impl<T: Drop> From<AllocFailed<T>> for FormatRefusal {
    ghost from_gives = { λ _ e. e ≡ Memory alloc_error };

    fn from(_e: AllocFailed<T>) -> FormatRefusal {
        FormatRefusal::Memory(AllocError)
    }
}

/// Bytes are refused with a flaw at an offset exactly where the bytes before that offset are whole
/// fields which keep their rules, and the field there breaks its own rule in the way that the flaw
/// names.
pub fn refusals_are_of_fields()
    ensures { (bytes : List ℕ) (e : FieldFault) → (reading bytes ≡ Err e) ↔ IsRefused bytes e }
{}
