use path_rules::Rule;
use std::alloc::{AllocError, AllocFailed};
use term_tree::Name;
use thiserror::Error;

/// Why modules are out of the profile.
#[derive(Drop, Debug, Error)]
pub enum CheckRefusal {
    /// The first module whose name came before.
    #[error("two modules with one name")]
    Duplicate {
        module: Name,
    },
    /// There are more modules, or more units in a function or in all, than the limits allow.
    #[error("too many modules or units")]
    TooMany,
    /// The first rule that the first such function breaks, and the lowest item where it does,
    /// counted from 0.
    #[error("a rule is broken")]
    Broken {
        rule: Rule,
        module: Name,
        function: Name,
        arity: u8,
        item: u32,
    },
    /// There is not enough memory; or a function breaks `Undefined` or `HeapUncovered` and its
    /// paths come to more states than a search keeps.
    #[error("want of memory")]
    Memory(AllocError),
}

impl From<AllocError> for CheckRefusal {
    ghost use Rattle.module_check.specs.declared.refusal.CheckRefusal.TheVariants.{Memory};
    ghost use Rattle.std.specs.Prelude.{◌≡◌};

    ghost from_gives = { λ e r. r ≡ Memory e };

    fn from(error: AllocError) -> CheckRefusal {
        CheckRefusal::Memory(error)
    }
}

impl<T: Drop> From<AllocFailed<T>> for CheckRefusal {
    ghost use Rattle.module_check.specs.declared.refusal.CheckRefusal.TheVariants.{Memory};
    ghost use Rattle.std.specs.Prelude.{◌≡◌, alloc_error};

    ghost from_gives = { λ _ r. r ≡ Memory alloc_error };

    fn from(error: AllocFailed<T>) -> CheckRefusal {
        CheckRefusal::Memory(AllocError::from(error))
    }
}
