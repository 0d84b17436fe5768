//! What a built-in answers.
ghost use Rattle.prim_gates.specs.Reply as replies;
ghost use Rattle.prim_gates.specs.Said.{said};
ghost use Rattle.std.specs.Prelude.{◌≡◌};

use tagged_words::atom;

/// What a built-in answers.
#[derive(Clone, Copy, Drop, PartialEq, Eq)]
pub enum PrimAnswer {
    /// The word of its value.
    Value(u32),
    /// It fails, or raises its first argument: the number of the class's atom, 0, 1 or 2, and the word of the reason.
    Raise { class: u32, reason: u32 },
    /// Its value is an integer that doesn't fit 28 bits.
    Bignum,
    /// Its value wants more words than are left.
    HeapFull,
    /// It looked at this word, which stands for no term.
    Fault { word: u32 },
}

/// The numbers of the atoms of truths, which the machine itself makes.
pub(crate) const TRUE: u32 = 4;

pub(crate) const FALSE: u32 = 5;

/// The answer of a built-in that is true or false.
pub(crate) fn says(truth: bool) -> PrimAnswer
    ensures { said result ≡ replies.says truth }
{
    if truth {
        PrimAnswer::Value(atom(TRUE))
    } else {
        PrimAnswer::Value(atom(FALSE))
    }
}

/// The word of atom `badarith`, whose number is 6, and the one of `badarg`, whose number is 7.
const BADARITH_WORD: u32 = 395;

const BADARG_WORD: u32 = 459;

/// The numbers of the classes `error`, `exit` and `throw`.
pub(crate) const ERROR: u32 = 0;

pub(crate) const EXIT: u32 = 1;

pub(crate) const THROW: u32 = 2;

/// Raises `badarith`.
pub(crate) const BADARITH: PrimAnswer = PrimAnswer::Raise {
    class: ERROR,
    reason: BADARITH_WORD,
};

/// Raises `badarg`.
pub(crate) const BADARG: PrimAnswer = PrimAnswer::Raise {
    class: ERROR,
    reason: BADARG_WORD,
};
