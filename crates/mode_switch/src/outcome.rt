use beam_code::RaiseClass;

/// Why the machine could not make a step.
#[derive(Clone, Copy, PartialEq, Eq, Debug)]
pub enum FaultKind {
    /// The word at PC is no instruction.
    Illegal,
    /// An address that has to be a multiple of four bytes is not.
    Unaligned,
    /// No word is there for the access.
    Range,
    /// PC leads to no code.
    Fetch,
    /// A word that has to stand for a term does not.
    Term,
    /// A return address leads to no frame.
    Frame,
}

/// How a run ended that gave neither a value nor an exception.
#[derive(Clone, Copy, PartialEq, Eq, Debug)]
pub enum End {
    Bignum,
    HeapFull,
    StackFull,
    OutOfReductions,
    BadOperand,
    /// A call of a function of a module that is not there: the names are atom numbers.
    NotProvided {
        module: u32,
        function: u32,
        arity: u32,
    },
    /// The fault, and the address or the word that it is about.
    MachineFault {
        kind: FaultKind,
        address: u32,
    },
    StepsSpent,
    /// PC came to this address, whose meaning the machine does not have yet.
    NotBuilt {
        address: u32,
    },
}

/// How a run ended, in words: a value, an exception with its class and reason, or an end.
#[derive(Clone, Copy, PartialEq, Eq, Debug)]
pub enum Outcome {
    Returned(u32),
    Raised { class: RaiseClass, reason: u32 },
    Ended(End),
}

/// What one step leads to: the run goes on, or it is over.
#[derive(Clone, Copy, PartialEq, Eq, Debug)]
pub enum Step {
    Still,
    Done(Outcome),
}
