use std::alloc::AllocError;
use text_tokens::Kind;
use thiserror::Error;

/// Why a text is not read. Lines count from 1.
#[derive(Debug, Drop, Error)]
pub enum TextRefusal {
    /// The token in this line cannot stand there, is no token, or is missing at the text's end.
    #[error("syntax")]
    Syntax { line: u32 },
    /// An integer of more than 28 bits.
    #[error("wide integer")]
    Wide { line: u32 },
    /// A token of a kind that is not read.
    #[error("kind")]
    Kind { line: u32, kind: Kind },
    /// The 201st open bracket.
    #[error("deep")]
    Deep { line: u32 },
    #[error("want of memory")]
    Memory(AllocError),
}
