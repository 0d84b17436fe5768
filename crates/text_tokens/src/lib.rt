//! Cuts bytes into the tokens of texts of terms.
#![tactic(auto)]

mod character;
mod class;
mod cutting;
mod digits;
mod escape;
mod laws;
mod quoted;
mod token;

pub use class::{Class, passes, run};
pub use cutting::{bare_atom, one_byte_token, piece, quoted_piece};
pub use escape::{Spelled, quoted_character};
pub use laws::{a_token_is_the_longest, quotes_join_their_characters, tokens_follow_their_pieces};
pub use token::{Kind, Piece, Reason, Token};
