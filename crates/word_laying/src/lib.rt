//! Terms are laid as words in a region of memory, elements first.
#![tactic(auto)]

mod counting;
mod laws;
mod laying;
mod words;

pub use counting::{words_of, words_of_row};
pub use laws::{as_many_words_are_laid, written_words_are_read};
pub use laying::{Laid, NoRoom, lay};
