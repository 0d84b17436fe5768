//! Words of a store against terms of the code: whether a word stands for a given one.
#![tactic(auto)]

mod laws;
mod literals;
mod standing;

pub use laws::a_word_stands_for_a_term;
pub use literals::LiteralWords;
pub use standing::stands_for;
