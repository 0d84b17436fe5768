//! Walks over words that stand for terms: their order, and their text.
#![tactic(auto)]

mod comparing;
mod laws;
mod printing;
mod rows;
mod scratch;
mod shown;
mod walk;

pub use comparing::{NotATerm, compare_words};
pub use laws::{whole_terms_are_spelt, whole_terms_compare};
pub use printing::{WordText, word_text};
pub use scratch::Scratch;
