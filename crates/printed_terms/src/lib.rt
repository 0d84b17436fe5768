//! The laws of printed terms: what a term prints is read back as that term.
#![tactic(auto)]

mod laws;

pub use laws::{no_two_terms_print_alike, printed_is_read, printed_words_are_read};
