//! Texts read as modules, in order, and checked together.
#![tactic(auto)]

mod reading;
mod refusal;

pub use reading::check_texts;
pub use refusal::TextsRefusal;
