//! Literals and a heap whose words are written by hand: what tests walk over and benchmarks lay terms in.
#![tactic(auto)]

mod fitting;
mod hand;
mod limits;

pub use fitting::can_be_laid;
pub use hand::HandWords;
pub use limits::{MOST_HEAP, MOST_LITERALS};
