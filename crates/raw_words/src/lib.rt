//! Raw words of 32 bits in memory of their own, which they give back.
#![tactic(auto)]

mod cells;
mod raw;

pub use raw::RawWords;
