//! The rules on the registers that paths define and on the heap words that they ask for, as flows.
#![tactic(auto)]

mod ask;
mod names;
mod nodes;
mod ranges;
mod registers;
mod way;
mod ways;

pub use ask::{Source, first_broken};
