//! The lowest item of a function on a cycle of the moves that its paths make.
#![tactic(auto)]

mod finding;

pub use finding::{Loops, find_loops};
