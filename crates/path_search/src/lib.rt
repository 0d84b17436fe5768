//! A search for all the points that paths come to, whatever a point is, the lowest item where a
//! rule is broken, and the moves that paths make from item to item.
#![tactic(auto)]

mod found;
mod noting;
mod rounds;
mod walk;

pub use noting::steps;
pub use rounds::{Stop, search};
pub use walk::Walk;
