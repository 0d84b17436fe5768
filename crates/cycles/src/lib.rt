//! Which nodes of a graph lie on a cycle, and an order in which nodes lead to earlier ones.
#![tactic(auto)]

mod depth;
mod finding;
mod ranking;

pub use depth::order;
pub use finding::lowest;
