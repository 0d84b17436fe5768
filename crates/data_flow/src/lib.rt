//! What every path through a graph has gained, and where a node needs more: names, and a count
//! that paths spend.
#![tactic(auto)]

mod check;
mod cut;
mod flow;
mod names;
mod needed;

pub use check::first_lack;
pub use flow::{Change, Flow, Node, Point, Step};
pub use names::Names;
