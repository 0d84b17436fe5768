//! Which names are live at which nodes of a graph.
#![tactic(auto)]

mod below;
mod graph;
mod settling;
mod words;

pub use graph::{Graph, Rows, live};
