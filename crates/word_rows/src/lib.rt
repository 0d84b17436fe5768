//! The items of an image as rows on words: each with its operands found, its labels as addresses and its names as numbers.
#![tactic(auto)]

mod building;
mod calls;
mod items;
mod labels;
mod lookup;
mod named;
mod operands;
mod row;
mod setting;
mod targets;

pub use building::rows;
pub use row::{Branch, Piece, Row, Source, Spot};
