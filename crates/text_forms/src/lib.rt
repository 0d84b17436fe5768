//! Terms and forms over tokens: how they are written, and where reading them stands after each token.
#![tactic(auto)]

mod form;
mod grammar;
mod place;
mod refusal;
mod steps;

pub use form::Form;
pub use place::{Last, Looseness, Open, Place, Stand};
pub use refusal::TextRefusal;
pub use steps::{before, refusal_at, take};
