//! Modules of BEAM assembly read from their texts.
#![tactic(auto)]

mod header;
mod labels;
mod module;
mod refusal;
mod sequence;

pub use module::{LAST_INDEX, read_module};
pub use refusal::ModuleRefusal;
