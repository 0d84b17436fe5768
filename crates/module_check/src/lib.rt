//! Modules that are checked against the profile, and what is asked of them.
#![tactic(auto)]

mod check;
mod duplicate;
mod entries;
mod entry;
mod refusal;
mod size;
mod table;

pub use check::check_modules;
pub use refusal::CheckRefusal;
pub use table::FunctionTable;
