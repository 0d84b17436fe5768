//! The rules on a function's paths, looked at in their order, and what its paths carry.
#![tactic(auto)]

mod check;
mod fault;
mod standing;
mod subject;

pub use check::{STATES, check_function};
pub use fault::Fault;
pub use standing::Standing;
pub use subject::Subject;
