//! One form of a module's text as an instruction.
#![tactic(auto)]

mod form;
mod part;
mod parts;
mod rows;

pub use form::{FormRefusal, read_form};
pub use part::{Fault, Got, Look, arity, atom, behind, list, number, shaped, tuple};
pub use parts::Parts;
pub use rows::{Op, View};
