//! Reads texts of terms: forms, each a term and a dot, and the arguments of a call, one list.
#![tactic(auto)]

mod entry;
mod laws;
mod reading;

pub use entry::{is_entry, read_entry};
pub use laws::{
    a_text_has_one_reading, arguments_have_one_reading, readings_are_those_of_the_rules,
};
pub use reading::{read_args, read_forms};
pub use text_forms::{Form, TextRefusal};
pub use text_tokens::Kind;
