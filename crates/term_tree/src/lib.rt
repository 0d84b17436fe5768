//! Terms of the language as trees: names, terms in canonical form, and the model that all
//! meanings speak of.
#![tactic(auto)]

mod comparing;
mod laws;
mod name;
mod printing;
mod term;
mod text;

pub use comparing::compare;
pub use laws::{a_tree_has_one_term, bytes_go_as_characters, order_is_total};
pub use name::{MOST_CHARACTERS, Name, NameRefusal};
pub use printing::term_text;
pub use term::Term;
pub use text::name_text;
