//! The constants of modules: atoms by number, the words of literals, and the word that stands for each.
#![tactic(auto)]

mod adding;
mod building;
mod knowing;
mod laws;
mod laying;
mod mentioning;
mod parts;

pub use adding::{add_atoms, add_row};
pub use building::{MOST_NAMES, constants, terms_can_stand};
pub use knowing::are_known;
pub use laws::{constants_hold, known_mentions_have_names, short_texts_have_room};
pub use laying::lay_term;
pub use mentioning::{Mention, mentions};
pub use parts::Constants;
