//! Words of 32 bits: what their low bits mean, and regions of them.
#![tactic(auto)]

mod addresses;
mod atoms;
mod block;
mod kind;
mod laws;
mod look;
mod table;
mod words;

pub use addresses::{HEAP_START, LITERAL_START, MOST_ATOM_NUMBERS};
pub use atoms::{Atoms, has_first_atoms};
pub use block::WordBlock;
pub use kind::Class;
pub use laws::{a_name_has_its_number, one_thing_is_seen, something_is_seen, trees_stay};
pub use look::{Look, look_at};
pub use table::{atom, class, header, small};
pub use words::{HeapWords, Words};
