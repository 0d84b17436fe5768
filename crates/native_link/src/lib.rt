//! Images of compiled modules: reading them, and what their modules ask of them.
#![tactic(auto)]

mod checking;
mod image;
mod laws;
mod places;
mod refusal;

pub use image::{Image, read_image};
pub use laws::{images_keep_their_rules, nothing_is_asked_in_vain, the_parts_are_read_again};
pub use refusal::ImageRefusal;
