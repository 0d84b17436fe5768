//! The parts of an image, their one spelling as bytes, and the reading of bytes as parts.
#![tactic(auto)]

mod limits;
mod numbers;
mod parts;
mod reader;
mod reading;
mod refusal;
mod writing;

pub use limits::{
    CODE_START, ITEM_START, MAGIC, MOST_ATOMS, MOST_CODE, MOST_DESCRIPTORS, MOST_FRAME,
    MOST_IMAGE_BYTES, MOST_LITERALS, MOST_MODULES, MOST_NATIVES, VERSION,
};
pub use numbers::the_numbers_are;
pub use parts::{Descriptor, Native, Parts};
pub use reader::padding_of;
pub use reading::read_parts;
pub use refusal::{Flaw, FormatRefusal, refusals_are_of_fields};
pub use writing::image_bytes;
