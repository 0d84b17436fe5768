//! Trivial functions, which return an argument or a constant: their native code, the laws of it,
//! and the parts of the images of modules of such functions.
#![tactic(auto)]

mod building;
mod emitting;
mod laws;
mod trivial;

pub use building::parts;
pub use emitting::Given;
pub use laws::{
    compiled_is_an_image, trivial_functions_are_faithful, trivial_functions_are_ready,
    trivial_functions_have_meanings,
};
pub use trivial::{Origin, are_trivial};
