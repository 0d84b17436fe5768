//! The compiler and the command line: all that the program does.
#![tactic(auto)]

mod asking;
mod checking;
mod commands;
mod compiling;
mod ending;
mod files;
mod laws;
mod running;
mod saying;

pub use commands::command;
pub use compiling::compile;
pub use ending::Ending;
pub use laws::{compiled_images_are_read, compiled_runs_print_their_meaning, the_numbers_are};

#[cfg(test)]
mod tests;
