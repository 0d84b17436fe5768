//! The files and the output streams of the system, as the product sees them.
#![tactic(auto)]

mod real_files;
mod stream;

pub use real_files::RealFiles;
pub use stream::Stream;
