// What the product reads and writes: files and sinks as it sees them, whole files in, whole pieces
// of bytes out, and stand-ins in memory.
#![tactic(auto)]

mod failures;
mod mem_files;
mod mem_sink;
mod outside;
mod reading;
mod safe_files;
mod safe_sink;
mod stored_file;
mod writing;

pub use mem_files::MemFiles;
pub use mem_sink::MemSink;
pub use outside::{Failed, Files, Sink};
pub use reading::{ReadRefusal, read_file};
pub use safe_files::SafeFiles;
pub use safe_sink::SafeSink;
pub use writing::{SinkFault, put};
