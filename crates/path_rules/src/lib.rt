//! The rules on the paths of a function.
#![tactic(auto)]

mod built_ins;
mod fits;
mod frame;
mod frame_paths;
mod frame_table;
mod index;
mod labels;
mod laws;
mod limits;
mod lookup;
mod named;
mod prepared;
mod raising;
mod rule;
mod same;
mod search;
mod sites;
mod tag;
mod walk;

pub use frame::FramePoint;
pub use frame_paths::FramePaths;
pub use frame_table::{Frame, frames_of};
pub use index::Index;
pub use labels::labels_of;
pub use laws::{paths_end, paths_keep_rules, paths_stay, the_numbers_are};
pub use limits::{MOST_FUNCTION_UNITS, MOST_MODULES, MOST_UNITS};
pub use rule::Rule;
pub use search::search_frames;
pub use sites::Sites;
pub use tag::{Tag, TagKind};
