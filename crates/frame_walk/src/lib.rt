//! The frames of a stack that native and emulated functions share, innermost first.
#![tactic(auto)]

mod frame;
mod laws;
mod unwinding;
mod walking;

pub use frame::{Broken, Frame, STOP_ADDRESS, Target};
pub use laws::{walks_end, walks_go_by_frames};
pub use unwinding::unwind;
pub use walking::FrameWalk;
