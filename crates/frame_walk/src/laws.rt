//! The laws of walks.

ghost use Rattle.frame_walk.specs.Law.{WalksEnd, WalksGoByFrames};

/// A law: a walk gives the frame of each return address in turn, whose slots are the words of the stack, to the stop
/// address or to a return address that leads to no frame, where it breaks once.
pub fn walks_go_by_frames()
    ensures { WalksGoByFrames }
{}

/// A law: a walk gives no more frames than the stack has words.
pub fn walks_end()
    ensures { WalksEnd }
{}
