//! What it means that an image does what its texts say, and what such an image prints.
#![tactic(auto)]

ghost use Rattle.faithful_image.specs.Line.{FaithfulRunsPrintTheirMeaning};

/// A law: what a run on a faithful image prints of a call is the line of the call's meaning.
pub fn faithful_runs_print_their_meaning()
    ensures { FaithfulRunsPrintTheirMeaning }
{}
