ghost use Rattle.mode_switch.specs.Text.{OneLineIsSaid};

/// A law: one line alone, with its status, is said of an outcome.
#[tactic(auto, using(crate::proofs::Lines::one_line))]
pub fn one_line_is_said()
    ensures { OneLineIsSaid }
{}
