//! What holds of each answer.

ghost use Rattle.command_laws.specs.Faults.{FaultsHaveTheirCause};
ghost use Rattle.command_laws.specs.Settled.{TheStatusIsThatOfTheCause};

/// A law: a command that no fault came into, over files that are there and a sink with room for its
/// output, answers neither 7 nor 8.
pub fn faults_have_their_cause()
    ensures { FaultsHaveTheirCause }
{}

/// A law: two commands that ask the same, over files that tell the same bytes, have one status, if
/// neither status is 7, 8 or 9.
pub fn the_status_is_that_of_the_cause()
    ensures { TheStatusIsThatOfTheCause }
{}
