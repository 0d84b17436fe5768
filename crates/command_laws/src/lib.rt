//! Laws of what a command answers.
#![tactic(auto)]

mod laws;

pub use laws::{faults_have_their_cause, the_status_is_that_of_the_cause};
