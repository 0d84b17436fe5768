//! What is read of a text has its registers in range.
#![tactic(auto)]

ghost use Rattle.std.specs.Prelude.{ℕ};
ghost use Rattle.form_ranges.specs.Ranges.{FunctionsAreRead, IsLast, ReadInRange};

/// Each form that is read is an instruction whose registers are in range.
#[tactic(auto, using(crate::proofs::Rows::read_in_range))]
pub fn what_is_read_is_in_range()
    ensures { (last : ℕ) → IsLast last → ReadInRange last }
{}

/// Each function of the module that a text gives has its registers in range, and its calls begin at
/// one of its items.
pub fn functions_are_read()
    ensures { FunctionsAreRead }
{}
