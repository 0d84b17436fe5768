//! Modules of their texts, checked against the profile.
#![tactic(auto)]

mod checked;
mod checking;
mod laws;

pub use checked::Checked;
pub use checking::check;
pub use laws::the_numbers_are;
pub use module_check::CheckRefusal;
pub use path_rules::Rule;
