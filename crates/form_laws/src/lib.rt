//! Laws of forms: what is read is written so, and what is written so is read.
#![tactic(auto)]
