//! Tests of `beam_check`: texts that break each rule at the item that is named, beside texts that keep it.
#![tactic(auto)]

#[cfg(test)]
mod checks;
#[cfg(test)]
mod rows_of_rules;
