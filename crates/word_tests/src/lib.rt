//! Tests of words that stand for terms: how they are laid, compared and printed.
#![tactic(auto)]

#[cfg(test)]
mod chains;
#[cfg(test)]
mod laying;
#[cfg(test)]
mod orders;
#[cfg(test)]
mod prints;
#[cfg(test)]
mod tables;
#[cfg(test)]
mod worlds;
