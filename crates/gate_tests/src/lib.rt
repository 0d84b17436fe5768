//! Tests of the built-ins on words: what each answers of operands that are given by their texts.
#![tactic(auto)]

#[cfg(test)]
mod answers;
#[cfg(test)]
mod integers;
#[cfg(test)]
mod made;
#[cfg(test)]
mod orders;
#[cfg(test)]
mod terms;
#[cfg(test)]
mod worlds;
