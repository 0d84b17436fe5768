//! Runs of machines that step, and the laws of such runs: definitions and lemmas alone.
#![tactic(auto)]
