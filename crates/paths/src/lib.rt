//! Paths through a graph of points, and the rules that end them: definitions and lemmas alone.
#![tactic(auto)]
