//! Rows and meanings of the language that are worked by hand, as laws: that the definitions mean what
//! was meant.
#![tactic(auto)]

mod laws;
mod meanings;
mod rows;

pub use laws::{
    built_ins_fail_by_their_rows, built_ins_give_terms, built_ins_make_their_words,
    gates_have_their_numbers, item_terms_are_canonical, items_raise_through_their_gates,
    module_terms_are_canonical, rows_are_well_said, rows_have_their_numbers,
    rows_raise_through_gates,
};
pub use meanings::{
    allocations, arithmetic, calls_of_functions, choices, exceptions, registers, runs, values,
};
pub use rows::{asks_the_heap, calls, enters, events, raises, returns_and_ends, uses};
