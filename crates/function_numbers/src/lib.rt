//! The numbers of functions, looked up by module, name and arity without memory.
#![tactic(auto)]

mod exports;
mod functions;
mod key;
mod names;
mod numbers;

pub use numbers::FunctionNumbers;
