//! The built-ins on words: what they answer, and the law that where words stand for terms they answer as on these.
#![tactic(auto)]

mod answer;
mod bits;
mod gates;
mod integers;
mod laws;
mod lists;
mod looking;
mod orders;
mod shallow;
mod tuples;

pub use answer::PrimAnswer;
pub use gates::gate;
pub use laws::built_ins_answer_as_on_terms;
