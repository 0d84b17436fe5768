use term_tree::Term;

/// A term of a text. `line` is that of its first token, from 1.
#[derive(Drop)]
pub struct Form {
    pub line: u32,
    pub term: Term,
}
