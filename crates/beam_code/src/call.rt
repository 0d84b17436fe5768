/// What a run may use: reductions (one an activation of a function), heap words and stack words.
#[derive(Clone, Copy, PartialEq, Eq, Debug)]
pub struct Limits {
    pub reductions: u32,
    pub heap: u32,
    pub stack: u32,
}

/// The class of an exception.
#[derive(Clone, Copy, PartialEq, Eq, Debug)]
pub enum RaiseClass {
    Error,
    Exit,
    Throw,
}
