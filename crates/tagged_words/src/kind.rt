//! What a word may be.

/// What the low bits of a word say that it is. An address is a multiple of 4 only where a cell
/// lies there: the class of a word doesn't look at memory.
#[derive(Clone, Copy, Drop, PartialEq, Eq)]
pub enum Class {
    /// An integer from -134,217,728 to 134,217,727.
    Small(i32),
    /// The number of an atom, below 67,108,864.
    Atom(u32),
    /// The empty list.
    Nil,
    /// The address of a cons.
    Cons(u32),
    /// The address of a tuple.
    Boxed(u32),
    /// No term by itself, as a header.
    Other,
}
