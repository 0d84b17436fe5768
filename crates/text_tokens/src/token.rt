use sqlite_items::Items;
use term_tree::{Name, Term};

/// What a text may not use.
#[derive(Clone, Copy, Debug)]
pub enum Kind {
    Float,
    Based,
    Character,
    Binary,
    Map,
}

/// A token by its spelling. `Wide`, `Float`, `OpenMap` and `Arrow` have a meaning in loose places
/// alone.
#[derive(Drop)]
pub enum Token {
    /// An integer of 28 bits.
    Integer(i32),
    /// An integer of more bits.
    Wide,
    Float,
    Atom(Name),
    /// A string: the code points between its quotes.
    Text(Items<Term>),
    OpenTuple,
    OpenList,
    /// The mark `#{`.
    OpenMap,
    CloseBrace,
    CloseBracket,
    Comma,
    Bar,
    Arrow,
    Dot,
}

/// Why bytes are refused whatever stands before them.
#[derive(Clone, Copy)]
pub enum Reason {
    Syntax,
    OfKind(Kind),
}

/// What stands at the front of some bytes, with its size in bytes.
#[derive(Drop)]
pub enum Piece {
    /// A separator or a comment.
    Blank(usize),
    Whole(Token, usize),
    Bad(Reason),
}
