use crate::Form;
use sqlite_items::Items;
use term_tree::Term;

/// Brackets with terms between commas.
#[derive(Clone, Copy)]
pub enum Brackets {
    Tuple,
    List,
    /// Those of the list of arguments.
    Arguments,
}

/// A mark between terms.
#[derive(Clone, Copy)]
pub enum Mark {
    Comma,
    Bar,
    Arrow,
}

/// A construct that has begun and has not ended, with the terms that it has so far.
#[derive(Drop)]
pub enum Open {
    /// A form, outside all brackets.
    Form,
    /// Arguments, outside their brackets.
    Arguments,
    Terms(Brackets, Items<Term>),
    /// A list after its `|`.
    Tail(Items<Term>),
    /// A map where a key stands.
    Key,
    /// A map where a value stands.
    Value,
}

/// What stands last in the innermost open construct.
#[derive(Drop)]
pub enum Last {
    /// Its opening bracket.
    Bracket,
    /// Nothing, or a mark after which a term has to come.
    Mark,
    Term(Term),
    /// A string, which a further string joins.
    Text(Items<Term>),
}

/// A place in a form, or in arguments.
#[derive(Drop)]
pub struct Place {
    /// The open constructs around the innermost one, from the outside in: one for each open bracket.
    pub outer: Items<Open>,
    pub inner: Open,
    pub last: Last,
}

/// How far a form begins as `{'%',` does, after which all its places are loose.
#[derive(Clone, Copy)]
pub enum Looseness {
    /// No token of the form has come.
    Start,
    Brace,
    Percent,
    Loose,
    Strict,
}

/// Where a reading stands after some tokens.
#[derive(Drop)]
pub struct Stand {
    pub forms: Items<Form>,
    pub place: Place,
    pub looseness: Looseness,
    /// The line of the form's first token, once it has one.
    pub line: u32,
}
