use crate::{Body, Functions};
use sqlite_items::Items;
use term_tree::Name;

/// Which kind of handler encloses a place in a function: none, a `try` or a `catch`.
#[derive(Clone, Copy, PartialEq, Eq, Debug)]
pub enum HandlerKind {
    None,
    Try,
    Catch,
}

/// A function. `entry` is the index, in `items`, of the item where its calls begin.
#[derive(Drop, Debug)]
pub struct Function {
    pub name: Name,
    pub arity: u8,
    pub entry: u32,
    pub items: Body,
}

/// The most bytes of a module's text, and of the texts of several together.
pub const MOST_TEXT_BYTES: usize = 4_194_304;

/// A module, with the bytes of the text that it was read from. The terms of its functions are
/// canonical.
#[derive(Drop, Debug)]
pub struct Module {
    pub name: Name,
    /// The exported functions by name and arity, in the order of the text.
    pub exports: Items<(Name, u8)>,
    pub functions: Functions,
    pub text: Items<u8>,
}
