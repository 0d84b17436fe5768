//! Rows on words.

use beam_code::Few;

/// Where a row finds a word or puts one: the x register with a number, from 0 to 255; or a slot of the function's frame,
/// counted in words from the stack pointer.
#[derive(Clone, Copy, PartialEq, Eq, Debug)]
pub enum Spot {
    X(u16),
    Slot(u32),
}

/// What a row reads: what is at a spot, or a word.
#[derive(Clone, Copy, PartialEq, Eq, Debug)]
pub enum Source {
    At(Spot),
    Word(u32),
}

impl Default for Source {
    fn default() -> Source {
        Source::Word(0)
    }
}

/// Which part of a term is moved: all of it, the head or the tail of a cons, or an element of a tuple, counted from 0.
#[derive(Clone, Copy, PartialEq, Eq, Debug)]
pub enum Piece {
    Whole,
    Head,
    Tail,
    Element(u32),
}

/// A branch of a selection: the word or the number of elements that takes it, and the address where it leads.
#[derive(Clone, Copy, PartialEq, Eq, Debug)]
pub struct Branch {
    pub key: u32,
    pub to: u32,
}

impl Default for Branch {
    fn default() -> Branch {
        Branch { key: 0, to: 0 }
    }
}

/// What an item does on words (`docs/MACHINE.md`, Items). Addresses are those of code. A frame is counted in words.
#[derive(Drop, Debug)]
pub enum Row {
    /// No code: no path comes to the item.
    Nothing,
    /// The entry of a function with this frame.
    Enters(u32),
    /// Nothing is done.
    Passes,
    /// A part of a term goes to a spot.
    Moves(Source, Piece, Spot),
    /// Head and tail of a cons go to two spots.
    Splits(Source, Spot, Spot),
    /// Two spots exchange their words.
    Swaps(Spot, Spot),
    /// A new cons.
    Conses(Source, Source, Spot),
    /// A new tuple.
    Tuples(Few<Source>, Spot),
    /// On where the test with a number holds, else to an address.
    Tests(u32, Few<Source>, u32),
    /// To the first branch of the same word, else to an address.
    SelectsWord(Source, Few<Branch>, u32),
    /// The same by the number of elements of a tuple.
    SelectsSize(Source, Few<Branch>, u32),
    /// To an address.
    Jumps(u32),
    /// So many words are asked of the heap.
    Asks(u32),
    /// The built-in with a number, and where it goes on after a failure, if it does not raise.
    Computes(u32, Few<Source>, Option<u32>, Spot),
    /// A call that leads to an address, and the frame that it gives back, if it leaves its function.
    Calls(u32, Option<u32>),
    /// A call of the built-in with a number, and the same.
    CallsBuiltIn(u32, Option<u32>),
    /// A call of no given module: the atoms of module and function by number, and the arity.
    NotProvided(u32, u32, u32),
    /// A return, which gives this frame back.
    Returns(u32),
    /// An error with a word as its reason.
    Raises(u32),
    /// An error with a pair of a word and a term as its reason.
    RaisesPair(u32, Source),
    /// An exception of a class and a reason that are given.
    RaisesGiven(Source, Source),
    /// An exception of the class in x0 and the reason in x1.
    RaisesRaw,
}
