//! The way back of a walk: what is still to be looked at.
ghost use Rattle.std.specs.Prelude.{◌≡◌, ◌<◌, IfOk, Some, length, replicate, slice_get, slice_set};

use std::alloc::{AllocError, Global};
use std::marker::Model;

/// What the rest of a cell is for the text of a term.
#[derive(Clone, Copy, Drop, PartialEq, Eq)]
pub(crate) enum Inside {
    /// The head and the tail of a cons, or its tail, or its closing bracket.
    List,
    /// All elements of a tuple and its closing brace.
    Elements,
    /// The elements behind the first and the closing brace.
    Others,
}

/// The words of a cell that are still to be looked at: where the next one lies, the address of its cell, and how many
/// there are. A comparison has as many on its right side, and the text of a term says what they are.
#[derive(Clone, Copy, Drop)]
pub(crate) struct Row {
    pub(crate) left: u32,
    pub(crate) left_cell: u32,
    pub(crate) right: u32,
    pub(crate) right_cell: u32,
    pub(crate) count: u32,
    pub(crate) inside: Inside,
}

/// A row that no walk has used.
pub(crate) const BLANK: Row = Row {
    left: 0,
    left_cell: 0,
    right: 0,
    right_cell: 0,
    count: 0,
    inside: Inside::List,
};

/// Memory for the walks, 28 bytes an entry, so that they take none. A walk uses one entry at most for each word of the
/// store, and one more. Between two walks each entry keeps one word for whoever wants it.
#[derive(Drop)]
pub struct Scratch {
    pub(crate) rows: Vec<Row>,
    words: Vec<u32>,
}

impl Model for Scratch {
    ghost use Rattle.std.specs.Prelude.{List, ℕ, ◌≡◌, length};

    ghost Value = { List ℕ };

    ghost view = { λ s. s.words.items };

    ghost invariant = { λ s. length s.rows.items ≡ length s.words.items };
}

impl Scratch {
    /// So many entries, each of which keeps 0. The one error is want of memory.
    pub fn new(alloc: Global, entries: u32) -> Result<Scratch, AllocError>
        ensures { IfOk result (λ scratch. scratch ≡ replicate entries 0) }
    {
        let rows = vec![in alloc; BLANK; entries as usize]?;
        let words = vec![in alloc; 0; entries as usize]?;
        Ok(Scratch { rows, words })
    }

    /// How many entries there are.
    pub fn len(&self) -> usize
        ensures { result ≡ length self.now }
    {
        self.words.len()
    }

    /// The word that an entry keeps.
    pub fn kept(&self, entry: u32) -> u32
        requires { entry < length self.now }
        ensures { slice_get self.now entry ≡ Some result }
    {
        self.words[entry as usize]
    }

    /// Has an entry keep a word.
    pub fn keep(&mut self, entry: u32, word: u32)
        requires { entry < length self.old }
        ensures { self.new ≡ slice_set self.old entry word }
    {
        self.words[entry as usize] = word;
    }
}
