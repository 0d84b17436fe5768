//! Raw words as safe code sees them: a list of numbers.
ghost use Rattle.std.specs.Prelude.{◌≡◌, ℕ, ◌+◌, ◌<◌, ◌≤◌, ◌^◌, List, length, replicate, slice_set, slice_get, Some, IfOk};

use crate::cells::{Base, Cells, Deed, allocate, deallocate};
use std::alloc::{AllocError, Global};
use std::marker::Model;

/// Words of 32 bits, as many as were asked for, in one block of memory that they own.
pub struct RawWords {
    alloc: Global,
    base: Base,
    len: usize,
    cells: Cells,
    deed: Deed<Global>,
}

impl Model for RawWords {
    ghost Value = { List ℕ };

    ghost view = { λ r. r.cells.words };

    ghost invariant = { λ r. (r.cells.at ≡ r.base.ptr) × (length r.cells.words ≡ r.len)
        × (r.deed.at ≡ r.base.ptr) × (r.deed.len ≡ r.len) × (r.deed.alloc ≡ r.alloc) };
}

impl Drop for RawWords {
    fn drop(self) {
        let RawWords {
            alloc,
            base,
            len,
            cells,
            deed,
        } = self;
        deallocate(&alloc, base, len, cells, deed);
    }
}

impl RawWords {
    /// `len` words, all 0. The one error is want of memory.
    pub fn zeros(alloc: Global, len: usize) -> Result<RawWords, AllocError>
        requires { len < 2 ^ 61 }
        ensures { IfOk result (λ r. r ≡ replicate len 0) }
    {
        let (base, mut cells, deed) = allocate(&alloc, len)?;
        for i in 0..len {
            cells.push(base, i, 0);
        }
        Ok(RawWords {
            alloc,
            base,
            len,
            cells,
            deed,
        })
    }

    /// How many words there are.
    pub fn len(&self) -> usize
        ensures { result ≡ length self.now }
    {
        self.len
    }

    /// All the words.
    pub fn as_slice(&self) -> &[u32]
        ensures { result.now ≡ self.now }
    {
        self.cells.slice(self.base, self.len)
    }

    /// The word at `index`.
    pub fn get(&self, index: usize) -> u32
        requires { index < length self.now }
        ensures { slice_get self.now index ≡ Some result }
    {
        self.as_slice()[index]
    }

    /// Writes `word` at `index`.
    pub fn set(&mut self, index: usize, word: u32)
        requires { index < length self.old }
        ensures { self.new ≡ slice_set self.old index word }
    {
        self.cells.put(self.base, index, word);
    }
}
