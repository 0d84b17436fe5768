//! The block of memory behind the words: where it begins, who owns its words, and who may free it.
ghost use Rattle.std.specs.Prelude.{◌≡◌, ℕ, ◌+◌, ◌*◌, ◌^◌, ◌<◌, List, [], ◌∷◌, ◌++◌, length, slice_set, IfOk, ⊤};
ghost use Rattle.std.specs.Borrow.{sem};
ghost use base.Fml.{ftrue};
ghost use denote.RawPtr.{Ptr};
ghost use Rattle.raw_words.specs.Ownership.{words_own, words_lent, deed_owns, FitsBlock};

use std::alloc::{AllocError, Allocator};
use std::marker::{Model, PhantomData};
use std::slice;

/// Where the block begins. It owns nothing.
pub struct Base {
    ptr: *mut u32,
}

impl Clone for Base {
    ghost is_clone = { λ x y. y ≡ x };

    ghost is_infallible = { λ _. ⊤ };

    fn clone(&self) -> Result<Base, AllocError> {
        Ok(*self)
    }
}

impl Copy for Base {}

/// The owner of a block's words: the first of them are written, and there is room for more behind
/// them. It takes no space.
pub struct Cells {
    mark: PhantomData<*const u32>,
    ghost at: { Ptr },
    ghost words: { List ℕ },
    ghost room: { ℕ },
}

impl Model for Cells {
    ghost also_owns = { λ c. words_own c.at c.words c.room };

    ghost also_shares = { λ c _ κ. words_lent c.at c.words c.room κ };
}

/// The right to give the block of `len` words at `at` back to `alloc`. It takes no space.
pub struct Deed<A: Allocator> {
    mark: PhantomData<*const A>,
    ghost at: { Ptr },
    ghost len: { ℕ },
    ghost alloc: { A },
}

impl<A: Allocator> Model for Deed<A> {
    ghost also_owns = { λ d. deed_owns (A.dealloc_token d.alloc) d.at d.len };

    ghost also_shares = { λ _ _ _. ftrue };
}

/// A block with room for `len` words, none of them written.
pub(crate) fn allocate<A: Allocator>(
    alloc: &A,
    len: usize,
) -> Result<(Base, Cells, Deed<A>), AllocError>
    requires { FitsBlock len }
    ensures { IfOk result (λ r. (r.1.at ≡ r.0.ptr) × (r.1.words ≡ []) × (r.1.room ≡ len)
        × (r.2.at ≡ r.0.ptr) × (r.2.len ≡ len) × (r.2.alloc ≡ alloc.now)) }
{
    match alloc.allocate(len * 4, 4) {
        Ok(block) => {
            let base = Base {
                ptr: block as *mut u32,
            };
            Ok((
                base,
                Cells { mark: PhantomData },
                Deed { mark: PhantomData },
            ))
        }
        Err(error) => Err(error),
    }
}

/// Gives the block back, when all its words are written.
pub(crate) fn deallocate<A: Allocator>(
    alloc: &A,
    base: Base,
    len: usize,
    cells: Cells,
    deed: Deed<A>,
)
    requires { (cells.at ≡ base.ptr) × (length cells.words ≡ len)
        × (deed.at ≡ base.ptr) × (deed.len ≡ len) × (deed.alloc ≡ alloc.now) }
{
    let Cells { mark: _ } = cells;
    let Deed { mark: _ } = deed;
    unsafe {
        alloc.deallocate(base.ptr as *mut u8, len * 4, 4);
    }
}

impl Cells {
    /// Writes the first word that is not written yet, at `index`.
    pub(crate) fn push(&mut self, base: Base, index: usize, word: u32)
        requires { (base.ptr ≡ self.old.at) × (index ≡ length self.old.words)
            × (0 < self.old.room) }
        ensures { (self.new.at ≡ self.old.at) × (self.new.words ≡ self.old.words ++ word ∷ [])
            × (self.new.room + 1 ≡ self.old.room) }
    {
        unsafe { base.ptr.add(index).write(word) }
    }

    /// Writes over the word at `index`.
    pub(crate) fn put(&mut self, base: Base, index: usize, word: u32)
        requires { (base.ptr ≡ self.old.at) × (index < length self.old.words) }
        ensures { (self.new.at ≡ self.old.at) × (self.new.words ≡ slice_set self.old.words index word)
            × (self.new.room ≡ self.old.room) }
    {
        unsafe { *base.ptr.add(index) = word }
    }

    /// The words that are written, of which there are `len`.
    pub(crate) fn slice(&self, base: Base, len: usize) -> &[u32]
        requires { (base.ptr ≡ self.now.at) × (len ≡ length self.now.words) }
        ensures { result.now ≡ self.now.words }
    {
        unsafe { slice::from_raw_parts(base.ptr, len) }
    }
}
