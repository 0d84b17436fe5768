//! The words that terms are looked up in.

ghost use Rattle.mode_switch.specs.Store.{extent};
ghost use Rattle.std.specs.Prelude.{◌≡◌, ◌+◌, ◌*◌, ◌^◌, ◌≤◌, length};
ghost use Rattle.tagged_words.specs.declared.addresses.TheConstants.{HEAP_START as FIRST};

use crate::memory::literal_at;
use tagged_words::{HEAP_START, WordBlock, Words};

/// The literal words, and the words of a heap whose address lies below its top.
#[derive(Drop)]
pub(crate) struct UsedWords<'a> {
    literals: &'a [u32],
    heap: &'a WordBlock,
    top: u32,
    ghost start: { heap.now.start ≡ FIRST },
    ghost low: { FIRST + 4 * length heap.now.words ≤ 2 ^ 32 },
}

impl<'a> UsedWords<'a> {
    /// The words of a heap that begins where heaps do.
    pub(crate) fn new(literals: &'a [u32], heap: &'a WordBlock, top: u32) -> UsedWords<'a>
        requires start { heap.now.start ≡ FIRST }
        requires low { FIRST + 4 * length heap.now.words ≤ 2 ^ 32 }
        ensures literals { result.literals.now ≡ literals.now }
        ensures heap { result.heap.now ≡ heap.now }
        ensures top { result.top ≡ top }
    {
        UsedWords {
            literals,
            heap,
            top,
        }
    }
}

impl<'a> Words for UsedWords<'a> {
    ghost use Rattle.mode_switch.specs.Store.{below_top};
    ghost use Rattle.std.proofs.Common.{arith};
    ghost use Rattle.std.proofs.lemmas.List.{length-take};

    ghost store = { λ m. record { literals = m.literals.now; heap = below_top m.top m.heap.now.words } };

    fn word(&self, addr: u32) -> Option<u32> {
        if addr < HEAP_START {
            literal_at(self.literals, addr)
        } else if addr < self.top {
            self.heap.get(addr)
        } else {
            None
        }
    }

    ghost has_addresses = { Prim.grind (arith, length-take) };
}
