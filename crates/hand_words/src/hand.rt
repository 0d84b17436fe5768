//! Literals and a heap whose words are written by hand.
ghost use Rattle.hand_words.specs.Fitting.{IsFitting};
ghost use Rattle.hand_words.specs.Hand.{has_literal, used_store, with_literal, with_laid};
ghost use Rattle.hand_words.specs.declared.limits.TheConstants.{MOST_HEAP, MOST_LITERALS};
ghost use Rattle.std.specs.Prelude.{◌≡◌, ◌+◌, ◌-◌, ◌*◌, ◌≤◌, ◌↔◌, [], length, replicate, IfOk, IsOk, OnErr, OnOk};
ghost use Rattle.tagged_words.specs.declared.addresses.TheConstants.{HEAP_START, LITERAL_START};
ghost use Rattle.tagged_words.specs.Laid.{word_for};
ghost use Rattle.tagged_words.specs.Store.{words_in};
ghost use Rattle.term_tree.specs.Size as size;
ghost use Rattle.term_tree.specs.Term.{tree_of};

use crate::limits::{MOST_HEAP, MOST_LITERALS};
use std::alloc::{AllocError, Global};
use tagged_words::{Atoms, HEAP_START, HeapWords, LITERAL_START, WordBlock, Words};
use term_tree::Term;
use word_laying::{NoRoom, lay};

/// Literal words, and a heap of which the first words are used.
#[derive(Drop)]
pub struct HandWords {
    literals: WordBlock,
    heap: WordBlock,
    used: u32,
    ghost literals_start: { literals.start ≡ LITERAL_START },
    ghost heap_start: { heap.start ≡ HEAP_START },
    ghost few_literals: { length literals.words ≤ MOST_LITERALS },
    ghost few: { length heap.words ≤ MOST_HEAP },
    ghost within: { used ≤ length heap.words },
}

impl HandWords {
    /// So many literal words, all 0, and an empty heap with room for so many words. The one error is
    /// want of memory.
    pub fn new(alloc: Global, literals: u32, heap: u32) -> Result<HandWords, AllocError>
        requires literals { literals ≤ MOST_LITERALS }
        requires heap { heap ≤ MOST_HEAP }
        ensures store { IfOk result (λ words. used_store words.literals words.heap words.used ≡ record { literals = replicate literals 0; heap = [] }) }
        ensures room { IfOk result (λ words. length words.heap.words - words.used ≡ heap) }
    {
        let literals = WordBlock::new(alloc, LITERAL_START, literals)?;
        let heap = WordBlock::new(alloc, HEAP_START, heap)?;
        Ok(HandWords {
            literals,
            heap,
            used: 0,
        })
    }

    /// How many words there are: all literals, and those of the heap that are used.
    pub fn count(&self) -> u32
        ensures is { result ≡ words_in (used_store self.now.literals self.now.heap self.now.used) }
        ensures few { result ≤ MOST_LITERALS + MOST_HEAP }
    {
        (self.literals.end() - LITERAL_START) / 4 + self.used
    }

    /// Writes a literal word; false, with nothing changed, exactly where none lies at the address.
    pub fn set_literal(&mut self, addr: u32, w: u32) -> bool
        ensures done { result ≡ has_literal self.old.literals addr }
        ensures literals { self.new.literals ≡ with_literal self.old.literals addr w }
        ensures heap { self.new.heap ≡ self.old.heap }
        ensures used { self.new.used ≡ self.old.used }
    {
        self.literals.set(addr, w)
    }

    /// Lays a term at the top of the heap, and gives its word. Nothing changes where the heap has no
    /// room for all of its words.
    pub fn lay(&mut self, term: &Term, atoms: &Atoms) -> Result<u32, NoRoom>
        requires fits { IsFitting atoms.now (tree_of term.now) }
        ensures room { IsOk result ↔ (size.words_of (tree_of term.now) ≤ length self.old.heap.words - self.old.used) }
        ensures word { IfOk result (λ w. w ≡ word_for atoms.now (HEAP_START + 4 * self.new.used) (tree_of term.now)) }
        ensures store { OnOk result (used_store self.new.literals self.new.heap self.new.used
            ≡ with_laid atoms.now (used_store self.old.literals self.old.heap self.old.used) (tree_of term.now)) }
        ensures used { OnOk result (self.new.used ≡ self.old.used + size.words_of (tree_of term.now)) }
        ensures kept { OnErr result (self.new ≡ self.old) }
    {
        let at = self.top();
        let laid = lay(&mut self.heap, at, term, atoms)?;
        self.used = (laid.next - HEAP_START) / 4;
        Ok(laid.word)
    }
}

impl Words for HandWords {
    ghost use Rattle.hand_words.specs.Fitting.{IsFitting};
    ghost use Rattle.hand_words.specs.Hand.{used_store};
    ghost use Rattle.std.proofs.Common.{arith};
    ghost use Rattle.std.proofs.lemmas.List.{length-take};

    ghost store = { λ m. used_store m.literals m.heap m.used };

    fn word(&self, addr: u32) -> Option<u32> {
        if addr < HEAP_START {
            self.literals.get(addr)
        } else if addr < HEAP_START + 4 * self.used {
            self.heap.get(addr)
        } else {
            None
        }
    }

    ghost has_addresses = { Prim.grind (arith, length-take) };
}

impl HeapWords for HandWords {
    ghost use Rattle.std.proofs.Common.{arith};
    ghost use Rattle.std.proofs.lemmas.List.{length-take};
    ghost use Rattle.std.specs.Prelude.{◌≡◌, ◌+◌, ◌-◌, ◌*◌, length};
    ghost use Rattle.tagged_words.specs.Region.{with_word};
    ghost use Rattle.tagged_words.specs.declared.addresses.TheConstants.{HEAP_START};

    ghost room = { λ m. length m.heap.words - m.used };

    ghost end = { λ m. HEAP_START + 4 * m.used };

    ghost Grows = { λ m w n. (n.literals ≡ m.literals) × (n.heap ≡ with_word m.heap (HEAP_START + 4 * m.used) w) × (n.used ≡ m.used + 1) };

    fn top(&self) -> u32 {
        HEAP_START + 4 * self.used
    }

    fn left(&self) -> u32 {
        (self.heap.end() - HEAP_START) / 4 - self.used
    }

    fn push(&mut self, w: u32) -> bool {
        if !self.heap.set(HEAP_START + 4 * self.used, w) {
            return false;
        }
        self.used += 1;
        true
    }

    ghost grows_at_its_end = { Prim.grind (arith, length-take) };

    ghost has_room = { Prim.grind arith };

    ghost stays_below = { Prim.grind arith };
}
