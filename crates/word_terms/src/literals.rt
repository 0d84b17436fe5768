//! Literal words as words of terms, with no heap beside them.
ghost use Rattle.std.specs.Prelude.{◌≡◌};

use std::marker::Model;
use tagged_words::{HEAP_START, LITERAL_START, Words};

/// The literal words of an image, at addresses from 0x08000000 up, where no heap is.
#[derive(Drop)]
pub struct LiteralWords<'a> {
    words: &'a [u32],
}

impl<'a> Model for LiteralWords<'a> {
    ghost use Rattle.std.specs.Prelude.{List, ℕ};

    ghost Value = { List ℕ };

    ghost view = { λ m. m.words.now };
}

impl<'a> LiteralWords<'a> {
    /// These words, the first one at 0x08000000.
    pub fn new(words: &'a [u32]) -> LiteralWords<'a>
        ensures { result ≡ words.now }
    {
        LiteralWords { words }
    }
}

impl<'a> Words for LiteralWords<'a> {
    ghost use Rattle.std.proofs.Common.{arith};
    ghost use Rattle.word_terms.specs.Literals.{literal_store};

    ghost store = { λ m. literal_store m };

    fn word(&self, addr: u32) -> Option<u32> {
        if addr % 4 != 0 || addr < LITERAL_START || addr >= HEAP_START {
            return None;
        }
        self.words
            .get(((addr - LITERAL_START) / 4) as usize)
            .copied()
    }

    ghost has_addresses = { Prim.grind arith };
}
