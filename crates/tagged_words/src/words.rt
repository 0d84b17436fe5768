//! Words that can be read by their addresses, and a heap that grows.

ghost use Rattle.tagged_words.specs.Store.{Store, word_of, with_pushed};

/// The words of terms: literals at addresses from 0x08000000, and the used heap from 0x10000000 up, each one region
/// without gaps.
///
/// `store` is what there is.
pub trait Words {
    ghost use Rattle.std.specs.Prelude.{ℕ, ◌≡◌, ◌+◌, ◌*◌, ◌^◌, ◌≤◌, length};
    ghost use Rattle.tagged_words.specs.declared.addresses.TheConstants.{HEAP_START};

    ghost store: { Self → Store };

    /// The word at an address, or none for an address that is no multiple of 4 or in neither region.
    fn word(&self, addr: u32) -> Option<u32>
        ensures { result ≡ word_of (store self.now) addr };

    // each word of the heap has an address below 2^32
    ghost has_addresses: { (w : Self) → HEAP_START + 4 * length (store w).heap ≤ 2 ^ 32 };
}

/// Words whose heap grows at its top, one word at a time.
///
/// `room` is how many words can be pushed still, at most 16,777,216; `end` the address where the next one goes, which is
/// the end of the heap wherever there is room. `Grows` tells all that there is once a word was pushed, what lies beside
/// the store included.
pub trait HeapWords: Words {
    ghost use Rattle.std.specs.Prelude.{ℕ, ◌≡◌, ◌+◌, ◌-◌, ◌*◌, ◌^◌, ◌<◌, ◌≤◌, Bool, true, false, IsTrue, nat_lt, length};
    ghost use Rattle.tagged_words.specs.declared.addresses.TheConstants.{HEAP_START};

    ghost room: { Self → ℕ };

    ghost end: { Self → ℕ };

    ghost Grows: { Self → ℕ → Self → Type 0 };

    /// The address of the word that is pushed next.
    fn top(&self) -> u32
        ensures { result ≡ end self.now };

    /// How many words can be pushed still.
    fn left(&self) -> u32
        ensures { result ≡ room self.now };

    /// Puts a word on the top of the heap; false, with nothing changed, exactly where no room is left.
    fn push(&mut self, w: u32) -> bool
        ensures done { result ≡ nat_lt 0 (room self.old) }
        ensures full { result ≡ false → self.new ≡ self.old }
        ensures grows { result ≡ true → Grows self.old w self.new }
        ensures words { result ≡ true → Self.store self.new ≡ with_pushed (Self.store self.old) w }
        ensures top { result ≡ true → end self.new ≡ end self.old + 4 }
        ensures left { result ≡ true → room self.new + 1 ≡ room self.old };

    // where there is room, the next word goes behind the last one of the heap
    ghost grows_at_its_end: { (w : Self) → 0 < room w → end w ≡ HEAP_START + 4 * length (Self.store w).heap };

    ghost has_room: { (w : Self) → room w ≤ 16777216 };

    ghost stays_below: { (w : Self) → 0 < room w → end w + 4 * room w ≤ 2 ^ 31 };
}
