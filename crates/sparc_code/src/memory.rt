//! The memory that loads and stores reach.

/// A memory of words at byte addresses.
///
/// `words` is what it holds: an address with a word, or none. `stores` is which addresses a store reaches, and `stored`
/// the memory that a store there leaves.
pub trait WordMemory {
    ghost use Rattle.std.specs.Prelude.{ℕ, ◌≡◌, Bool, Option, Some, IsTrue, IsSome, nat_eq, if◌then◌else◌};

    ghost words: { Self → ℕ → Option ℕ };

    ghost stores: { Self → ℕ → Bool };

    ghost stored: { Self → ℕ → ℕ → Self };

    /// The word at an address.
    fn load(&self, addr: u32) -> Option<u32>
        ensures { result ≡ words self.now addr };

    /// Puts a word at an address, where stores reach it. One that is refused changes nothing.
    fn store(&mut self, addr: u32, w: u32) -> bool
        ensures done { result ≡ stores self.old addr }
        ensures memory { self.new ≡ (if result then stored self.old addr w else self.old) };

    // Where a store reaches there is a word.
    ghost holds_what_it_stores: { (m : Self) (a : ℕ) → IsTrue (stores m a) → IsSome (words m a) };

    // A store changes the word at its address alone, and no store changes where stores reach.
    ghost changes_one_word: { (m : Self) (at w a : ℕ) → IsTrue (stores m at) → words (stored m at w) a ≡ (if nat_eq a at then Some w else words m a) };

    ghost keeps_places: { (m : Self) (at w a : ℕ) → IsTrue (stores m at) → stores (stored m at w) a ≡ stores m a };
}
