//! A region of raw words in memory of its own.
ghost use Rattle.std.specs.Prelude.{◌≡◌, ℕ, ◌+◌, ◌*◌, ◌%◌, ◌^◌, ◌≤◌, Option, None, IfOk, length};
ghost use Rattle.std.specs.Option.{option_copied};
ghost use Rattle.tagged_words.specs.Region.{Region, zeros_from, place_of, word_at, words_at, has_word, with_word};

use raw_words::RawWords;
use std::alloc::{AllocError, Global};
use std::marker::Model;

/// What one byte left over adds to a place: more than any region has words.
const LEFT_OVER: u32 = 0x4000_0000;

/// Words of 32 bits at the addresses from a start upwards, four bytes apart, in memory that the
/// block owns and gives back when it is dropped.
#[derive(Drop)]
pub struct WordBlock {
    low: u32,
    words: RawWords,
}

impl Model for WordBlock {
    ghost Value = { Region };

    ghost view = { λ b. record { start = b.low; words = b.words } };

    ghost invariant = { λ b. (b.low % 4 ≡ 0) × (b.low + 4 * length b.words ≤ 2 ^ 31) };
}

impl WordBlock {
    /// A block of `words` words from the address `low` upwards, all 0. The one error is want of
    /// memory.
    pub fn new(alloc: Global, low: u32, words: u32) -> Result<WordBlock, AllocError>
        requires aligned { low % 4 ≡ 0 }
        requires within { low + 4 * words ≤ 2 ^ 31 }
        ensures zeros { IfOk result (λ b. b ≡ zeros_from low words) }
    {
        let words = RawWords::zeros(alloc, words as usize)?;
        Ok(WordBlock { low, words })
    }

    /// The address behind the last word.
    pub fn end(&self) -> u32
        ensures is { result ≡ self.now.start + 4 * length self.now.words }
        ensures aligned { self.now.start % 4 ≡ 0 }
        ensures within { result ≤ 2 ^ 31 }
    {
        self.low + 4 * self.words.len() as u32
    }

    /// The word at `addr`, or none for an address that is no multiple of 4 or outside of the block.
    pub fn get(&self, addr: u32) -> Option<u32>
        ensures { result ≡ word_at self.now addr }
    {
        let place = self.place(addr)?;
        Some(self.words.get(place))
    }

    /// Writes `w` at `addr`; false, with nothing changed, exactly where `get` answers none.
    pub fn set(&mut self, addr: u32, w: u32) -> bool
        ensures done { result ≡ has_word self.old addr }
        ensures words { self.new ≡ with_word self.old addr w }
    {
        match self.place(addr) {
            Some(place) => {
                self.words.set(place, w);
                true
            }
            None => false,
        }
    }

    /// The `n` words from `addr` upwards; none exactly where `addr` is not a multiple of 4 or one
    /// of them is not in the region.
    pub fn slice(&self, addr: u32, n: u32) -> Option<&[u32]>
        ensures { option_copied result ≡ words_at self.now addr n }
    {
        if n == 0 {
            return if addr % 4 == 0 {
                Some(&self.words.as_slice()[..0])
            } else {
                None
            };
        }
        let from = self.place(addr)?;
        let count = n as usize;
        if count > self.words.len() - from {
            return None;
        }
        Some(&self.words.as_slice()[from..from + count])
    }

    /// Which word lies at `addr`, if one does. One comparison decides: of the distance from the
    /// start, four words are one step and the bytes left over go to the top, past every region.
    fn place(&self, addr: u32) -> Option<usize>
        ensures { result ≡ place_of self.now addr }
    {
        let offset = addr.wrapping_sub(self.low);
        let place = (offset / 4 + offset % 4 * LEFT_OVER) as usize;
        if place < self.words.len() {
            Some(place)
        } else {
            None
        }
    }
}
