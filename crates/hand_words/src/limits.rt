//! How many words there are at most.

/// The most words of the heap.
pub const MOST_HEAP: u32 = 16_777_216;
/// The most literal words: as many as lie below the heap.
pub const MOST_LITERALS: u32 = 33_554_432;
