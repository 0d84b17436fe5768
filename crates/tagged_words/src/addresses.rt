//! Where cells lie, in bytes, and how many atoms have words.

/// The address of the first literal word.
pub const LITERAL_START: u32 = 0x0800_0000;
/// The address of the first word of the heap: no literal reaches it.
pub const HEAP_START: u32 = 0x1000_0000;
/// How many numbers of atoms there are: the word of an atom has 26 bits for it.
pub const MOST_ATOM_NUMBERS: u32 = 67_108_864;
