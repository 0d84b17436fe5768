//! The ranges of addresses, in bytes, and the greatest sizes (`docs/MACHINE.md`).

/// The address of gate 0, where a return from the outermost call leads.
pub const GATE_START: u32 = 0x0100_0000;
/// How many gates have an address.
pub const GATES: u32 = 256;
/// The address of the x area: no heap reaches it.
pub const X_START: u32 = 0x2000_0000;
/// How many words the x area has.
pub const X_WORDS: u32 = 256;
/// No stack reaches down to this address.
pub const STACK_FLOOR: u32 = 0x3000_0000;
/// The address behind the stack.
pub const STACK_END: u32 = 0x4000_0000;
/// The link of the outermost call: a return leads to gate 0.
pub const STOP_LINK: u32 = 0x00FF_FFF8;

/// The most reductions of a call.
pub const MOST_REDUCTIONS: u32 = 1_000_000_000;
/// The most words of a heap, and of a stack.
pub const MOST_WORDS: u32 = 16_777_216;
/// The most items of all functions of an image: the addresses of so many end where code begins,
/// and the texts of an image have bytes for fewer.
pub const MOST_ITEMS: u32 = 8_388_608;
