//! The numbers of the format (`docs/FORMAT.md`).

/// The first word of every image: the letters `HIPE`.
pub const MAGIC: u32 = 0x48495045;
/// The version of the format.
pub const VERSION: u32 = 1;
/// The most modules of an image.
pub const MOST_MODULES: u32 = 16_384;
/// The most atoms of an image.
pub const MOST_ATOMS: u32 = 33_554_432;
/// The most literal words of an image.
pub const MOST_LITERALS: u32 = 33_554_432;
/// The most native functions of an image.
pub const MOST_NATIVES: u32 = 262_144;
/// The most code words of an image.
pub const MOST_CODE: u32 = 16_777_216;
/// The most descriptors of an image.
pub const MOST_DESCRIPTORS: u32 = 1_048_576;
/// The most words of a frame.
pub const MOST_FRAME: u32 = 513;
/// The most bytes of an image that is read.
pub const MOST_IMAGE_BYTES: usize = 536_870_912;
/// The address of the first item of all functions: an address an item, four bytes apart.
pub const ITEM_START: u32 = 0x0200_0000;
/// The address of the first code word of an image.
pub const CODE_START: u32 = 0x0400_0000;
