//! The laws of images that are read.

ghost use Rattle.native_link.specs.Laws.{ImagesKeepTheirRules, NothingIsAskedInVain, ThePartsAreReadAgain};

/// A law: of each image the atoms, literals and roots hold for its modules, its native functions
/// are theirs, and no descriptor has a wrong field.
pub fn images_keep_their_rules()
    ensures { ImagesKeepTheirRules }
{}

/// A law: where that holds of parts and modules, the modules ask for nothing in vain.
pub fn nothing_is_asked_in_vain()
    ensures { NothingIsAskedInVain }
{}

/// A law: reading the spelling of parts that keep all rules answers these parts with the modules
/// of their texts, or want of memory.
pub fn the_parts_are_read_again()
    ensures { ThePartsAreReadAgain }
{}
