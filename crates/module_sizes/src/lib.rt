//! The module of a text has no more names, literals, words of literals, exports, functions and
//! items than the bytes of the text allow.
#![tactic(auto)]

ghost use Rattle.module_sizes.specs.Within.{SizesAreWithin};

/// Of the module of a text of n bytes there are at most n names, n literal operands and 2n words in
/// them together, n exports, n functions and n items. Repeats count.
pub fn sizes_are_within_the_text()
    ensures { SizesAreWithin }
{}
