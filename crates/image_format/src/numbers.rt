//! The numbers of the format, as users read them.

ghost use Rattle.image_format.specs.Numbers.{TheNumbersAre};

/// What each number of the format is.
pub fn the_numbers_are()
    ensures { TheNumbersAre }
{}
