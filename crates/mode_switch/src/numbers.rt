//! The numbers of the machine, as users read them.

ghost use Rattle.mode_switch.specs.Numbers.{TheNumbersAre};

/// What each number of the machine is.
pub fn the_numbers_are()
    ensures { TheNumbersAre }
{}
