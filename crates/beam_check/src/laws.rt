// The number of states that a search keeps.

ghost use Rattle.std.specs.Prelude.{◌≡◌};
ghost use Rattle.function_check.specs.declared.check.TheConstants.{STATES};

/// How many states beside one an item a search keeps while it looks for the lowest item that breaks
/// `Undefined` or `HeapUncovered`.
pub fn the_numbers_are()
    ensures { STATES ≡ 65536 }
{}
