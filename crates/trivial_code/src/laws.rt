// The laws of trivial functions.

ghost use Rattle.trivial_code.specs.Compiled.{CompiledIsAnImage};
ghost use Rattle.trivial_code.specs.Image.{TrivialFunctionsAreFaithful, TrivialFunctionsAreReady, TrivialFunctionsHaveMeanings};

/// A law: an image in which each function is trivial, and in native form, does what its texts say.
pub fn trivial_functions_are_faithful()
    ensures { TrivialFunctionsAreFaithful }
{}

/// A law: the functions of modules that are checked and all trivial read nothing but their
/// arguments, and x0 behind a move.
pub fn trivial_functions_are_ready()
    ensures { TrivialFunctionsAreReady }
{}

/// A law: where each function is trivial, a call has an outcome as its meaning, and no row on the
/// way to it is stuck.
pub fn trivial_functions_have_meanings()
    ensures { TrivialFunctionsHaveMeanings }
{}

/// A law: what is compiled of modules meets the rules of an image, has what they ask for, and does
/// what their texts say, each function natively.
pub fn compiled_is_an_image()
    ensures { CompiledIsAnImage }
{}
