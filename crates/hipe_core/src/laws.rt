//! What holds of compiling and running together.

ghost use Rattle.hipe_core.specs.Meaning.{CompiledRunsPrintTheirMeaning, CompiledImagesAreRead};
ghost use Rattle.hipe_core.specs.Numbers.{TheNumbersAre};

/// A law: a run on the image that is compiled of texts prints the line that these mean, with its
/// status.
pub fn compiled_runs_print_their_meaning()
    ensures { CompiledRunsPrintTheirMeaning }
{}

/// A law: the image that is compiled of texts is read as one of their modules, unless memory is
/// wanting; and each call that fits of a function that these export is run.
pub fn compiled_images_are_read()
    ensures { CompiledImagesAreRead }
{}

/// A law: the numbers of the command line.
pub fn the_numbers_are()
    ensures { TheNumbersAre }
{}
