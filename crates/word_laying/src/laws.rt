ghost use Rattle.word_laying.specs.Laws.{AsManyAreLaid, RegionsStay, WrittenWordsAreRead};

/// A law: words that were written in a region are read there, and all other addresses read as
/// before.
pub fn written_words_are_read()
    ensures read { WrittenWordsAreRead }
    ensures stay { RegionsStay }
{}

/// A law: as many words are laid as the term takes.
pub fn as_many_words_are_laid()
    ensures { AsManyAreLaid }
{}
