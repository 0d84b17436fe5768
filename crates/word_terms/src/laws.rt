//! The law of the test.
ghost use Rattle.word_terms.specs.Standing.{WordStandsForTerm};

/// A law: the test holds of a word and a tree exactly where the word has that tree.
pub fn a_word_stands_for_a_term()
    ensures { WordStandsForTerm }
{}
