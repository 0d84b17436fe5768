ghost use Rattle.ir_code.specs.Laws.{KnownMentionsHaveNames, ShortTextsHaveRoom, TheyHold};

/// A law: the constants of modules hold, where the modules have room for them and their literals
/// are terms. The names are a table, all that is mentioned has its names there, and the word of
/// each literal operand stands for it.
pub fn constants_hold()
    ensures { TheyHold }
{}

/// A law: modules whose texts have at most 4,194,304 bytes together have room for their constants.
pub fn short_texts_have_room()
    ensures { ShortTextsHaveRoom }
{}

/// A law: `are_known` answers whether each thing that is mentioned has its names in the table.
pub fn known_mentions_have_names()
    ensures { KnownMentionsHaveNames }
{}
