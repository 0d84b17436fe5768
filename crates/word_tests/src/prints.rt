//! The texts of words.

use crate::orders::{ODD_HEAP, ODD_LITERALS};
use crate::worlds::{atoms, lay, store};
use hand_words::HandWords;
use std::alloc::Global;
use std::test::Fail;
use tagged_words::Atoms;
use word_walks::{Scratch, WordText, word_text};

/// Terms by their texts, and how many nodes they have.
const PRINTED: [(&str, u32); 18] = [
    ("0", 1),
    ("-134217728", 1),
    ("a", 1),
    ("''", 1),
    ("'A b'", 1),
    ("'EXIT'", 1),
    ("'\\x{E9}'", 1),
    ("[]", 1),
    ("{}", 1),
    ("[1]", 3),
    ("[1|2]", 3),
    ("[1,2]", 5),
    ("[1,2|{}]", 5),
    ("{1,a,'A b'}", 4),
    ("[1,{2,a}|b]", 7),
    ("{{},{1,{2}},[]}", 7),
    ("[[],[[]]]", 7),
    ("[{},[{[]}|a],b]", 10),
];

/// What is printed of a word.
pub(crate) fn printed(
    alloc: Global,
    words: &HandWords,
    atoms: &Atoms,
    word: u32,
    budget: u32,
) -> Result<String, Fail> {
    let mut scratch = Scratch::new(alloc, words.count() + 1)?;
    match word_text(alloc, words, atoms, word, budget, &mut scratch)? {
        WordText::Text { text, nodes } => Ok(format!(in alloc; "{} of {nodes}", text.as_str())?),
        WordText::Large => Ok(String::from_str(alloc, "large")?),
        WordText::NotATerm { word } => Ok(format!(in alloc; "bad {word:#x}")?),
    }
}

/// Whether a term is printed with just its nodes for a budget, and is large for one node less.
fn is_printed(
    alloc: Global,
    words: &HandWords,
    atoms: &Atoms,
    word: u32,
    text: &str,
    nodes: u32,
) -> Result<bool, Fail> {
    let wanted = format!(in alloc; "{text} of {nodes}")?;
    let whole = printed(alloc, words, atoms, word, nodes)?;
    let less = printed(alloc, words, atoms, word, nodes.saturating_sub(1))?;
    Ok(whole.as_str() == wanted.as_str() && less.as_str() == "large")
}

#[test]
fn words_have_the_texts_of_their_terms(rt: HostRuntime) -> Result<(), Fail> {
    let alloc = rt.alloc();
    let atoms = atoms(alloc)?;
    let mut words = HandWords::new(alloc, 0, 256)?;
    for (text, nodes) in PRINTED.iter() {
        let word = lay(alloc, &mut words, &atoms, text)?.unwrap_or(0);
        assert!(rt;
            is_printed(alloc, &words, &atoms, word, text, *nodes)?,
            "{text}"
        );
    }
    Ok(())
}

/// Words of the odd store, budgets, and what is printed.
const ODD_TEXTS: [(u32, u32, &str); 30] = [
    (0x1F, 0, "large"),
    (0x1F, 1, "1 of 1"),
    (0x1000_0001, 2, "large"),
    (0x1000_0001, 3, "[1] of 3"),
    // a bad word behind the last node of the budget, and one behind a node past the budget
    (0x00, 0, "bad 0x0"),
    (0x1000_000A, 0, "large"),
    (0x1000_000A, 1, "large"),
    (0x1000_000A, 2, "bad 0x0"),
    (0x1000_0016, 2, "large"),
    (0x1000_0016, 3, "bad 0x80"),
    (0x1000_003D, 1, "large"),
    (0x1000_003D, 2, "bad 0x7"),
    // a bad head comes before the tail
    (0x1000_0045, 0, "large"),
    (0x1000_0045, 1, "bad 0x7"),
    // pointers that don't lead below their own cell
    (0x1000_0025, 2, "bad 0x10000025"),
    (0x1000_0025, 0xFFFF_FFFF, "bad 0x10000025"),
    (0x1000_002D, 2, "bad 0x10000035"),
    // an atom past the table, and the last one that is in it
    (0x1000_0035, 1, "bad 0x50b"),
    (0x4CB, 1, "'\\x{E9}' of 1"),
    // a literal, one that is cut off, and a header that is none
    (0x0800_0001, 3, "[1] of 3"),
    (0x1000_004D, 4, "large"),
    (0x1000_004D, 5, "[[1]] of 5"),
    (0x1000_0055, 1, "bad 0x800000a"),
    (0x1000_005D, 1, "bad 0x10000002"),
    // cells that are cut off by the end of the heap, and one that would begin among the literals
    (0x1000_0079, 0, "bad 0x10000079"),
    (0x1000_0072, 0, "bad 0x10000072"),
    (0x1000_0075, 9, "[1|2] of 3"),
    (0x1000_007D, 9, "bad 0x1000007d"),
    (0x0FFF_FFFD, 9, "bad 0xffffffd"),
    (0x1000_0003, 9, "bad 0x10000003"),
];

#[test]
fn odd_words_are_printed_as_far_as_they_go(rt: HostRuntime) -> Result<(), Fail> {
    let alloc = rt.alloc();
    let atoms = atoms(alloc)?;
    let words = store(alloc, &ODD_LITERALS, &ODD_HEAP)?;
    for (word, budget, wanted) in ODD_TEXTS.iter() {
        let found = printed(alloc, &words, &atoms, *word, *budget)?;
        assert_eq!(rt; found.as_str(), *wanted, "{word:#x} {budget}");
    }
    Ok(())
}
