//! The order of words.

use crate::worlds::{atoms, lay, store};
use hand_words::{HandWords, MOST_LITERALS};
use std::alloc::Global;
use std::cmp::Ordering;
use std::test::Fail;
use tagged_words::{Atoms, HeapWords, Look, look_at};
use word_walks::{NotATerm, Scratch, compare_words};

/// Terms in their order.
const ORDERED: [&str; 36] = [
    "-134217728",
    "-1",
    "0",
    "134217727",
    "''",
    "'A b'",
    "'EXIT'",
    "a",
    "aa",
    "b",
    "badarg",
    "error",
    "'\\x{E9}'",
    "{}",
    "{1}",
    "{{}}",
    "{[]}",
    "{[1]}",
    "{0,0}",
    "{1,a}",
    "{1,[]}",
    "{2,0}",
    "[]",
    "[0|5]",
    "[0|a]",
    "[0|{}]",
    "[0]",
    "[0,-1]",
    "[0,1|a]",
    "[0,1]",
    "[0,1,0]",
    "[1|0]",
    "[1]",
    "[{}]",
    "[[]]",
    "[[0]]",
];

/// What is found of the order of two words.
fn order(
    alloc: Global,
    words: &HandWords,
    atoms: &Atoms,
    a: u32,
    b: u32,
) -> Result<Result<Ordering, NotATerm>, Fail> {
    let mut scratch = Scratch::new(alloc, words.count() + 1)?;
    Ok(compare_words(words, atoms, a, b, &mut scratch))
}

/// Lays the terms one after the other, and gives their words.
fn lay_all(alloc: Global, words: &mut HandWords, atoms: &Atoms) -> Result<Vec<u32>, Fail> {
    let mut laid = Vec::new(alloc);
    for text in ORDERED {
        if let Some(word) = lay(alloc, words, atoms, text)? {
            laid.push(word)?;
        }
    }
    Ok(laid)
}

/// Whether each of these words goes to each of those as their places do.
fn are_ordered(
    alloc: Global,
    words: &HandWords,
    atoms: &Atoms,
    these: &[u32],
    those: &[u32],
) -> Result<bool, Fail> {
    for (i, a) in these.iter().enumerate() {
        for (j, b) in those.iter().enumerate() {
            if order(alloc, words, atoms, *a, *b)? != Ok(i.cmp(&j)) {
                return Ok(false);
            }
        }
    }
    Ok(true)
}

/// Each term is laid twice, so that equal ones share nothing.
#[test]
fn words_have_the_order_of_their_terms(rt: HostRuntime) -> Result<(), Fail> {
    let alloc = rt.alloc();
    let atoms = atoms(alloc)?;
    let mut words = HandWords::new(alloc, 0, 256)?;
    let these = lay_all(alloc, &mut words, &atoms)?;
    let those = lay_all(alloc, &mut words, &atoms)?;
    assert_eq!(rt; (these.len(), those.len()), (36, 36));
    assert!(rt; are_ordered(alloc, &words, &atoms, these.as_slice(), those.as_slice())?);
    Ok(())
}

/// Literals: the list `[1]`, and a tuple of two elements of which the second is not there.
pub(crate) const ODD_LITERALS: [u32; 4] = [0x1F, 0x3B, 0x80, 0x2F];

/// Cells of a heap, most of which have a word that stands for no term. The atoms have the numbers 0 to 19.
pub(crate) const ODD_HEAP: [u32; 31] = [
    // 0x10000000: [1]
    0x1F,
    0x3B,
    // 0x10000008: {1, no term}
    0x80,
    0x1F,
    0x00,
    // 0x10000014: {1, 2, a header}
    0xC0,
    0x1F,
    0x2F,
    0x80,
    // 0x10000024: [1 | this cell]
    0x1F,
    0x1000_0025,
    // 0x1000002C: [1 | the cell above]
    0x1F,
    0x1000_0035,
    // 0x10000034: [an atom past the table]
    0x50B,
    0x3B,
    // 0x1000003C: [1 | no term]
    0x1F,
    0x07,
    // 0x10000044: [no term | 2]
    0x07,
    0x2F,
    // 0x1000004C: [[1]], of which [1] is a literal
    0x0800_0001,
    0x3B,
    // 0x10000054: [the literal tuple that is cut off]
    0x0800_000A,
    0x3B,
    // 0x1000005C: [a tuple whose header is none]
    0x1000_0002,
    0x3B,
    // 0x10000064: {2, no term}
    0x80,
    0x2F,
    0x00,
    // 0x10000070: {1, 2, which is cut off by the end of the heap}
    0xC0,
    0x1F,
    0x2F,
];

/// Two words, and what is found of their order: a word that stands for no term, or the order of the terms.
const ODD_ORDERS: [(u32, u32, Result<Ordering, NotATerm>); 27] = [
    // the left word comes first
    (0x00, 0x07, Err(NotATerm { word: 0x00 })),
    (0x07, 0x00, Err(NotATerm { word: 0x07 })),
    (0x1F, 0x07, Err(NotATerm { word: 0x07 })),
    (0x07, 0x1F, Err(NotATerm { word: 0x07 })),
    (0x1000_003D, 0x1000_0025, Err(NotATerm { word: 0x07 })),
    (
        0x1000_0025,
        0x1000_003D,
        Err(NotATerm { word: 0x1000_0025 }),
    ),
    // a bad word behind what decides is not met
    (0x1000_000A, 0x1000_0066, Ok(Ordering::Less)),
    (0x1000_0066, 0x1000_000A, Ok(Ordering::Greater)),
    (0x1000_0016, 0x1000_000A, Ok(Ordering::Greater)),
    (0x1F, 0x1000_000A, Ok(Ordering::Less)),
    (0x1000_0045, 0x3B, Ok(Ordering::Greater)),
    // one before a difference is
    (0x1000_0045, 0x1000_0001, Err(NotATerm { word: 0x07 })),
    (0x1000_0001, 0x1000_0045, Err(NotATerm { word: 0x07 })),
    (0x1000_000A, 0x1000_000A, Err(NotATerm { word: 0x00 })),
    (0x1000_0016, 0x1000_0016, Err(NotATerm { word: 0x80 })),
    // pointers that don't lead below their own cell
    (
        0x1000_0025,
        0x1000_0025,
        Err(NotATerm { word: 0x1000_0025 }),
    ),
    (
        0x1000_002D,
        0x1000_0001,
        Err(NotATerm { word: 0x1000_0035 }),
    ),
    (
        0x1000_0001,
        0x1000_002D,
        Err(NotATerm { word: 0x1000_0035 }),
    ),
    // an atom past the table, and one that is in it
    (0x1000_0035, 0x1000_0001, Err(NotATerm { word: 0x50B })),
    (0x50B, 0x4CB, Err(NotATerm { word: 0x50B })),
    // a literal, one that is cut off, and a header that is none
    (0x1000_004D, 0x1000_004D, Ok(Ordering::Equal)),
    (
        0x1000_004D,
        0x1000_0055,
        Err(NotATerm { word: 0x0800_000A }),
    ),
    (
        0x1000_005D,
        0x1000_0055,
        Err(NotATerm { word: 0x1000_0002 }),
    ),
    // cells that are cut off by the end of the heap, and one that would begin among the literals
    (0x1000_0072, 0x1F, Err(NotATerm { word: 0x1000_0072 })),
    (0x1000_0079, 0x1F, Err(NotATerm { word: 0x1000_0079 })),
    (0x3B, 0x1000_0079, Err(NotATerm { word: 0x1000_0079 })),
    (0x0FFF_FFFD, 0x1F, Err(NotATerm { word: 0x0FFF_FFFD })),
];

#[test]
fn odd_words_are_met_in_their_order(rt: HostRuntime) -> Result<(), Fail> {
    let alloc = rt.alloc();
    let atoms = atoms(alloc)?;
    let words = store(alloc, &ODD_LITERALS, &ODD_HEAP)?;
    for (a, b, wanted) in ODD_ORDERS.iter() {
        let found = order(alloc, &words, &atoms, *a, *b)?;
        assert_eq!(rt; found, *wanted, "{a:#x} {b:#x}");
    }
    Ok(())
}

/// Words and what they show where the literals end at the heap's start, and the heap has one word.
const LAST_LITERALS: [(u32, Look); 4] = [
    (0x0FFF_FFF9, Look::Cons(0x0FFF_FFF8)),
    (0x0FFF_FFFA, Look::Tuple(0x0FFF_FFF8, 1)),
    (0x0FFF_FFFD, Look::Bad),
    (0x0FFF_FFFE, Look::Bad),
];

#[test]
fn no_cell_goes_from_the_literals_to_the_heap(rt: HostRuntime) -> Result<(), Fail> {
    let atoms = atoms(rt.alloc())?;
    let mut words = HandWords::new(rt.alloc(), MOST_LITERALS, 1)?;
    words.set_literal(0x0FFF_FFF8, 0x40);
    words.set_literal(0x0FFF_FFFC, 0x40);
    assert!(rt; words.push(0x3B));
    for (word, wanted) in LAST_LITERALS.iter() {
        assert!(rt;
            look_at(&words, &atoms, u32::MAX, *word) == *wanted,
            "{word:#x}"
        );
    }
    Ok(())
}
