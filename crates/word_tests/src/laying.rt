//! Words of terms, worked by hand. Cells are laid from 0x10000008 on, behind two words that are there.
//!
//! The words of integers are 16 * i + 15, those of the atoms b and a, which are number 14 and 15, are 0x38B and 0x3CB,
//! and the word of `[]` is 0x3B.

use crate::worlds::{atoms, lay, term};
use hand_words::HandWords;
use std::alloc::Global;
use std::test::Fail;
use tagged_words::{Atoms, HeapWords, Words};
use word_laying::words_of;

/// Terms, their words, the addresses behind their cells, and the words of these.
const LAID: [(&str, u32, u32, &[u32]); 11] = [
    ("-1", 0xFFFF_FFFF, 0x1000_0008, &[]),
    ("a", 0x3CB, 0x1000_0008, &[]),
    ("[]", 0x3B, 0x1000_0008, &[]),
    ("{}", 0x1000_000A, 0x1000_000C, &[0]),
    ("[1]", 0x1000_0009, 0x1000_0010, &[0x1F, 0x3B]),
    ("[1|2]", 0x1000_0009, 0x1000_0010, &[0x1F, 0x2F]),
    ("{1,a}", 0x1000_000A, 0x1000_0014, &[0x80, 0x1F, 0x3CB]),
    (
        "[1,2]",
        0x1000_0011,
        0x1000_0018,
        &[0x2F, 0x3B, 0x1F, 0x1000_0009],
    ),
    (
        "[1,{2,a}|b]",
        0x1000_001D,
        0x1000_0024,
        &[0x80, 0x2F, 0x3CB, 0x1000_000A, 0x38B, 0x1F, 0x1000_0015],
    ),
    (
        "[[1],2]",
        0x1000_0019,
        0x1000_0020,
        &[0x1F, 0x3B, 0x2F, 0x3B, 0x1000_0009, 0x1000_0011],
    ),
    (
        "{{1},[2]}",
        0x1000_001A,
        0x1000_0024,
        &[0x40, 0x1F, 0x2F, 0x3B, 0x80, 0x1000_000A, 0x1000_0011],
    ),
];

/// A heap with room for so many words behind two that are there.
fn heap(alloc: Global, room: u32) -> Result<HandWords, Fail> {
    let mut words = HandWords::new(alloc, 0, room.min(64) + 2)?;
    words.push(7);
    words.push(7);
    Ok(words)
}

/// Whether these words lie behind the first two of a heap, and no others.
fn has_words(words: &HandWords, wanted: &[u32]) -> bool {
    let mut addr: u32 = 0x1000_0008;
    for word in wanted {
        if words.word(addr) != Some(*word) {
            return false;
        }
        addr = addr.wrapping_add(4);
    }
    words.word(addr).is_none()
}

/// Whether a term is laid so where there is just room for its words.
fn fits(
    alloc: Global,
    atoms: &Atoms,
    text: &str,
    word: u32,
    next: u32,
    wanted: &[u32],
) -> Result<bool, Fail> {
    let mut words = heap(alloc, next.wrapping_sub(0x1000_0008) / 4)?;
    let laid = lay(alloc, &mut words, atoms, text)?;
    Ok(laid == Some(word) && words.top() == next && words.left() == 0 && has_words(&words, wanted))
}

/// Whether a term is not laid, and nothing changes, where there is room for one word less.
fn lacks_room(alloc: Global, atoms: &Atoms, text: &str, next: u32) -> Result<bool, Fail> {
    let room = next.wrapping_sub(0x1000_0008) / 4;
    if room == 0 {
        return Ok(true);
    }
    let mut words = heap(alloc, room - 1)?;
    let laid = lay(alloc, &mut words, atoms, text)?;
    Ok(laid.is_none() && words.top() == 0x1000_0008 && has_words(&words, &[]))
}

#[test]
fn terms_have_their_words(rt: HostRuntime) -> Result<(), Fail> {
    let atoms = atoms(rt.alloc())?;
    for (text, word, next, words) in LAID.iter() {
        assert!(rt;
            fits(rt.alloc(), &atoms, text, *word, *next, words)?,
            "{text}"
        );
    }
    Ok(())
}

#[test]
fn terms_need_room_for_all_words(rt: HostRuntime) -> Result<(), Fail> {
    let atoms = atoms(rt.alloc())?;
    for (text, _word, next, _words) in LAID.iter() {
        assert!(rt; lacks_room(rt.alloc(), &atoms, text, *next)?, "{text}");
    }
    Ok(())
}

/// Terms, and how many words they take.
const COUNTS: [(&str, u64); 11] = [
    ("134217727", 0),
    ("'no atom of a table'", 0),
    ("[]", 0),
    ("{}", 1),
    ("{[]}", 2),
    ("[1]", 2),
    ("[1|2]", 2),
    ("[1,2,3]", 6),
    ("[1,{2,a}|b]", 7),
    ("[[],[[]]]", 6),
    ("{{},{1,{2}},[3]}", 12),
];

#[test]
fn terms_take_so_many_words(rt: HostRuntime) -> Result<(), Fail> {
    for (text, count) in COUNTS.iter() {
        let term = term(rt.alloc(), text)?;
        assert_eq!(rt; words_of(&term), *count, "{text}");
    }
    Ok(())
}
