//! A heap that is one term as deep as a heap can hold: tuples of one element in one another.

use crate::worlds::atoms;
use hand_words::{HandWords, MOST_HEAP};
use std::alloc::Global;
use std::cmp::Ordering;
use std::test::Fail;
use tagged_words::{Atoms, HeapWords};
use word_walks::{NotATerm, Scratch, WordText, compare_words, word_text};

/// The word of the outermost tuple: its header lies at the last word but one.
const ROOT: u32 = 0x13FF_FFFA;

/// 8,388,608 tuples of one element, with a word at the bottom.
fn chain(alloc: Global, bottom: u32) -> Result<HandWords, Fail> {
    let mut words = HandWords::new(alloc, 0, MOST_HEAP)?;
    let mut below = bottom;
    for _i in 0..MOST_HEAP / 2 {
        let at = words.top();
        words.push(0x40);
        words.push(below);
        below = at.wrapping_add(2);
    }
    Ok(words)
}

/// What is found of the order of the outermost tuple and itself, and of its text for a budget.
fn walked(
    alloc: Global,
    words: &HandWords,
    atoms: &Atoms,
    budget: u32,
) -> Result<(Result<Ordering, NotATerm>, WordText), Fail> {
    let mut scratch = Scratch::new(alloc, words.count() + 1)?;
    let order = compare_words(words, atoms, ROOT, ROOT, &mut scratch);
    let text = word_text(alloc, words, atoms, ROOT, budget, &mut scratch)?;
    Ok((order, text))
}

#[test]
fn a_chain_is_gone_along(rt: HostRuntime) -> Result<(), Fail> {
    let atoms = atoms(rt.alloc())?;
    let words = chain(rt.alloc(), 0x1F)?;
    assert_eq!(rt; words.count(), 16_777_216);
    let (order, text) = walked(rt.alloc(), &words, &atoms, 1_000_000)?;
    assert_eq!(rt; order, Ok(Ordering::Equal));
    assert!(rt; matches!(text, WordText::Large));
    Ok(())
}

/// How many bytes a text has, and how many nodes, where it is whole.
fn bytes_and_nodes(text: &WordText) -> Option<(usize, u32)> {
    match text {
        WordText::Text { text, nodes } => Some((text.len(), *nodes)),
        _ => None,
    }
}

#[test]
fn a_chain_is_printed_whole(rt: HostRuntime) -> Result<(), Fail> {
    let atoms = atoms(rt.alloc())?;
    let words = chain(rt.alloc(), 0x1F)?;
    let (order, text) = walked(rt.alloc(), &words, &atoms, u32::MAX)?;
    assert_eq!(rt; order, Ok(Ordering::Equal));
    assert_eq!(rt; bytes_and_nodes(&text), Some((16_777_217, 8_388_609)));
    Ok(())
}

#[test]
fn a_chain_is_refused_at_its_bottom(rt: HostRuntime) -> Result<(), Fail> {
    let atoms = atoms(rt.alloc())?;
    let words = chain(rt.alloc(), 0x1000_0002)?;
    let (order, text) = walked(rt.alloc(), &words, &atoms, u32::MAX)?;
    assert_eq!(rt; order, Err(NotATerm { word: 0x1000_0002 }));
    assert!(rt; matches!(text, WordText::NotATerm { word: 0x1000_0002 }));
    Ok(())
}
