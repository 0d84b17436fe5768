//! Words of terms and blocks of words of `tagged_words`.

use std::test::Fail;
use tagged_words::{Class, WordBlock, atom, class, header, small};

/// Words and what they stand for.
const CLASSES: [(u32, Class); 16] = [
    (0x0000_000F, Class::Small(0)),
    (0x0000_001F, Class::Small(1)),
    (0xFFFF_FFFF, Class::Small(-1)),
    (0x8000_000F, Class::Small(-134_217_728)),
    (0x7FFF_FFFF, Class::Small(134_217_727)),
    (0x0000_000B, Class::Atom(0)),
    (0x0000_004B, Class::Atom(1)),
    (0xFFFF_FFCB, Class::Atom(67_108_863)),
    (0x0000_003B, Class::Nil),
    (0x0800_0001, Class::Cons(0x0800_0000)),
    (0x1000_0002, Class::Boxed(0x1000_0000)),
    (0x0000_0000, Class::Other),
    (0x0000_0080, Class::Other),
    (0x0000_0007, Class::Other),
    (0x0000_001B, Class::Other),
    (0x0000_007B, Class::Other),
];

#[test]
fn words_have_their_classes(rt: HostRuntime) {
    for (word, wanted) in CLASSES.iter() {
        assert!(rt; class(*word) == *wanted, "at {word:#x}");
    }
}

#[test]
fn values_have_their_words(rt: HostRuntime) {
    assert_eq!(rt; small(0), 0x0F);
    assert_eq!(rt; small(1), 0x1F);
    assert_eq!(rt; small(-1), 0xFFFF_FFFF);
    assert_eq!(rt; small(-134_217_728), 0x8000_000F);
    assert_eq!(rt; small(134_217_727), 0x7FFF_FFFF);
    assert_eq!(rt; atom(0), 0x0B);
    assert_eq!(rt; atom(67_108_863), 0xFFFF_FFCB);
    assert_eq!(rt; header(2), 0x80);
    assert_eq!(rt; header(67_108_863), 0xFFFF_FFC0);
}

/// Addresses and what a block of four zeros from 0x100 holds there.
const EDGES: [(u32, Option<u32>); 7] = [
    (0xFC, None),
    (0x100, Some(0)),
    (0x101, None),
    (0x102, None),
    (0x10C, Some(0)),
    (0x110, None),
    (0xFFFF_FFFC, None),
];

#[test]
fn a_block_is_exact_at_its_edges(rt: HostRuntime) -> Result<(), Fail> {
    let mut block = WordBlock::new(rt.alloc(), 0x100, 4)?;
    for (addr, wanted) in EDGES.iter() {
        assert_eq!(rt; block.get(*addr), *wanted, "at {addr:#x}");
    }
    for addr in [0xFC, 0x10E, 0x110] {
        assert!(rt; !block.set(addr, 2), "at {addr:#x}");
    }
    Ok(())
}

/// Addresses, lengths and what a block from 0x100 of the words 1, 0, 0 and 0xFFFFFFFF has there.
const SLICES: [(u32, u32, Option<&[u32]>); 7] = [
    (0x100, 4, Some(&[1, 0, 0, 0xFFFF_FFFF])),
    (0x104, 2, Some(&[0, 0])),
    (0x110, 0, Some(&[])),
    (0x104, 4, None),
    (0x102, 1, None),
    (0xFC, 1, None),
    (0x100, 0xFFFF_FFFF, None),
];

#[test]
fn slices_are_exact_at_their_edges(rt: HostRuntime) -> Result<(), Fail> {
    let mut block = WordBlock::new(rt.alloc(), 0x100, 4)?;
    assert!(rt; block.set(0x100, 1) && block.set(0x10C, 0xFFFF_FFFF));
    for (addr, words, wanted) in SLICES.iter() {
        assert_eq!(rt; block.slice(*addr, *words), *wanted, "{words} at {addr:#x}");
    }
    Ok(())
}

#[test]
fn blocks_at_the_last_address(rt: HostRuntime) -> Result<(), Fail> {
    let mut empty = WordBlock::new(rt.alloc(), 0x7FFF_FFFC, 0)?;
    assert_eq!(rt; empty.get(0x7FFF_FFFC), None);
    assert!(rt; !empty.set(0x7FFF_FFFC, 1));
    let last = WordBlock::new(rt.alloc(), 0x7FFF_FFFC, 1)?;
    assert_eq!(rt; last.get(0x7FFF_FFFC), Some(0));
    Ok(())
}

/// 26 GB in all, in turn: more than there is, unless each block gives its memory back.
#[test]
fn blocks_give_their_memory_back(rt: HostRuntime) -> Result<(), Fail> {
    for i in 0..900 {
        let mut block = WordBlock::new(rt.alloc(), 0x1000_0000, 7_340_032)?;
        assert_eq!(rt; block.get(0x11BF_FFFC), Some(0));
        assert!(rt; block.set(0x11BF_FFFC, i));
    }
    Ok(())
}
