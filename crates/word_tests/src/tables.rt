//! Atoms by number.

use crate::worlds::add;
use std::alloc::Global;
use std::test::Fail;
use tagged_words::Atoms;
use term_tree::Name;

/// The first fourteen atoms, whose numbers are their places.
const FIRST: [&str; 14] = [
    "error",
    "exit",
    "throw",
    "EXIT",
    "true",
    "false",
    "badarith",
    "badarg",
    "function_clause",
    "if_clause",
    "undef",
    "badmatch",
    "case_clause",
    "try_clause",
];

/// Atoms that are added one after the other, the number that each gets, and how many there are then.
const ADDED: [(&str, u32, u32); 6] = [
    ("a", 14, 15),
    ("error", 0, 15),
    ("A", 15, 16),
    ("a", 14, 16),
    ("", 16, 17),
    ("A", 15, 17),
];

/// The number of the atom with this text.
fn number(alloc: Global, atoms: &Atoms, text: &str) -> Result<Option<u32>, Fail> {
    let name = Name::new(alloc, text)?;
    Ok(atoms.number(&name))
}

/// The text of the atom with this number.
fn text_at(atoms: &Atoms, n: u32) -> Option<&str> {
    match atoms.name(n) {
        Some(name) => Some(name.as_str()),
        None => None,
    }
}

#[test]
fn the_first_atoms_are_there(rt: HostRuntime) -> Result<(), Fail> {
    let atoms = Atoms::new(rt.alloc())?;
    assert_eq!(rt; atoms.len(), 14);
    for (i, text) in FIRST.iter().enumerate() {
        assert_eq!(rt; number(rt.alloc(), &atoms, text)?, Some(i as u32), "{text}");
        assert_eq!(rt; text_at(&atoms, i as u32), Some(*text), "{text}");
    }
    Ok(())
}

#[test]
fn atoms_are_added_once(rt: HostRuntime) -> Result<(), Fail> {
    let mut atoms = Atoms::new(rt.alloc())?;
    for (text, n, count) in ADDED.iter() {
        assert_eq!(rt; add(rt.alloc(), &mut atoms, text)?, *n, "{text}");
        assert_eq!(rt; atoms.len(), *count, "{text}");
        assert_eq!(rt; number(rt.alloc(), &atoms, text)?, Some(*n), "{text}");
        assert_eq!(rt; text_at(&atoms, *n), Some(*text), "{text}");
    }
    assert_eq!(rt; text_at(&atoms, 17), None);
    assert_eq!(rt; number(rt.alloc(), &atoms, "b")?, None);
    Ok(())
}
