//! What the tests begin with: terms by their texts, atoms by their names, and stores by their words.

use asm_text::read_args;
use hand_words::{HandWords, can_be_laid};
use std::alloc::{AllocError, Global};
use std::test::Fail;
use tagged_words::{Atoms, HeapWords, LITERAL_START, MOST_ATOM_NUMBERS};
use term_tree::{Name, Term};

/// The names of the atoms 14 to 19, behind the first fourteen.
const NAMES: [&str; 6] = ["b", "a", "aa", "A b", "", "\u{e9}"];

/// Adds an atom, and says its number.
pub(crate) fn add(alloc: Global, atoms: &mut Atoms, text: &str) -> Result<u32, Fail> {
    let name = Name::new(alloc, text)?;
    if atoms.len() >= MOST_ATOM_NUMBERS {
        return Err(Fail::from(AllocError));
    }
    Ok(atoms.add(name)?)
}

/// The first fourteen atoms, and the others that terms of the tests have.
pub(crate) fn atoms(alloc: Global) -> Result<Atoms, Fail> {
    let mut atoms = Atoms::new(alloc)?;
    for text in NAMES {
        add(alloc, &mut atoms, text)?;
    }
    Ok(atoms)
}

/// The term with a text.
pub(crate) fn term(alloc: Global, text: &str) -> Result<Term, Fail> {
    let list = format!(in alloc; "[{text}]")?;
    let mut terms = read_args(alloc, list.as_bytes())?;
    match terms.pop() {
        Some(term) => Ok(term),
        None => Err(Fail::from(AllocError)),
    }
}

/// The word of the term with a text, laid at the top of the heap; none where there is no room.
pub(crate) fn lay(
    alloc: Global,
    words: &mut HandWords,
    atoms: &Atoms,
    text: &str,
) -> Result<Option<u32>, Fail> {
    let term = term(alloc, text)?;
    if !can_be_laid(&term, atoms) {
        return Err(Fail::from(AllocError));
    }
    Ok(words.lay(&term, atoms).ok())
}

/// Writes literals from the first one on.
fn set_literals(words: &mut HandWords, literals: &[u32]) {
    let mut addr = LITERAL_START;
    for word in literals {
        words.set_literal(addr, *word);
        addr = addr.wrapping_add(4);
    }
}

/// A store of these literals and of a heap of these words.
pub(crate) fn store(alloc: Global, literals: &[u32], heap: &[u32]) -> Result<HandWords, Fail> {
    if literals.len() > 64 || heap.len() > 64 {
        return Err(Fail::from(AllocError));
    }
    let mut words = HandWords::new(alloc, literals.len() as u32, heap.len() as u32)?;
    set_literals(&mut words, literals);
    for word in heap {
        words.push(*word);
    }
    Ok(words)
}
