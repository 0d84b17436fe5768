//! What the rows of the tables say: operands by their texts, and answers as texts.
//!
//! The operands of a row are terms, which are laid from 0x10000000 on, one after the other. The atoms of `ODD` stand
//! for the words beside them, so a text can have words in it that stand for no term. An operand that a row lacks is 0,
//! which stands for none either.
//!
//! An answer is the text of a value, and of a cell its word too, as `[2] at 10000001`; a cell with no term's word in it
//! is `?`. Or it is `raise error badarg`, `bignum`, `heap_full` or `fault bad`. Behind a colon stand the words that were
//! pushed.

use asm_text::read_args;
use beam_code::BUILT_INS;
use hand_words::{HandWords, can_be_laid};
use prim_gates::{PrimAnswer, gate};
use std::alloc::{AllocError, Global};
use std::test::Fail;
use tagged_words::{
    Atoms, Class, HEAP_START, HeapWords, LITERAL_START, MOST_ATOM_NUMBERS, Words, class,
};
use term_tree::Name;
use word_walks::{Scratch, WordText, word_text};

/// A row: the number of a built-in, its operands, how many words the heap has left, and what is answered.
pub(crate) type Row = (u32, &'static str, u32, &'static str);

/// The names of the atoms 14 and 15, behind the first fourteen.
const NAMES: [&str; 2] = ["b", "a"];

/// The number of the first atom that stands for an odd word.
const FIRST_ODD: u32 = 16;

/// Atoms with the numbers from 16 on, and the words that they stand for.
const ODD: [(&str, u32); 11] = [
    // no term by itself, and a header
    ("bad", 0x07),
    ("header", 0x80),
    // the number of no atom
    ("no_atom", 0xF9CB),
    // the first two words of the heap as a cons, the next two, and the first word as the header of a tuple
    ("c0", 0x1000_0001),
    ("c8", 0x1000_0009),
    ("t0", 0x1000_0002),
    // a cons and a tuple past the top
    ("past", 0x1000_0FF9),
    ("past_tuple", 0x1000_0FFA),
    // the literals: the list `[5]`, the tuple `{6}`, and a tuple of three elements of which two are not there
    ("lit_list", 0x0800_0001),
    ("lit_tuple", 0x0800_000A),
    ("lit_cut", 0x0800_0012),
];

const LITERALS: [u32; 6] = [0x5F, 0x3B, 0x40, 0x6F, 0xC0, 0x1F];

/// Adds an atom.
fn add(alloc: Global, atoms: &mut Atoms, text: &str) -> Result<(), Fail> {
    let name = Name::new(alloc, text)?;
    if atoms.len() >= MOST_ATOM_NUMBERS {
        return Err(Fail::from(AllocError));
    }
    atoms.add(name)?;
    Ok(())
}

/// The first fourteen atoms, and those that the rows have.
pub(crate) fn atoms(alloc: Global) -> Result<Atoms, Fail> {
    let mut atoms = Atoms::new(alloc)?;
    for text in NAMES {
        add(alloc, &mut atoms, text)?;
    }
    for (text, _word) in ODD.iter() {
        add(alloc, &mut atoms, text)?;
    }
    Ok(atoms)
}

/// Lays the terms of a text, in which atoms stand for odd words still, and gives their words.
fn lay_all(
    alloc: Global,
    words: &mut HandWords,
    atoms: &Atoms,
    text: &str,
) -> Result<Vec<u32>, Fail> {
    let list = format!(in alloc; "[{text}]")?;
    let terms = read_args(alloc, list.as_bytes())?;
    let mut laid = Vec::new(alloc);
    for term in terms.as_slice() {
        if !can_be_laid(term, atoms) {
            return Err(Fail::from(AllocError));
        }
        match words.lay(term, atoms) {
            Ok(word) => laid.push(word)?,
            Err(_full) => return Err(Fail::from(AllocError)),
        }
    }
    Ok(laid)
}

/// What a laid word is to be: the odd word for an atom that stands for one.
fn meant(word: u32) -> u32 {
    match class(word) {
        Class::Atom(n) => {
            if n < FIRST_ODD {
                return word;
            }
            match ODD.get((n - FIRST_ODD) as usize) {
                Some((_name, odd)) => *odd,
                None => word,
            }
        }
        _ => word,
    }
}

/// The literals, and a heap of the words that these are to be, with room for some more.
fn odd_words(alloc: Global, plain: &HandWords, room: u32) -> Result<HandWords, Fail> {
    let count = plain.count().min(64);
    let mut words = HandWords::new(alloc, LITERALS.len() as u32, count + room.min(64))?;
    let mut addr = LITERAL_START;
    for word in LITERALS {
        words.set_literal(addr, word);
        addr = addr.wrapping_add(4);
    }
    addr = HEAP_START;
    for _i in 0..count {
        words.push(meant(plain.word(addr).unwrap_or(0)));
        addr = addr.wrapping_add(4);
    }
    Ok(words)
}

/// The operand at a place, or a word that stands for no term.
fn operand(laid: &Vec<u32>, place: usize) -> u32 {
    match laid.get(place) {
        Some(word) => meant(*word),
        None => 0,
    }
}

/// How a word is written that was looked at and stands for no term.
fn odd_text(alloc: Global, word: u32) -> Result<String, Fail> {
    for (name, odd) in ODD.iter() {
        if *odd == word {
            return Ok(String::from_str(alloc, name)?);
        }
    }
    Ok(format!(in alloc; "{word:x}")?)
}

/// How a word is written.
fn shown(alloc: Global, words: &HandWords, atoms: &Atoms, word: u32) -> Result<String, Fail> {
    let mut scratch = Scratch::new(alloc, words.count() + 1)?;
    match word_text(alloc, words, atoms, word, u32::MAX, &mut scratch)? {
        WordText::Text { text, nodes: _ } => match class(word) {
            Class::Cons(_) | Class::Boxed(_) => Ok(format!(in alloc; "{text} at {word:x}")?),
            _ => Ok(text),
        },
        WordText::NotATerm { word: met } => {
            if met == word {
                odd_text(alloc, word)
            } else {
                Ok(format!(in alloc; "? at {word:x}")?)
            }
        }
        WordText::Large => Ok(format!(in alloc; "? at {word:x}")?),
    }
}

/// How an answer is written.
fn said(
    alloc: Global,
    words: &HandWords,
    atoms: &Atoms,
    answer: PrimAnswer,
) -> Result<String, Fail> {
    match answer {
        PrimAnswer::Value(word) => shown(alloc, words, atoms, word),
        PrimAnswer::Raise { class, reason } => {
            let reason = shown(alloc, words, atoms, reason)?;
            match atoms.name(class) {
                Some(name) => Ok(format!(in alloc; "raise {} {reason}", name.as_str())?),
                None => Ok(format!(in alloc; "raise {class} {reason}")?),
            }
        }
        PrimAnswer::Bignum => Ok(String::from_str(alloc, "bignum")?),
        PrimAnswer::HeapFull => Ok(String::from_str(alloc, "heap_full")?),
        PrimAnswer::Fault { word } => {
            let word = odd_text(alloc, word)?;
            Ok(format!(in alloc; "fault {word}")?)
        }
    }
}

/// What a built-in answers of the operands of a text, with the words that it pushes on a heap with so much room.
pub(crate) fn found(
    alloc: Global,
    atoms: &Atoms,
    k: u32,
    text: &str,
    room: u32,
) -> Result<String, Fail> {
    let mut plain = HandWords::new(alloc, 0, 64)?;
    let laid = lay_all(alloc, &mut plain, atoms, text)?;
    let mut words = odd_words(alloc, &plain, room)?;
    let mut scratch = Scratch::new(alloc, words.count() + 1)?;
    let (a, b, c) = (operand(&laid, 0), operand(&laid, 1), operand(&laid, 2));
    let top = words.top();
    if k >= BUILT_INS {
        return Err(Fail::from(AllocError));
    }
    let answer = gate(k, a, b, c, &mut words, atoms, &mut scratch);
    let said = said(alloc, &words, atoms, answer)?;
    with_pushed(alloc, &words, top, said)
}

/// A text, and behind it the words from an address up.
fn with_pushed(alloc: Global, words: &HandWords, from: u32, text: String) -> Result<String, Fail> {
    let mut written = text;
    let mut addr = from;
    if words.top() != from {
        written.push_str(":")?;
    }
    for _i in 0..64 {
        if let Some(word) = words.word(addr) {
            let next = format!(in alloc; " {word:x}")?;
            written.push_str(next.as_str())?;
        }
        addr = addr.wrapping_add(4);
    }
    Ok(written)
}
