//! Lists of integers that are laid as words, compared and printed.
ghost use Rattle.hand_words.specs.Hand.{used_store};
ghost use Rattle.std.specs.Prelude.{◌<◌, length};
ghost use Rattle.tagged_words.specs.Store.{words_in};

use anyhow::{Context, Result, bail};
use hand_words::{HandWords, MOST_HEAP, can_be_laid};
use sqlite_items::Items;
use std::alloc::{AllocError, Global};
use std::cmp::Ordering;
use tagged_words::Atoms;
use term_tree::Term;
use word_walks::{Scratch, WordText, compare_words, word_text};

/// Does so often with a list of so many integers what the measure names, and says what came of it.
pub fn lists_walked(alloc: Global, measure: &str, integers: u32, times: u32) -> Result<String> {
    match measure {
        "lay" => lists_laid(alloc, integers, times),
        "compare" => lists_compared(alloc, integers, times, false),
        "compare_same" => lists_compared(alloc, integers, times, true),
        "print" => lists_printed(alloc, integers, times),
        _ => bail!("lists are not measured so"),
    }
}

/// A list of so many integers from 0 up, which begins again at a million.
fn list(alloc: Global, integers: u32) -> Result<Term, AllocError> {
    let mut items = Items::new(alloc);
    for i in 0..integers {
        items.push(Term::Int((i % 1_000_000) as i32))?;
    }
    Ok(Term::List(items, None))
}

/// An empty heap with room for so many lists.
pub(crate) fn heap(alloc: Global, integers: u32, lists: u32) -> Result<HandWords> {
    let words = u64::from(integers)
        .saturating_mul(u64::from(lists))
        .saturating_mul(2);
    if words > u64::from(MOST_HEAP) {
        bail!("a heap has at most {MOST_HEAP} words");
    }
    Ok(HandWords::new(alloc, 0, words as u32)?)
}

/// Lays a term so often, and says how often there was room.
fn lay_again(words: &mut HandWords, term: &Term, atoms: &Atoms, times: u32) -> u32 {
    if !can_be_laid(term, atoms) {
        return 0;
    }
    let mut done: u32 = 0;
    for _i in 0..times {
        if words.lay(term, atoms).is_ok() {
            done = done.wrapping_add(1);
        }
    }
    done
}

/// Lays a list so often, one behind the other.
fn lists_laid(alloc: Global, integers: u32, times: u32) -> Result<String> {
    let atoms = Atoms::new(alloc)?;
    let term = list(alloc, integers)?;
    let mut words = heap(alloc, integers, times)?;
    let done = lay_again(&mut words, &term, &atoms, times);
    Ok(format!(in alloc; "{done} of {times} lists laid as {} words", words.count())?)
}

/// The word of a list that is laid at the top of the heap.
pub(crate) fn lay_list(
    alloc: Global,
    words: &mut HandWords,
    atoms: &Atoms,
    integers: u32,
) -> Result<u32> {
    let term = list(alloc, integers)?;
    if !can_be_laid(&term, atoms) {
        bail!("the list can't be laid");
    }
    let word = words
        .lay(&term, atoms)
        .ok()
        .context("no room for the list")?;
    Ok(word)
}

/// Compares two words so often, and says how often they were equal.
fn compare_again(
    words: &HandWords,
    atoms: &Atoms,
    a: u32,
    b: u32,
    scratch: &mut Scratch,
    times: u32,
) -> u32
    requires { words_in (used_store words.now.literals words.now.heap words.now.used) < length scratch.old }
{
    let mut equal: u32 = 0;
    for _i in 0..times {
        if let Ok(Ordering::Equal) = compare_words(words, atoms, a, b, scratch) {
            equal = equal.wrapping_add(1);
        }
    }
    equal
}

/// Compares two lists so often, which share nothing, or are the same words.
fn lists_compared(alloc: Global, integers: u32, times: u32, same: bool) -> Result<String> {
    let atoms = Atoms::new(alloc)?;
    let mut words = heap(alloc, integers, 2)?;
    let first = lay_list(alloc, &mut words, &atoms, integers)?;
    let other = lay_list(alloc, &mut words, &atoms, integers)?;
    let second = if same { first } else { other };
    let mut scratch = Scratch::new(alloc, words.count() + 1)?;
    let equal = compare_again(&words, &atoms, first, second, &mut scratch, times);
    Ok(format!(in alloc; "{equal} of {times} pairs are equal")?)
}

/// Prints a word so often, and says how many bytes and nodes that gave the last time.
fn print_again(
    alloc: Global,
    words: &HandWords,
    atoms: &Atoms,
    word: u32,
    scratch: &mut Scratch,
    times: u32,
) -> Result<(usize, u32), AllocError>
    requires { words_in (used_store words.now.literals words.now.heap words.now.used) < length scratch.old }
{
    let mut size = (0, 0);
    for _i in 0..times {
        if let WordText::Text { text, nodes } = word_text(
            alloc,
            words,
            atoms,
            word,
            u32::MAX,
            scratch,
        )? {
            size = (text.len(), nodes);
        }
    }
    Ok(size)
}

/// Prints a list so often.
fn lists_printed(alloc: Global, integers: u32, times: u32) -> Result<String> {
    let atoms = Atoms::new(alloc)?;
    let mut words = heap(alloc, integers, 1)?;
    let word = lay_list(alloc, &mut words, &atoms, integers)?;
    let mut scratch = Scratch::new(alloc, words.count() + 1)?;
    let (bytes, nodes) = print_again(alloc, &words, &atoms, word, &mut scratch, times)?;
    Ok(format!(in alloc; "{times} texts of {bytes} bytes and {nodes} nodes")?)
}
