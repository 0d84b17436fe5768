//! The text of the term that a word stands for.
ghost use Rattle.std.specs.Prelude.{◌≡◌, ◌<◌, [], length, string_bytes, IfOk};
ghost use Rattle.tagged_words.specs.Look.{address_end};
ghost use Rattle.tagged_words.specs.Seen.{Seen, Sees};
ghost use Rattle.tagged_words.specs.Store.{words_in};
ghost use Rattle.word_walks.specs.Spelt.{spelt};
ghost use Rattle.word_walks.specs.Texts.{going, spelling_of, step_spelling};

use crate::scratch::{Row, Scratch};
use crate::shown::Place;
use crate::walk::{Spot, Step, Walk, next, visit};
use std::alloc::{AllocError, Global};
use tagged_words::{Atoms, Words};

/// What the text of a word is.
#[derive(Drop)]
pub enum WordText {
    /// The text of its term, and how many nodes that has: each cons, tuple, integer, atom and `[]` is one, the end of a
    /// list too.
    Text {
        /// `{a,b}`, `[a,b]`, `[a|b]`, with no spaces, and an atom in quotes where it needs them.
        text: String,
        /// From 1 to the budget.
        nodes: u32,
    },
    /// There are more nodes than the budget before any word that stands for no term.
    Large,
    /// This word is come by, within the budget, and stands for no term.
    NotATerm {
        /// The word.
        word: u32,
    },
}

/// The walk that a step goes on with, where rows wait.
fn going(step: Step) -> Option<Walk>
    ensures { result ≡ going step }
{
    match step {
        Step::Goes(walk) => { if walk.used == 0 { None } else { Some(walk) } }
        Step::Large => None,
        Step::Bad(_) => None,
    }
}

/// Adds the text of a word, step by step; the last step is the result.
fn put_word<W: Words>(
    alloc: Global,
    words: &W,
    atoms: &Atoms,
    out: &mut String,
    rows: &mut [Row],
    word: u32,
    budget: u32,
) -> Result<Step, AllocError>
    requires room { words_in (W.store words.now) < length rows.old }
    requires empty { string_bytes out.old ≡ [] }
    ensures answer { IfOk result (λ step. (v : Seen) → Sees (W.store words.now) atoms.now address_end word v
        → step_spelling (string_bytes out.new) step ≡ spelt budget v) }
{
    let root = Spot {
        word,
        limit: u32::MAX,
        place: Place::First,
    };
    let mut step = visit(
        alloc,
        words,
        atoms,
        out,
        rows,
        Walk { used: 0, nodes: 0 },
        budget,
        root,
    )?;
    while let Some(walk) = going(step) {
        step = next(alloc, words, atoms, out, rows, walk, budget)?;
    }
    Ok(step)
}

/// The text of the term that a word stands for, of at most `budget` nodes, as `term_text` of a term prints it. Words are
/// come by from the root, heads before tails and elements from left to right, and the first that stands for no term, or
/// the first node past the budget, ends the walk; a word that stands for no term is no node. It never recurses, and takes
/// memory for the text alone: its one error is want of memory.
pub fn word_text<W: Words>(
    alloc: Global,
    words: &W,
    atoms: &Atoms,
    w: u32,
    budget: u32,
    scratch: &mut Scratch,
) -> Result<WordText, AllocError>
    requires room { words_in (W.store words.now) < length scratch.old }
    ensures answer { IfOk result (λ text. (v : Seen) → Sees (W.store words.now) atoms.now address_end w v
        → spelling_of text ≡ spelt budget v) }
    ensures same { length scratch.new ≡ length scratch.old }
{
    let mut out = String::new(alloc);
    match put_word(
        alloc,
        words,
        atoms,
        &mut out,
        scratch.rows.as_mut_slice(),
        w,
        budget,
    )? {
        Step::Goes(walk) => Ok(WordText::Text {
            text: out,
            nodes: walk.nodes,
        }),
        Step::Large => Ok(WordText::Large),
        Step::Bad(word) => Ok(WordText::NotATerm { word }),
    }
}
