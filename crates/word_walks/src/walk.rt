//! A walk over the words of a term, one word after the other.
ghost use Rattle.std.specs.Prelude.{◌≡◌, ℕ, ◌+◌, ◌<◌, ◌≤◌, List, length, string_bytes, IfOk};
ghost use Rattle.tagged_words.specs.Store.{words_in};
ghost use Rattle.word_walks.specs.Ordinal.{ordinal};
ghost use Rattle.word_walks.specs.Shown.{is_bad};
ghost use Rattle.word_walks.specs.Spelt.{Walked};
ghost use Rattle.word_walks.specs.Waiting.{Ahead, Left, RowsFit, StepFits, StepHolds, stop, walk_weight};

use crate::rows::{place_of, push, rest_of};
use crate::scratch::Row;
use crate::shown::{Place, put_mark, put_shown};
use std::alloc::{AllocError, Global};
use tagged_words::{Atoms, Look, Words, look_at};

/// How many rows wait, and how many nodes are behind.
#[derive(Clone, Copy, Drop)]
pub(crate) struct Walk {
    pub(crate) used: usize,
    pub(crate) nodes: u32,
}

/// What a step of a walk comes to.
#[derive(Clone, Copy, Drop)]
pub(crate) enum Step {
    /// It goes on, or is at its end where no row waits.
    Goes(Walk),
    /// There are more nodes than the budget.
    Large,
    /// This word stands for no term.
    Bad(u32),
}

/// A word that is come by: the limit of its pointer, and its place in the text.
#[derive(Clone, Copy, Drop)]
pub(crate) struct Spot {
    pub(crate) word: u32,
    pub(crate) limit: u32,
    pub(crate) place: Place,
}

/// Whether a word stands for no term.
fn is_bad(look: Look) -> bool
    ensures { result ≡ is_bad look }
{
    matches!(look, Look::Bad)
}

/// Why a walk ends at a word, if it does: it stands for no term, or else no node is left for it.
fn stop(look: Look, word: u32, nodes: u32, budget: u32) -> Option<Step>
    ensures { result ≡ stop look word nodes budget }
{
    if is_bad(look) {
        return Some(Step::Bad(word));
    }
    if nodes == budget {
        return Some(Step::Large);
    }
    None
}

/// Adds what a word shows, and the row of its cell.
pub(crate) fn visit<W: Words>(
    alloc: Global,
    words: &W,
    atoms: &Atoms,
    out: &mut String,
    rows: &mut [Row],
    walk: Walk,
    budget: u32,
    spot: Spot,
) -> Result<Step, AllocError>
    requires room { words_in (W.store words.now) < length rows.old }
    requires within { walk.nodes ≤ budget }
    requires low { walk.used + ordinal (W.store words.now) spot.limit ≤ words_in (W.store words.now) }
    requires rows_fit { RowsFit (W.store words.now) rows.old walk.used }
    ensures holds { IfOk result (λ step. (text : List ℕ) (all : Walked)
        → Ahead (W.store words.now) atoms.now rows.old walk.used (string_bytes out.old) walk.nodes spot.limit spot.word spot.place text all
        → StepHolds (W.store words.now) atoms.now rows.new (string_bytes out.new) budget step text all) }
    ensures fits { IfOk result (λ step. StepFits (W.store words.now) rows.new budget (walk_weight budget walk) step) }
{
    let look = look_at(words, atoms, spot.limit, spot.word);
    if let Some(step) = stop(look, spot.word, walk.nodes, budget) {
        return Ok(step);
    }
    put_shown(alloc, out, atoms, spot.place, look)?;
    let used = push(rows, walk.used, spot.place, look);
    Ok(Step::Goes(Walk {
        used,
        nodes: walk.nodes + 1,
    }))
}

/// Goes on at the last row: its next word, or the mark that closes it.
pub(crate) fn next<W: Words>(
    alloc: Global,
    words: &W,
    atoms: &Atoms,
    out: &mut String,
    rows: &mut [Row],
    walk: Walk,
    budget: u32,
) -> Result<Step, AllocError>
    requires room { words_in (W.store words.now) < length rows.old }
    requires waiting { 0 < walk.used }
    requires within { walk.nodes ≤ budget }
    requires rows_fit { RowsFit (W.store words.now) rows.old walk.used }
    ensures holds { IfOk result (λ step. (text : List ℕ) (all : Walked)
        → Left (W.store words.now) atoms.now rows.old walk.used (string_bytes out.old) walk.nodes text all
        → StepHolds (W.store words.now) atoms.now rows.new (string_bytes out.new) budget step text all) }
    ensures fits { IfOk result (λ step. StepFits (W.store words.now) rows.new budget (walk_weight budget walk) step) }
{
    let last = walk.used - 1;
    let row = rows[last];
    if row.count == 0 {
        put_mark(out, row.inside)?;
        return Ok(Step::Goes(Walk {
            used: last,
            nodes: walk.nodes,
        }));
    }
    let Some(word) = words.word(row.left) else {
        unreachable!()
    };
    rows[last] = rest_of(row);
    let spot = Spot {
        word,
        limit: row.left_cell,
        place: place_of(row.inside, row.count),
    };
    visit(alloc, words, atoms, out, rows, walk, budget, spot)
}
