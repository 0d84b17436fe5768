//! How many words terms take.
ghost use Rattle.std.specs.Prelude.{◌≡◌, map};
ghost use Rattle.term_tree.specs.Size as size;
ghost use Rattle.term_tree.specs.Term.{tree_of, end_tree};
ghost use Rattle.word_laying.specs.Count.{saturated, row_words};

use sqlite_items::Boxed;
use term_tree::Term;

/// How many words the cells of a term take: 0 for an integer, an atom and `[]`, two and those of
/// its elements for each cons, one and one an element, and those of the elements, for a tuple;
/// 18,446,744,073,709,551,615 where there are more. It goes along lists and tuples by loops, and
/// calls itself only as deep as brackets nest.
#[cycle(words_of)]
pub fn words_of(term: &Term) -> u64
    ensures { result ≡ saturated (size.words_of (tree_of term.now)) }
{
    match term {
        Term::Int(_) => 0,
        Term::Atom(_) => 0,
        Term::List(items, end) => {
            words_of_row(items.as_slice(), 2).saturating_add(words_of_end(end))
        }
        Term::Tuple(items) => words_of_row(items.as_slice(), 1).saturating_add(1),
    }
}

/// The words of a row of terms, with `each` words more for each of them;
/// 18,446,744,073,709,551,615 where there are more.
#[cycle(words_of)]
pub fn words_of_row(items: &[Term], each: u64) -> u64
    ensures { result ≡ saturated (row_words each (map tree_of items.now)) }
{
    let mut count: u64 = 0;
    for item in items {
        count = count.saturating_add(each).saturating_add(words_of(item));
    }
    count
}

/// The words of what a list ends in.
#[cycle(words_of)]
fn words_of_end(end: &Option<Boxed<Term>>) -> u64
    ensures { result ≡ saturated (size.words_of (end_tree end.now)) }
{
    match end {
        None => 0,
        Some(tail) => words_of(tail.get()),
    }
}
