//! The order of the terms that two words stand for.
ghost use Rattle.std.specs.Prelude.{◌≡◌, ◌+◌, ◌<◌, ◌≤◌, ◌^◌, Some, is_some, true, length};
ghost use Rattle.tagged_words.specs.Look.{address_end};
ghost use Rattle.tagged_words.specs.Seen.{Seen, AllSeen, Sees};
ghost use Rattle.tagged_words.specs.Store.{word_of, words_in};
ghost use Rattle.word_walks.specs.Compared.{found_of, compared, all_compared};
ghost use Rattle.word_walks.specs.Pairs.{by_order, names_order, pairs_from, tuples_meet, words_meet, row_meets, look_rank, next_row, entered_rows, entered, left_place, HasNext, IsRow, SeesRows};

use crate::scratch::{Inside, Row, Scratch};
use std::cmp::Ordering;
use tagged_words::{Atoms, Look, Words, look_at};

/// A word that stands for no term.
#[derive(Clone, Copy, Drop, PartialEq, Eq, Debug)]
pub struct NotATerm {
    /// The word, of 32 bits.
    pub word: u32,
}

/// What two words show of the order of their terms.
#[derive(Clone, Copy, Drop)]
enum Meeting {
    /// This one stands for no term.
    Bad(u32),
    /// They differ.
    Differ(Ordering),
    /// They are equal.
    Same,
    /// The words of their cells decide.
    Deeper(Row),
}

/// Where a comparison stands: the words that are compared next, and how many rows wait behind them.
#[derive(Clone, Copy, Drop)]
struct Place {
    row: Row,
    used: usize,
}

/// The order of the terms that two words stand for, where the left word of a pair is looked at before the right one,
/// and elements from left to right; or the first word that stands for no term, where it is met before the order is
/// decided. It takes no memory, and `scratch` has more entries than there are words.
pub fn compare_words<W: Words>(
    words: &W,
    atoms: &Atoms,
    a: u32,
    b: u32,
    scratch: &mut Scratch,
) -> Result<Ordering, NotATerm>
    requires room { words_in (W.store words.now) < length scratch.old }
    ensures answer { (x y : Seen) → Sees (W.store words.now) atoms.now address_end a x → Sees (W.store words.now) atoms.now address_end b y → found_of result ≡ compared x y }
    ensures same { length scratch.new ≡ length scratch.old }
{
    match meet(words, atoms, u32::MAX, a, u32::MAX, b) {
        Meeting::Bad(word) => Err(NotATerm { word }),
        Meeting::Differ(order) => Ok(order),
        Meeting::Same => Ok(Ordering::Equal),
        Meeting::Deeper(row) => compare_rows(words, atoms, row, scratch.rows.as_mut_slice()),
    }
}

/// The order of the words of two cells, from left to right, or the first word that stands for no term.
fn compare_rows<W: Words>(
    words: &W,
    atoms: &Atoms,
    first: Row,
    rows: &mut [Row],
) -> Result<Ordering, NotATerm>
    requires row { IsRow (W.store words.now) first }
    requires room { words_in (W.store words.now) < length rows.old }
    ensures answer { (xs ys : AllSeen) → SeesRows (W.store words.now) atoms.now first xs ys → found_of result ≡ all_compared xs ys }
    ensures same { length rows.new ≡ length rows.old }
{
    let mut place = Place {
        row: first,
        used: 0,
    };
    'pairs: loop {
        match meet_first(words, atoms, place.row) {
            Meeting::Bad(word) => return Err(NotATerm { word }),
            Meeting::Differ(order) => return Ok(order),
            Meeting::Same => match leave(rows, place) {
                None => return Ok(Ordering::Equal),
                Some(next) => place = next,
            },
            Meeting::Deeper(row) => place = enter(rows, place, row),
        }
    }
}

/// The place behind the first pair of a place's row, if there is one.
fn leave(rows: &[Row], place: Place) -> Option<Place>
    requires next { HasNext place.row }
    requires room { place.used ≤ length rows.now }
    ensures { result ≡ left_place rows.now place }
{
    if place.row.count > 1 {
        Some(Place {
            row: next(place.row),
            used: place.used,
        })
    } else if place.used == 0 {
        None
    } else {
        let used = place.used - 1;
        Some(Place {
            row: rows[used],
            used,
        })
    }
}

/// The place of a row that the first pair of a place's row leads to. The other pairs wait behind it.
fn enter(rows: &mut [Row], place: Place, row: Row) -> Place
    requires next { HasNext place.row }
    requires room { place.used < length rows.old }
    ensures rows { rows.new ≡ entered_rows rows.old place }
    ensures place { result ≡ entered place row }
{
    if place.row.count > 1 {
        rows[place.used] = next(place.row);
        Place {
            row,
            used: place.used + 1,
        }
    } else {
        Place {
            row,
            used: place.used,
        }
    }
}

/// A row without its first pair.
fn next(row: Row) -> Row
    requires more { 1 < row.count }
    requires next { HasNext row }
    ensures { result ≡ next_row row }
{
    Row {
        left: row.left + 4,
        left_cell: row.left_cell,
        right: row.right + 4,
        right_cell: row.right_cell,
        count: row.count - 1,
        inside: Inside::List,
    }
}

/// What the first pair of a row shows.
fn meet_first<W: Words>(words: &W, atoms: &Atoms, row: Row) -> Meeting
    requires { IsRow (W.store words.now) row }
    ensures { result ≡ row_meets (W.store words.now) atoms.now row }
{
    let left = word_there(words, row.left);
    let right = word_there(words, row.right);
    meet(words, atoms, row.left_cell, left, row.right_cell, right)
}

/// The word at an address where there is one.
fn word_there<W: Words>(words: &W, at: u32) -> u32
    requires { is_some (word_of (W.store words.now) at) ≡ true }
    ensures { word_of (W.store words.now) at ≡ Some result }
{
    match words.word(at) {
        Some(word) => word,
        None => unreachable!(),
    }
}

/// What two words show, whose pointers lead below two limits.
#[inline(always)]
fn meet<W: Words>(
    words: &W,
    atoms: &Atoms,
    left_limit: u32,
    left: u32,
    right_limit: u32,
    right: u32,
) -> Meeting
    ensures { result ≡ words_meet (W.store words.now) atoms.now left_limit left right_limit right }
{
    let x = look_at(words, atoms, left_limit, left);
    let y = look_at(words, atoms, right_limit, right);
    match (x, y) {
        (Look::Bad, _) => Meeting::Bad(left),
        (_, Look::Bad) => Meeting::Bad(right),
        (Look::Small(i), Look::Small(j)) => ordered(i.cmp(&j)),
        (Look::Atom(m), Look::Atom(n)) => ordered(order_of_names(atoms, m, n)),
        (Look::Nil, Look::Nil) => Meeting::Same,
        (Look::Cons(at), Look::Cons(other)) => Meeting::Deeper(row_of(at, at, other, other, 2)),
        (Look::Tuple(at, count), Look::Tuple(other, others)) => meet_tuples(
            at, count, other, others,
        ),
        _ => Meeting::Differ(rank(x).cmp(&rank(y))),
    }
}

/// What two tuples show, given their addresses and how many elements they have.
fn meet_tuples(at: u32, count: u32, other: u32, others: u32) -> Meeting
    requires left { 0 < count → at + 4 < 2 ^ 32 }
    requires right { 0 < others → other + 4 < 2 ^ 32 }
    ensures { result ≡ tuples_meet at count other others }
{
    if count != others {
        Meeting::Differ(count.cmp(&others))
    } else if count == 0 {
        Meeting::Same
    } else {
        Meeting::Deeper(row_of(at + 4, at, other + 4, other, count))
    }
}

/// The words of two cells from these addresses on.
fn row_of(left: u32, left_cell: u32, right: u32, right_cell: u32, count: u32) -> Row
    ensures { result ≡ pairs_from left left_cell right right_cell count }
{
    Row {
        left,
        left_cell,
        right,
        right_cell,
        count,
        inside: Inside::List,
    }
}

/// The order of two atoms by their numbers.
fn order_of_names(atoms: &Atoms, m: u32, n: u32) -> Ordering
    ensures { result ≡ names_order atoms.now m n }
{
    if m == n {
        return Ordering::Equal;
    }
    match (atoms.name(m), atoms.name(n)) {
        (Some(name), Some(other)) => name.as_str().cmp(other.as_str()),
        _ => Ordering::Equal,
    }
}

/// The place of its kind in the order of terms.
fn rank(look: Look) -> u32
    ensures { result ≡ look_rank look }
{
    match look {
        Look::Small(_) => 0,
        Look::Atom(_) => 1,
        Look::Tuple(_, _) => 2,
        Look::Nil => 3,
        Look::Cons(_) => 4,
        Look::Bad => 5,
    }
}

/// What the order of two immediate terms shows.
fn ordered(order: Ordering) -> Meeting
    ensures { result ≡ by_order order }
{
    match order {
        Ordering::Equal => Meeting::Same,
        unequal => Meeting::Differ(unequal),
    }
}
