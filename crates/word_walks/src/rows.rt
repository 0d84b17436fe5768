//! The rows of the cells whose text is begun.
ghost use Rattle.std.specs.Prelude.{◌≡◌, ◌<◌, length};
ghost use Rattle.word_walks.specs.Shown.{opened, place_of, rest_of, row_index, rows_with, used_with};

use crate::scratch::{BLANK, Inside, Row};
use crate::shown::Place;
use tagged_words::Look;

/// The row of the cell that a word shows, with all its words still to come.
fn opened(look: Look) -> Option<Row>
    ensures { result ≡ opened look }
{
    match look {
        Look::Cons(at) => Some(Row {
            left: at,
            left_cell: at,
            count: 2,
            inside: Inside::List,
            ..BLANK
        }),
        Look::Tuple(at, count) => Some(Row {
            left: at.wrapping_add(4),
            left_cell: at,
            count,
            inside: Inside::Elements,
            ..BLANK
        }),
        _ => None,
    }
}

/// Where the row of a cell goes: the cons that is the tail of a list takes the place of the cons before it.
fn row_index(place: Place, look: Look, used: usize) -> usize
    ensures { result ≡ row_index place look used }
{
    match (place, look) {
        (Place::Tail, Look::Cons(_)) => used.saturating_sub(1),
        _ => used,
    }
}

/// Puts the row of the cell that a word shows at its place, and says how many rows there are then.
pub(crate) fn push(rows: &mut [Row], used: usize, place: Place, look: Look) -> usize
    requires { used < length rows.old }
    ensures rows { rows.new ≡ rows_with (opened look) (row_index place look used) rows.old }
    ensures used { result ≡ used_with (opened look) (row_index place look used) used }
{
    let index = row_index(place, look, used);
    match opened(look) {
        None => used,
        Some(row) => {
            rows[index] = row;
            index + 1
        }
    }
}

/// Where the next word of a row stands.
pub(crate) fn place_of(inside: Inside, count: u32) -> Place
    ensures { result ≡ place_of inside count }
{
    match inside {
        Inside::List => {
            if count == 1 {
                Place::Tail
            } else {
                Place::First
            }
        }
        Inside::Elements => Place::First,
        Inside::Others => Place::Behind,
    }
}

/// What is left of a row behind its next word.
pub(crate) fn rest_of(row: Row) -> Row
    requires { 0 < row.count }
    ensures { result ≡ rest_of row }
{
    Row {
        left: row.left.wrapping_add(4),
        count: row.count - 1,
        inside: match row.inside {
            Inside::Elements => Inside::Others,
            inside => inside,
        },
        ..row
    }
}
