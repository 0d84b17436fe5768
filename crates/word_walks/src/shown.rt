//! What a word adds to the text of a term where it is come by.
ghost use Rattle.std.specs.Fmt.{signed_decimal};
ghost use Rattle.std.specs.Prelude.{◌≡◌, ◌++◌, slice_get, string_bytes, OnOk};
ghost use Rattle.word_walks.specs.Shown.{mark_of, name_shown, shown, start, tail_shown};

use crate::scratch::Inside;
use std::alloc::{AllocError, Global};
use std::fmt::Write;
use tagged_words::{Atoms, Look};
use term_tree::name_text;

/// Where a word stands in the text of a term.
#[derive(Clone, Copy, Drop)]
pub(crate) enum Place {
    /// The whole term, a head or a first element: nothing comes before it.
    First,
    /// Another element of a tuple: a comma comes before it.
    Behind,
    /// The tail of a cons, whose closing bracket is still to come.
    Tail,
}

/// Adds an integer in decimal.
fn put_integer(out: &mut String, i: i32) -> Result<(), AllocError>
    ensures { OnOk result (string_bytes out.new ≡ string_bytes out.old ++ signed_decimal i) }
{
    write!(out, "{i}")
}

/// Adds the text of the atom with a number, if there is one.
fn put_atom(alloc: Global, out: &mut String, atoms: &Atoms, n: u32) -> Result<(), AllocError>
    ensures { OnOk result (string_bytes out.new ≡ string_bytes out.old ++ name_shown (slice_get atoms.now n)) }
{
    match atoms.name(n) {
        Some(name) => out.push_str(name_text(alloc, name)?.as_str()),
        None => Ok(()),
    }
}

/// Adds a term by itself as far as one look tells: of a cell its opening bracket.
fn put_start(alloc: Global, out: &mut String, atoms: &Atoms, look: Look) -> Result<(), AllocError>
    ensures { OnOk result (string_bytes out.new ≡ string_bytes out.old ++ start atoms.now look) }
{
    match look {
        Look::Small(i) => put_integer(out, i),
        Look::Atom(n) => put_atom(alloc, out, atoms, n),
        Look::Nil => out.push_str("[]"),
        Look::Cons(_) => out.push('['),
        Look::Tuple(_, _) => out.push('{'),
        Look::Bad => Ok(()),
    }
}

/// Adds the same of the tail of a cons: nothing for the end of a list.
fn put_tail(alloc: Global, out: &mut String, atoms: &Atoms, look: Look) -> Result<(), AllocError>
    ensures { OnOk result (string_bytes out.new ≡ string_bytes out.old ++ tail_shown atoms.now look) }
{
    match look {
        Look::Nil => Ok(()),
        Look::Cons(_) => out.push(','),
        _ => {
            out.push('|')?;
            put_start(alloc, out, atoms, look)
        }
    }
}

/// Adds what a word shows at its place.
pub(crate) fn put_shown(
    alloc: Global,
    out: &mut String,
    atoms: &Atoms,
    place: Place,
    look: Look,
) -> Result<(), AllocError>
    ensures { OnOk result (string_bytes out.new ≡ string_bytes out.old ++ shown atoms.now place look) }
{
    match place {
        Place::First => put_start(alloc, out, atoms, look),
        Place::Behind => {
            out.push(',')?;
            put_start(alloc, out, atoms, look)
        }
        Place::Tail => put_tail(alloc, out, atoms, look),
    }
}

/// Adds the closing bracket of a cell.
pub(crate) fn put_mark(out: &mut String, inside: Inside) -> Result<(), AllocError>
    ensures { OnOk result (string_bytes out.new ≡ string_bytes out.old ++ mark_of inside) }
{
    match inside {
        Inside::List => out.push(']'),
        Inside::Elements => out.push('}'),
        Inside::Others => out.push('}'),
    }
}
