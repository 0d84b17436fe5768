ghost use Rattle.std.specs.Prelude.{◌≡◌, ◌++◌, IsTrue, map, string_bytes, option_map, IfOk, OnOk};
ghost use Rattle.std.specs.Fmt.{signed_decimal};
ghost use Rattle.std.specs.List.{list_all};
ghost use Rattle.term_tree.specs.Term.{tree_of, is_canonical, is_end};
ghost use Rattle.term_tree.specs.Text.{text_of, joined, end_text};

use crate::Term;
use crate::text::put_name;
use sqlite_items::Boxed;
use std::alloc::{AllocError, Global};
use std::fmt::Write;

/// The text of a term: `{a,b}`, `[a,b]`, `[a|b]`, with no spaces. It goes along lists and tuples
/// by loops, and calls itself only as deep as brackets nest.
pub fn term_text(alloc: Global, term: &Term) -> Result<String, AllocError>
    requires { IsTrue (is_canonical term.now) }
    ensures { IfOk result (λ text. string_bytes text ≡ text_of (tree_of term.now)) }
{
    let mut out = String::new(alloc);
    put_term(&mut out, term)?;
    Ok(out)
}

/// Adds the text of a term.
#[cycle(put_term)]
fn put_term(out: &mut String, term: &Term) -> Result<(), AllocError>
    requires { IsTrue (is_canonical term.now) }
    ensures { OnOk result (string_bytes out.new ≡ string_bytes out.old ++ text_of (tree_of term.now)) }
{
    match term {
        Term::Int(i) => put_integer(out, *i),
        Term::Atom(name) => put_name(out, name),
        Term::List(items, end) => {
            out.push('[')?;
            put_row(out, items.as_slice())?;
            put_end(out, end)?;
            out.push(']')
        }
        Term::Tuple(items) => {
            out.push('{')?;
            put_row(out, items.as_slice())?;
            out.push('}')
        }
    }
}

/// Adds an integer in decimal.
fn put_integer(out: &mut String, i: i32) -> Result<(), AllocError>
    ensures { OnOk result (string_bytes out.new ≡ string_bytes out.old ++ signed_decimal i) }
{
    write!(out, "{i}")
}

/// Adds the texts of terms, with commas between them.
#[cycle(put_term)]
fn put_row(out: &mut String, items: &[Term]) -> Result<(), AllocError>
    requires { IsTrue (list_all is_canonical items.now) }
    ensures { OnOk result (string_bytes out.new ≡ string_bytes out.old ++ joined (map tree_of items.now)) }
{
    for (i, item) in items.iter().enumerate() {
        if i > 0 {
            out.push(',')?;
        }
        put_term(out, item)?;
    }
    Ok(())
}

/// Adds what a list ends in, unless that is `[]`.
#[cycle(put_term)]
fn put_end(out: &mut String, end: &Option<Boxed<Term>>) -> Result<(), AllocError>
    requires { IsTrue (is_end end.now) }
    ensures { OnOk result (string_bytes out.new ≡ string_bytes out.old ++ end_text (option_map tree_of end.now)) }
{
    match end {
        None => Ok(()),
        Some(tail) => {
            out.push('|')?;
            put_term(out, tail.get())
        }
    }
}
