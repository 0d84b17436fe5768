ghost use Rattle.std.specs.Prelude.{◌≡◌, IsTrue, map, length};
ghost use Rattle.std.specs.List.{list_all};
ghost use Rattle.term_tree.specs.Tree as tree;
ghost use Rattle.term_tree.specs.Term.{tree_of, end_tree, is_canonical, is_end};
ghost use Rattle.term_tree.specs.Order.{order, order_front};

use crate::{Name, Term};
use sqlite_items::Boxed;
use std::cmp::Ordering;

/// The order of terms: integers, atoms, tuples, `[]`, conses. It takes no memory, goes along lists
/// and tuples by loops, and calls itself only as deep as brackets nest.
#[cycle(compare)]
pub fn compare(a: &Term, b: &Term) -> Ordering
    requires left { IsTrue (is_canonical a.now) }
    requires right { IsTrue (is_canonical b.now) }
    ensures { result ≡ order (tree_of a.now) (tree_of b.now) }
{
    match a {
        Term::Int(i) => compare_integer(*i, b),
        Term::Atom(name) => compare_name(name, b),
        Term::Tuple(items) => match b {
            Term::Int(_) => Ordering::Greater,
            Term::Atom(_) => Ordering::Greater,
            Term::Tuple(others) => {
                match items.len().cmp(&others.len()) {
                    Ordering::Equal => compare_front(items.as_slice(), others.as_slice()),
                    unequal => unequal,
                }
            }
            Term::List(_, _) => Ordering::Less,
        },
        Term::List(items, end) => match b {
            Term::Int(_) => Ordering::Greater,
            Term::Atom(_) => Ordering::Greater,
            Term::Tuple(_) => Ordering::Greater,
            Term::List(others, other_end) => {
                match compare_front(items.as_slice(), others.as_slice()) {
                    Ordering::Equal => match items.len().cmp(&others.len()) {
                        Ordering::Equal => compare_ends(end, other_end),
                        unequal => unequal,
                    },
                    unequal => unequal,
                }
            }
        },
    }
}

/// The order of an integer and a term.
fn compare_integer(i: i32, b: &Term) -> Ordering
    requires { IsTrue (is_canonical b.now) }
    ensures { result ≡ order (tree.Int i) (tree_of b.now) }
{
    match b {
        Term::Int(j) => i.cmp(j),
        Term::Atom(_) => Ordering::Less,
        Term::Tuple(_) => Ordering::Less,
        Term::List(_, _) => Ordering::Less,
    }
}

/// The order of an atom and a term.
fn compare_name(name: &Name, b: &Term) -> Ordering
    requires { IsTrue (is_canonical b.now) }
    ensures { result ≡ order (tree.Atom name.now) (tree_of b.now) }
{
    match b {
        Term::Int(_) => Ordering::Greater,
        Term::Atom(other) => name.as_str().cmp(other.as_str()),
        Term::Tuple(_) => Ordering::Less,
        Term::List(_, _) => Ordering::Less,
    }
}

/// The first difference of two rows of terms, as far as both reach.
#[cycle(compare)]
fn compare_front(items: &[Term], others: &[Term]) -> Ordering
    requires left { IsTrue (list_all is_canonical items.now) }
    requires right { IsTrue (list_all is_canonical others.now) }
    ensures { result ≡ order_front (map tree_of items.now) (map tree_of others.now) }
{
    for i in 0..items.len().min(others.len()) {
        match compare(&items[i], &others[i]) {
            Ordering::Equal => (),
            unequal => return unequal,
        }
    }
    Ordering::Equal
}

/// The order of what two lists end in, behind elements of one number.
#[cycle(compare)]
fn compare_ends(end: &Option<Boxed<Term>>, other: &Option<Boxed<Term>>) -> Ordering
    requires left { IsTrue (is_end end.now) }
    requires right { IsTrue (is_end other.now) }
    ensures { result ≡ order (end_tree end.now) (end_tree other.now) }
{
    match end {
        None => match other {
            None => Ordering::Equal,
            Some(_) => Ordering::Greater,
        },
        Some(a) => match other {
            None => Ordering::Less,
            Some(b) => compare(a.get(), b.get()),
        },
    }
}
