//! Terms and names of `term_tree`: their texts, their order, and which are canonical.

use sqlite_items::{Boxed, Items};
use std::alloc::Global;
use std::cmp::Ordering;
use std::test::Fail;
use term_tree::{Name, NameRefusal, Term, compare, name_text, term_text};

/// A term and its text.
#[derive(Drop)]
struct Row {
    term: Term,
    text: &'static str,
}

fn put(rows: &mut Vec<Row>, term: Term, text: &'static str) -> Result<(), Fail> {
    rows.push(Row { term, text })?;
    Ok(())
}

fn atom(alloc: Global, text: &str) -> Result<Term, Fail> {
    Ok(Term::Atom(Name::new(alloc, text)?))
}

fn integers(alloc: Global, numbers: &[i32]) -> Result<Items<Term>, Fail> {
    let mut items = Items::new(alloc);
    for i in numbers {
        items.push(Term::Int(*i))?;
    }
    Ok(items)
}

fn list(alloc: Global, numbers: &[i32]) -> Result<Term, Fail> {
    Ok(Term::List(integers(alloc, numbers)?, None))
}

fn list_to(alloc: Global, numbers: &[i32], end: Term) -> Result<Term, Fail> {
    let end = Boxed::new(alloc, end)?;
    Ok(Term::List(integers(alloc, numbers)?, Some(end)))
}

/// An empty list, alone in a list of terms.
fn nothing_alone(alloc: Global) -> Result<Items<Term>, Fail> {
    let mut items = Items::new(alloc);
    items.push(Term::List(Items::new(alloc), None))?;
    Ok(items)
}

fn one_and_an_atom(alloc: Global) -> Result<Items<Term>, Fail> {
    let mut items = integers(alloc, &[1])?;
    items.push(atom(alloc, "a")?)?;
    Ok(items)
}

const INTEGERS: [(i32, &str); 4] = [
    (-134_217_728, "-134217728"),
    (-1, "-1"),
    (0, "0"),
    (134_217_727, "134217727"),
];

const ATOMS: [(&str, &str); 12] = [
    ("", "''"),
    ("A", "'A'"),
    ("a", "a"),
    ("a b", "'a b'"),
    ("aB_1@x", "aB_1@x"),
    ("and", "'and'"),
    ("andy", "andy"),
    ("don't\\", "'don\\'t\\\\'"),
    ("\u{7f}\n", "'\\x{7F}\\x{A}'"),
    ("\u{e9}", "'\\x{E9}'"),
    ("\u{ffff}", "'\\x{FFFF}'"),
    ("\u{10000}", "'\\x{10000}'"),
];

fn put_tuples(alloc: Global, rows: &mut Vec<Row>) -> Result<(), Fail> {
    put(rows, Term::Tuple(Items::new(alloc)), "{}")?;
    put(rows, Term::Tuple(nothing_alone(alloc)?), "{[]}")?;
    put(rows, Term::Tuple(integers(alloc, &[1, 2])?), "{1,2}")?;
    put(rows, Term::Tuple(one_and_an_atom(alloc)?), "{1,a}")
}

fn put_lists(alloc: Global, rows: &mut Vec<Row>) -> Result<(), Fail> {
    put(rows, list(alloc, &[])?, "[]")?;
    put(rows, list_to(alloc, &[1], Term::Int(2))?, "[1|2]")?;
    put(rows, list(alloc, &[1])?, "[1]")?;
    put(rows, list_to(alloc, &[1, 2], atom(alloc, "a")?)?, "[1,2|a]")?;
    put(rows, list(alloc, &[1, 2])?, "[1,2]")?;
    put(rows, list(alloc, &[2])?, "[2]")?;
    put(rows, Term::List(nothing_alone(alloc)?, None), "[[]]")
}

/// Terms in their order.
fn rows(alloc: Global) -> Result<Vec<Row>, Fail> {
    let mut rows = Vec::new(alloc);
    for (i, text) in INTEGERS.iter() {
        put(&mut rows, Term::Int(*i), text)?;
    }
    for (name, text) in ATOMS.iter() {
        put(&mut rows, atom(alloc, name)?, text)?;
    }
    put_tuples(alloc, &mut rows)?;
    put_lists(alloc, &mut rows)?;
    Ok(rows)
}

#[test]
fn terms_have_their_texts(rt: HostRuntime) -> Result<(), Fail> {
    let rows = rows(rt.alloc())?;
    for row in rows.as_slice() {
        assert!(rt; row.term.is_canonical(), "{}", row.text);
        let text = term_text(rt.alloc(), &row.term)?;
        assert_eq!(rt; text.as_str(), row.text);
    }
    Ok(())
}

#[test]
fn terms_have_their_order(rt: HostRuntime) -> Result<(), Fail> {
    let rows = rows(rt.alloc())?;
    for (i, left) in rows.as_slice().iter().enumerate() {
        let copy = left.term.copy(rt.alloc())?;
        for (j, right) in rows.as_slice().iter().enumerate() {
            assert!(rt; copy.is_canonical() && right.term.is_canonical());
            let order = compare(&copy, &right.term);
            assert_eq!(rt; order, i.cmp(&j), "{} {}", left.text, right.text);
        }
    }
    Ok(())
}

/// Whether a list of the integer is canonical, and one that ends in it.
fn are_canonical(alloc: Global, i: i32) -> Result<(bool, bool), Fail> {
    let proper = list(alloc, &[i])?.is_canonical();
    Ok((proper, list_to(alloc, &[1], Term::Int(i))?.is_canonical()))
}

#[test]
fn canonical_terms_are_told_from_others(rt: HostRuntime) -> Result<(), Fail> {
    let alloc = rt.alloc();
    for (i, want) in [
        (134_217_727, true),
        (134_217_728, false),
        (-134_217_728, true),
        (-134_217_729, false),
    ] {
        assert_eq!(rt; are_canonical(alloc, i)?, (want, want), "{i}");
    }
    assert!(rt; !list_to(alloc, &[], Term::Int(1))?.is_canonical());
    assert!(rt; !list_to(alloc, &[1], list(alloc, &[])?)?.is_canonical());
    Ok(())
}

fn accents(alloc: Global, count: u32) -> Result<String, Fail> {
    let mut text = String::new(alloc);
    for _i in 0..count {
        text.push('\u{e9}')?;
    }
    Ok(text)
}

#[test]
fn a_name_of_255_characters(rt: HostRuntime) -> Result<(), Fail> {
    let text = accents(rt.alloc(), 255)?;
    let name = Name::new(rt.alloc(), text.as_str())?;
    assert_eq!(rt; name.as_str(), text.as_str());
    assert_eq!(rt; name_text(rt.alloc(), &name)?.len(), 255 * 6 + 2);
    Ok(())
}

#[test]
fn a_name_of_256_characters(rt: HostRuntime) -> Result<(), Fail> {
    let mut text = accents(rt.alloc(), 255)?;
    text.push('x')?;
    assert!(rt;
        matches!(
            Name::new(rt.alloc(), text.as_str()),
            Err(NameRefusal::TooLong)
        )
    );
    Ok(())
}

fn long_list(alloc: Global) -> Result<Term, Fail> {
    let mut items = Items::new(alloc);
    for _i in 0..500_000 {
        items.push(Term::Int(7))?;
    }
    Ok(Term::List(items, None))
}

#[test]
fn a_long_list_is_gone_along(rt: HostRuntime) -> Result<(), Fail> {
    let term = long_list(rt.alloc())?;
    let copy = term.copy(rt.alloc())?;
    assert!(rt; term.is_canonical() && copy.is_canonical());
    assert_eq!(rt; compare(&term, &copy), Ordering::Equal);
    assert_eq!(rt; term_text(rt.alloc(), &term)?.len(), 1_000_001);
    Ok(())
}
