ghost use Rattle.std.specs.Prelude.{◌≡◌, IfOk};
ghost use Rattle.std.specs.List.{list_all};
ghost use Rattle.term_tree.specs.Small as numbers;
ghost use Rattle.term_tree.specs.Term as terms;

use crate::Name;
use sqlite_items::{Boxed, Items};
use std::alloc::{AllocError, Global};

/// A term. `List(v, None)` is a proper list, `[]` among them; `List(v, Some(t))` ends in `t`.
///
/// It is *canonical* where at every depth an `Int` is from -134,217,728 to 134,217,727 and a
/// `List(v, Some(t))` has a nonempty `v` and a `t` that is no `List` (`is_canonical` in specs).
#[derive(Drop, Debug)]
pub enum Term {
    Int(i32),
    Atom(Name),
    List(Items<Term>, Option<Boxed<Term>>),
    Tuple(Items<Term>),
}

/// One more than the greatest integer of a term, and the least one without its sign.
const SMALL_LIMIT: i32 = 134_217_728;

/// Whether a term may hold this integer: from -134,217,728 to 134,217,727.
fn is_small(i: i32) -> bool
    ensures { result ≡ numbers.is_small i }
{
    (-SMALL_LIMIT..SMALL_LIMIT).contains(&i)
}

impl Term {
    /// Whether the term is canonical, as each call that takes a term asks.
    #[cycle(canonical)]
    pub fn is_canonical(&self) -> bool
        ensures { result ≡ terms.is_canonical self.now }
    {
        match self {
            Term::Int(i) => is_small(*i),
            Term::Atom(_) => true,
            Term::List(items, end) => match end {
                None => are_canonical(items.as_slice()),
                Some(last) => {
                    if items.is_empty() {
                        return false;
                    }
                    if last.get().is_list() {
                        return false;
                    }
                    if !last.get().is_canonical() {
                        return false;
                    }
                    are_canonical(items.as_slice())
                }
            },
            Term::Tuple(items) => are_canonical(items.as_slice()),
        }
    }

    /// Whether the term is a list, `[]` among them.
    pub fn is_list(&self) -> bool
        ensures { result ≡ terms.is_list self.now }
    {
        matches!(self, Term::List(_, _))
    }

    /// Another term, equal to this one.
    #[cycle(copy)]
    pub fn copy(&self, alloc: Global) -> Result<Term, AllocError>
        ensures { IfOk result (λ term. term ≡ self.now) }
    {
        match self {
            Term::Int(i) => Ok(Term::Int(*i)),
            Term::Atom(name) => Ok(Term::Atom(name.copy(alloc)?)),
            Term::List(items, end) => {
                let items = copy_row(alloc, items.as_slice())?;
                let end = copy_end(alloc, end)?;
                Ok(Term::List(items, end))
            }
            Term::Tuple(items) => Ok(Term::Tuple(copy_row(alloc, items.as_slice())?)),
        }
    }
}

/// Whether each of these terms is canonical.
#[cycle(canonical)]
fn are_canonical(items: &[Term]) -> bool
    ensures { result ≡ list_all terms.is_canonical items.now }
{
    for item in items {
        if !item.is_canonical() {
            return false;
        }
    }
    true
}

/// Other terms, equal to these.
#[cycle(copy)]
fn copy_row(alloc: Global, terms: &[Term]) -> Result<Items<Term>, AllocError>
    ensures { IfOk result (λ copies. copies ≡ terms.now) }
{
    let mut copies = Items::new(alloc);
    for term in terms {
        copies.push(term.copy(alloc)?)?;
    }
    Ok(copies)
}

/// Another end of a list, equal to this one.
#[cycle(copy)]
fn copy_end(alloc: Global, end: &Option<Boxed<Term>>) -> Result<Option<Boxed<Term>>, AllocError>
    ensures { IfOk result (λ copy. copy ≡ end.now) }
{
    match end {
        None => Ok(None),
        Some(term) => Ok(Some(Boxed::new(alloc, term.get().copy(alloc)?)?)),
    }
}
