//! Whether a table has the atoms that terms and modules mention.
ghost use Rattle.ir_code.specs.Known.{knows, knows_mention, knows_all};
ghost use Rattle.ir_code.specs.Shown.{mention_shown, shown};
ghost use Rattle.std.specs.List.{list_all};
ghost use Rattle.std.specs.Prelude.{◌≡◌, map};
ghost use Rattle.term_tree.specs.Term.{end_tree, tree_of};

use crate::mentioning::Mention;
use sqlite_items::Boxed;
use tagged_words::Atoms;
use term_tree::Term;

#[cycle(is_term_known)]
fn is_term_known(atoms: &Atoms, term: &Term) -> bool
    ensures { result ≡ knows atoms.now (tree_of term.now) }
{
    match term {
        Term::Int(_) => true,
        Term::Atom(name) => atoms.has(name),
        Term::List(items, end) => {
            are_terms_known(atoms, items.as_slice()) && is_end_known(atoms, end)
        }
        Term::Tuple(items) => are_terms_known(atoms, items.as_slice()),
    }
}

#[cycle(is_term_known)]
fn are_terms_known(atoms: &Atoms, terms: &[Term]) -> bool
    ensures { result ≡ list_all (knows atoms.now) (map tree_of terms.now) }
{
    for term in terms {
        if !is_term_known(atoms, term) {
            return false;
        }
    }
    true
}

/// Of what a list ends in.
#[cycle(is_term_known)]
fn is_end_known(atoms: &Atoms, end: &Option<Boxed<Term>>) -> bool
    ensures { result ≡ knows atoms.now (end_tree end.now) }
{
    match end {
        None => true,
        Some(tail) => is_term_known(atoms, tail.get()),
    }
}

fn is_mention_known(atoms: &Atoms, mention: &Mention) -> bool
    ensures { result ≡ knows_mention atoms.now (mention_shown mention.now) }
{
    match mention {
        Mention::Named(name) => atoms.has(name),
        Mention::Literal(term) => is_term_known(atoms, term),
    }
}

/// Whether each name that is mentioned is an atom of the table, and each atom of a literal. It
/// calls itself only as deep as brackets nest.
pub fn are_known(atoms: &Atoms, mentions: &[Mention]) -> bool
    ensures { result ≡ knows_all atoms.now (shown mentions.now) }
{
    for mention in mentions {
        if !is_mention_known(atoms, mention) {
            return false;
        }
    }
    true
}
