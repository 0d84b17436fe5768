//! Atoms are added to a table as terms and modules mention them.
ghost use Rattle.ir_code.specs.Constants.{with_mention, with_mentions};
ghost use Rattle.ir_code.specs.Shown.{mention_shown, shown};
ghost use Rattle.std.specs.Prelude.{◌≡◌, ◌<◌, length, map, IfOk, OnOk};
ghost use Rattle.tagged_words.specs.Atoms.{first_atoms};
ghost use Rattle.tagged_words.specs.Laid.{with_atom, with_atoms, with_atoms_of};
ghost use Rattle.tagged_words.specs.declared.addresses.TheConstants.{MOST_ATOM_NUMBERS};
ghost use Rattle.term_tree.specs.Term.{end_tree, tree_of};

use crate::mentioning::Mention;
use sqlite_items::Boxed;
use std::alloc::{AllocError, Global};
use tagged_words::Atoms;
use term_tree::{Name, Term};

fn add_name(alloc: Global, atoms: &mut Atoms, name: &Name) -> Result<(), AllocError>
    requires { length (with_atom atoms.old name.now) < MOST_ATOM_NUMBERS }
    ensures { OnOk result (atoms.new ≡ with_atom atoms.old name.now) }
{
    atoms.add(name.copy(alloc)?)?;
    Ok(())
}

/// Adds the atoms of a term to a table, from left to right, each at its first appearance, unless
/// it is there. With them the table has fewer names than there are numbers of atoms. The one error
/// is want of memory; some of the atoms may then be there.
#[cycle(add_atoms)]
pub fn add_atoms(alloc: Global, atoms: &mut Atoms, term: &Term) -> Result<(), AllocError>
    requires { length (with_atoms atoms.old (tree_of term.now)) < MOST_ATOM_NUMBERS }
    ensures { OnOk result (atoms.new ≡ with_atoms atoms.old (tree_of term.now)) }
{
    match term {
        Term::Int(_) => Ok(()),
        Term::Atom(name) => add_name(alloc, atoms, name),
        Term::List(items, end) => {
            add_row(alloc, atoms, items.as_slice())?;
            add_end(alloc, atoms, end)
        }
        Term::Tuple(items) => add_row(alloc, atoms, items.as_slice()),
    }
}

/// Adds the atoms of terms, one term after the other, as `add_atoms` does.
#[cycle(add_atoms)]
pub fn add_row(alloc: Global, atoms: &mut Atoms, items: &[Term]) -> Result<(), AllocError>
    requires { length (with_atoms_of atoms.old (map tree_of items.now)) < MOST_ATOM_NUMBERS }
    ensures { OnOk result (atoms.new ≡ with_atoms_of atoms.old (map tree_of items.now)) }
{
    for item in items {
        add_atoms(alloc, atoms, item)?;
    }
    Ok(())
}

/// The atoms of what a list ends in.
#[cycle(add_atoms)]
fn add_end(alloc: Global, atoms: &mut Atoms, end: &Option<Boxed<Term>>) -> Result<(), AllocError>
    requires { length (with_atoms atoms.old (end_tree end.now)) < MOST_ATOM_NUMBERS }
    ensures { OnOk result (atoms.new ≡ with_atoms atoms.old (end_tree end.now)) }
{
    match end {
        None => Ok(()),
        Some(tail) => add_atoms(alloc, atoms, tail.get()),
    }
}

fn add_mention(alloc: Global, atoms: &mut Atoms, mention: &Mention) -> Result<(), AllocError>
    requires { length (with_mention atoms.old (mention_shown mention.now)) < MOST_ATOM_NUMBERS }
    ensures { OnOk result (atoms.new ≡ with_mention atoms.old (mention_shown mention.now)) }
{
    match mention {
        Mention::Named(name) => add_name(alloc, atoms, name),
        Mention::Literal(term) => add_atoms(alloc, atoms, term),
    }
}

fn add_mentions(alloc: Global, atoms: &mut Atoms, mentions: &[Mention]) -> Result<(), AllocError>
    requires { length (with_mentions atoms.old (shown mentions.now)) < MOST_ATOM_NUMBERS }
    ensures { OnOk result (atoms.new ≡ with_mentions atoms.old (shown mentions.now)) }
{
    for mention in mentions {
        add_mention(alloc, atoms, mention)?;
    }
    Ok(())
}

/// The table of what is mentioned.
pub(crate) fn table(alloc: Global, mentions: &[Mention]) -> Result<Atoms, AllocError>
    requires { length (with_mentions first_atoms (shown mentions.now)) < MOST_ATOM_NUMBERS }
    ensures { IfOk result (λ atoms. atoms ≡ with_mentions first_atoms (shown mentions.now)) }
{
    let mut atoms = Atoms::new(alloc)?;
    add_mentions(alloc, &mut atoms, mentions)?;
    Ok(atoms)
}
