ghost use Rattle.indexmap.specs.IndexSet.{keys};
ghost use Rattle.std.specs.Cmp.Lexicographic.{pointwise};
ghost use Rattle.std.specs.Option.{option_copied};
ghost use Rattle.std.specs.Prelude.{◌≡◌, ◌<◌, ◌≤◌, ◌^◌, ◌==◌, [], Some, length, map, position, slice_get, IfOk, OnOk, OnErr};
ghost use Rattle.tagged_words.specs.Atoms.{IsTable, begins, first_atoms, is_among};
ghost use Rattle.tagged_words.specs.Laid.{with_atom};
ghost use Rattle.term_tree.specs.Name.{same_name};

use crate::addresses::MOST_ATOM_NUMBERS;
use indexmap::IndexSet;
use std::alloc::{AllocError, Global};
use std::marker::Model;
use term_tree::{MOST_CHARACTERS, Name};

/// The atoms that the machine itself makes.
const FIRST_ATOMS: [&str; 14] = [
    "error",
    "exit",
    "throw",
    "EXIT",
    "true",
    "false",
    "badarith",
    "badarg",
    "function_clause",
    "if_clause",
    "undef",
    "badmatch",
    "case_clause",
    "try_clause",
];

/// Atoms by number: distinct names, of which the first fourteen are those that the machine itself
/// makes.
#[derive(Drop)]
pub struct Atoms {
    names: IndexSet<Name>,
}

impl Model for Atoms {
    ghost use Rattle.std.specs.Prelude.{List, ℕ};
    ghost use Rattle.std.specs.Coded.{coded_list, coded_ℕ};
    ghost use Rattle.tagged_words.specs.Atoms.{IsTable};

    ghost Value = { List (List ℕ) };

    ghost coded = { coded_list (coded_list coded_ℕ) };

    ghost view = { λ a. a.names.keys };

    ghost invariant = { λ a. IsTable a.names.keys };
}

fn is_text(text: &str, name: &Name) -> bool
    ensures { result ≡ pointwise ◌==◌ text.now name.now }
{
    text == name.as_str()
}

fn begin_with(names: &[Name], texts: &[&str]) -> bool
    ensures { result ≡ begins (map (λ w. w.now) texts.now) names.now }
{
    if names.len() < texts.len() {
        return false;
    }
    for i in 0..texts.len() {
        if !is_text(texts[i], &names[i]) {
            return false;
        }
    }
    true
}

/// Whether a table begins with the atoms that the machine itself makes.
pub fn has_first_atoms(names: &[Name]) -> bool
    ensures { result ≡ begins first_atoms names.now }
{
    begin_with(names, &FIRST_ATOMS)
}

fn add_text(alloc: Global, names: &mut IndexSet<Name>, text: &str) -> Result<(), AllocError>
    requires { length text.now ≤ MOST_CHARACTERS }
    ensures { OnOk result (keys names.new ≡ with_atom (keys names.old) text.now) }
{
    names.insert(Name::from_short(alloc, text)?)?;
    Ok(())
}

/// The first fourteen names.
fn first_names(alloc: Global) -> Result<IndexSet<Name>, AllocError>
    ensures { IfOk result (λ names. keys names ≡ first_atoms) }
{
    let mut names = IndexSet::new(alloc);
    add_text(alloc, &mut names, FIRST_ATOMS[0])?;
    add_text(alloc, &mut names, FIRST_ATOMS[1])?;
    add_text(alloc, &mut names, FIRST_ATOMS[2])?;
    add_text(alloc, &mut names, FIRST_ATOMS[3])?;
    add_text(alloc, &mut names, FIRST_ATOMS[4])?;
    add_text(alloc, &mut names, FIRST_ATOMS[5])?;
    add_text(alloc, &mut names, FIRST_ATOMS[6])?;
    add_text(alloc, &mut names, FIRST_ATOMS[7])?;
    add_text(alloc, &mut names, FIRST_ATOMS[8])?;
    add_text(alloc, &mut names, FIRST_ATOMS[9])?;
    add_text(alloc, &mut names, FIRST_ATOMS[10])?;
    add_text(alloc, &mut names, FIRST_ATOMS[11])?;
    add_text(alloc, &mut names, FIRST_ATOMS[12])?;
    add_text(alloc, &mut names, FIRST_ATOMS[13])?;
    Ok(names)
}

/// A set of these names, in their order, where no two are the same.
fn set_of(alloc: Global, names: &[Name]) -> Result<IndexSet<Name>, AllocError>
    requires { IsTable names.now }
    ensures { IfOk result (λ set. keys set ≡ names.now) }
{
    let mut set = IndexSet::new(alloc);
    for name in names {
        set.insert(name.copy(alloc)?)?;
    }
    Ok(set)
}

impl Atoms {
    /// The first fourteen atoms.
    pub fn new(alloc: Global) -> Result<Atoms, AllocError>
        ensures { IfOk result (λ atoms. atoms ≡ first_atoms) }
    {
        let names = first_names(alloc)?;
        Ok(Atoms { names })
    }

    /// The table of these names.
    pub fn of(alloc: Global, names: &[Name]) -> Result<Atoms, AllocError>
        requires { IsTable names.now }
        ensures { IfOk result (λ atoms. atoms ≡ names.now) }
    {
        let names = set_of(alloc, names)?;
        Ok(Atoms { names })
    }

    /// How many atoms there are.
    pub fn len(&self) -> u32
        ensures length { result ≡ length self.now }
        ensures table { IsTable self.now }
    {
        self.names.len() as u32
    }

    /// Whether there is an atom with this name.
    pub fn has(&self, name: &Name) -> bool
        ensures { result ≡ is_among name.now self.now }
    {
        self.names.contains(name)
    }

    /// The number of the atom with this name, if there is one.
    pub fn number(&self, name: &Name) -> Option<u32>
        ensures number { result ≡ position (same_name name.now) self.now }
        ensures few { length self.now ≤ MOST_ATOM_NUMBERS }
    {
        match self.names.get_index_of(name) {
            Some(place) => Some(place as u32),
            None => None,
        }
    }

    /// The name of the atom with a number, if there is one.
    pub fn name(&self, n: u32) -> Option<&Name>
        ensures { option_copied result ≡ slice_get self.now n }
    {
        self.names.get_index(n as usize)
    }

    /// The names by number.
    pub fn names(&self) -> &[Name]
        ensures { result.now ≡ self.now }
    {
        self.names.as_slice()
    }

    /// The number of the atom with this name, which is added behind the others unless it is there.
    pub fn add(&mut self, name: Name) -> Result<u32, AllocError>
        requires { length self.old < MOST_ATOM_NUMBERS }
        ensures ok { OnOk result (self.new ≡ with_atom self.old name) }
        ensures number { IfOk result (λ n. position (same_name name) self.new ≡ Some n) }
        ensures err { OnErr result (self.new ≡ self.old) }
    {
        let (place, _new) = self.names.insert_full(name)?;
        Ok(place as u32)
    }
}
