ghost use Rattle.std.proofs.Common.{rules};
ghost use Rattle.std.specs.Cmp.Lexicographic.{pointwise};
ghost use Rattle.std.specs.Cmp.Rules.{comparing, hashing};
ghost use Rattle.std.specs.Hash as fed;
ghost use Rattle.std.specs.Prelude.{◌≡◌, ◌↔◌, ◌<◌, ◌≤◌, ◌==◌, length, IfOk, IsErrOf};
ghost use Rattle.std.specs.Str.{IsUtf8};
ghost use Rattle.term_tree.specs.Name.{characters_in};

use std::alloc::{AllocError, Global};
use std::hash::{Hash, Hasher};
use std::marker::Model;
use thiserror::Error;

/// The most characters that a name may have (Erlang reference manual, Data Types, Atom).
pub const MOST_CHARACTERS: usize = 255;

/// The text of an atom: 0 to 255 characters. Contracts see its bytes in UTF-8.
#[derive(Drop, Debug)]
pub struct Name {
    text: String,
}

/// Why a text is no name.
#[derive(Debug, Drop, Error)]
pub enum NameRefusal {
    /// It has more than 255 characters.
    #[error("a name has at most 255 characters")]
    TooLong,
    #[error("want of memory")]
    Memory(AllocError),
}

impl Model for Name {
    ghost use Rattle.std.specs.Prelude.{List, ℕ, ◌≤◌, string_bytes};
    ghost use Rattle.std.specs.Coded.{coded_list, coded_ℕ};
    ghost use Rattle.term_tree.specs.Name.{characters_in};

    ghost Value = { List ℕ };

    ghost coded = { coded_list coded_ℕ };

    ghost view = { λ n. string_bytes n.text };

    ghost invariant = { λ n. characters_in (string_bytes n.text) ≤ 255 };
}

/// How many characters a text has.
#[tactic(auto, using(std::proofs::lemmas::Str::chars_from_encodes))]
fn count_characters(text: &str) -> usize
    ensures { result ≡ characters_in text.now }
{
    text.chars().count()
}

impl Name {
    /// The name with this text.
    pub fn new(alloc: Global, text: &str) -> Result<Name, NameRefusal>
        ensures text { IfOk result (λ name. name ≡ text.now) }
        ensures too_long { IsErrOf result NameRefusal.TooLong ↔ (255 < characters_in text.now) }
    {
        if count_characters(text) > MOST_CHARACTERS {
            return Err(NameRefusal::TooLong);
        }
        match String::from_str(alloc, text) {
            Ok(text) => Ok(Name { text }),
            Err(e) => Err(NameRefusal::Memory(e)),
        }
    }

    /// The name with a text of no more bytes than a name may have characters.
    pub fn from_short(alloc: Global, text: &str) -> Result<Name, AllocError>
        requires { length text.now ≤ MOST_CHARACTERS }
        ensures { IfOk result (λ name. name ≡ text.now) }
    {
        let text = String::from_str(alloc, text)?;
        Ok(Name { text })
    }

    /// Another name with the same text.
    pub fn copy(&self, alloc: Global) -> Result<Name, AllocError>
        ensures { IfOk result (λ name. name ≡ self.now) }
    {
        let text = String::from_str(alloc, self.text.as_str())?;
        Ok(Name { text })
    }

    /// The text of the name.
    pub fn as_str(&self) -> &str
        ensures text { result.now ≡ self.now }
        ensures short { characters_in self.now ≤ 255 }
        ensures utf8 { IsUtf8 self.now }
    {
        let _ = &self.text;
        self.text.as_str()
    }
}

impl PartialEq for Name {
    ghost eq = { pointwise ◌==◌ };

    ghost laws = { Prim.search (comparing, rules) };

    fn eq(&self, other: &Name) -> bool {
        self.as_str() == other.as_str()
    }
}

impl Eq for Name {
    ghost laws = { Prim.search (comparing, rules) };
}

impl Hash for Name {
    ghost hash_input = { λ name. fed.str name };

    ghost respects_eq = { Prim.search (hashing, rules) };

    fn hash<H: Hasher>(&self, state: &mut H) {
        self.as_str().hash(state);
    }
}
