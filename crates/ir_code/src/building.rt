//! The constants of modules.
ghost use Rattle.beam_code.specs.CanonicalModule.{are_canonical_functions};
ghost use Rattle.image_format.specs.declared.limits.TheConstants.{MOST_LITERALS};
ghost use Rattle.ir_code.specs.Constants.{ConstantsHold, constants_of, with_literals};
ghost use Rattle.ir_code.specs.Laying.{CanStand, literals_in};
ghost use Rattle.ir_code.specs.Mentions.{literals_of, mentions_of};
ghost use Rattle.ir_code.specs.Room.{HaveRoom};
ghost use Rattle.laid_terms.specs.Named.{IsNamed};
ghost use Rattle.std.specs.List.{AllByRecursion, list_all};
ghost use Rattle.std.specs.Prelude.{◌≡◌, ◌≤◌, map, true, IfOk};
ghost use Rattle.term_tree.specs.IsTerm.{IsTerm};
ghost use Rattle.term_tree.specs.Name.{is_name};
ghost use Rattle.term_tree.specs.Term.{is_canonical, tree_of};
ghost use Rattle.word_laying.specs.Count.{row_words};

use crate::adding::table;
use crate::laying::{count_words, lay_mentions, words_from};
use crate::mentioning::{Mention, mentions};
use crate::parts::Constants;
use beam_code::Module;
use std::alloc::{AllocError, Global};
use tagged_words::{Atoms, LITERAL_START, WordBlock};
use term_tree::{Name, Term};

/// The most names that modules may have, each as often as it stands there: as many as an image may
/// have atoms, less the fourteen of the machine itself.
pub const MOST_NAMES: u32 = 33_554_418;

fn is_name(name: &Name)
    ensures { is_name name.now ≡ true }
{
    let _text = name.as_str();
}

/// That the names of a table are names, which their type keeps.
fn are_names(names: &[Name])
    ensures { list_all is_name names.now ≡ true }
{
    for name in names {
        is_name(name);
    }
}

/// That canonical terms can be laid with a table of their atoms: its names are names, which their
/// type keeps. The words of the terms may be as many as an image may have literal words.
pub fn terms_can_stand(terms: &[Term], atoms: &Atoms)
    requires canonical { list_all is_canonical terms.now ≡ true }
    requires named { AllByRecursion (IsNamed atoms.now) (map tree_of terms.now) }
    requires few { row_words 0 (map tree_of terms.now) ≤ MOST_LITERALS }
    ensures { AllByRecursion (CanStand atoms.now) (map tree_of terms.now) }
{
    are_names(atoms.names());
}

/// That the terms of modules are canonical, which their type keeps.
fn are_canonical(modules: &[Module])
    ensures { list_all (λ m. are_canonical_functions m.functions) modules.now ≡ true }
{
    for m in modules {
        m.functions.terms_are_canonical();
    }
}

fn with_literals(alloc: Global, mentions: &[Mention], atoms: Atoms) -> Result<Constants, AllocError>
    requires room { row_words 0 (literals_in mentions.now) ≤ MOST_LITERALS }
    requires stand { AllByRecursion (CanStand atoms) (literals_in mentions.now) }
    ensures { IfOk result (λ c. c ≡ with_literals atoms (literals_in mentions.now)) }
{
    let count = count_words(mentions);
    let mut block = WordBlock::new(alloc, LITERAL_START, count)?;
    let mut roots = Vec::new(alloc);
    lay_mentions(&mut block, &mut roots, mentions, &atoms)?;
    let literals = words_from(alloc, &block, count)?;
    Ok(Constants {
        atoms,
        literals,
        roots,
    })
}

/// The constants of modules: the atoms that they mention behind the machine's own, in the order of
/// their first appearance; the words of their literal operands, one after the other; and the word
/// of each of these, in the order of the texts. The words may be 33,554,432 together, the names
/// and atoms 33,554,418, repeats counted. The one error is want of memory.
pub fn constants(alloc: Global, modules: &[Module]) -> Result<Constants, AllocError>
    requires { HaveRoom modules.now }
    ensures constants { IfOk result (λ c. c ≡ constants_of modules.now) }
    ensures hold { IfOk result (λ c. ConstantsHold c modules.now) }
    ensures terms { IfOk result (λ c. AllByRecursion IsTerm (literals_of (mentions_of modules.now))) }
{
    are_canonical(modules);
    let all = mentions(alloc, modules)?;
    let atoms = table(alloc, all.as_slice())?;
    are_names(atoms.names());
    let made = with_literals(alloc, all.as_slice(), atoms)?;
    Ok(made)
}
