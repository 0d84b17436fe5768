//! The arguments of a call: their atoms, and their words at the start of the heap.

ghost use Rattle.beam_code.specs.Meaning.{words_in};
ghost use Rattle.image_format.specs.Fitting.{IsFitting};
ghost use Rattle.ir_code.specs.Laying.{CanStand};
ghost use Rattle.mode_switch.specs.Call.{IsInRange};
ghost use Rattle.mode_switch.specs.Laying.{region_with};
ghost use Rattle.mode_switch.specs.declared.addresses.TheConstants.{MOST_WORDS, X_START, X_WORDS};
ghost use Rattle.module_texts.specs.Bounds.{most_arguments};
ghost use Rattle.std.specs.List.{AllByRecursion, list_all};
ghost use Rattle.std.specs.Prelude.{◌≡◌, ◌≤◌, ◌+◌, ◌*◌, ◌++◌, ◌∷◌, ◌^◌, [], drop, length, map, IfOk, IsTrue, OnOk};
ghost use Rattle.tagged_words.specs.Laid.{laid_in_turn, with_atoms_of, words_in_turn};
ghost use Rattle.tagged_words.specs.declared.addresses.TheConstants.{HEAP_START};
ghost use Rattle.term_tree.specs.Term.{is_canonical, tree_of};
ghost use Rattle.word_laying.specs.Count.{row_words};
ghost use Rattle.word_laying.specs.Laying.{IsPlace, end_at, region_end};
ghost use Rattle.word_laying.specs.Written.{written};

use crate::addresses::{X_START, X_WORDS};
use beam_code::Limits;
use ir_code::{add_row, lay_term, terms_can_stand};
use native_link::Image;
use std::alloc::{AllocError, Global};
use tagged_words::{Atoms, HEAP_START, WordBlock};
use term_tree::Term;

/// How many arguments are in registers.
const IN_REGISTERS: usize = 5;

/// The atoms of the image, and behind them those of the arguments.
pub(crate) fn atoms_with(alloc: Global, image: &Image, args: &[Term]) -> Result<Atoms, AllocError>
    requires fitting { IsFitting image.now.parts }
    requires few { length args.now ≤ most_arguments }
    requires words { words_in (map tree_of args.now) ≤ MOST_WORDS }
    requires canonical { IsTrue (list_all is_canonical args.now) }
    ensures atoms { IfOk result (λ a. a ≡ with_atoms_of image.now.parts.atoms (map tree_of args.now)) }
    ensures stand { IfOk result (λ a. AllByRecursion (CanStand a) (map tree_of args.now)) }
{
    let mut atoms = image.atoms(alloc)?;
    add_row(alloc, &mut atoms, args)?;
    terms_can_stand(args, &atoms);
    Ok(atoms)
}

/// Lays an argument where there is room for it, keeps its word, and gives the address behind it.
fn lay_argument(
    block: &mut WordBlock,
    words: &mut Vec<u32>,
    at: u32,
    arg: &Term,
    atoms: &Atoms,
) -> Result<u32, AllocError>
    requires place { IsPlace block.old at }
    requires room { end_at at (tree_of arg.now) ≤ region_end block.old }
    requires stands { CanStand atoms.now (tree_of arg.now) }
    ensures laid { OnOk result (block.new ≡ written block.old at (laid_in_turn atoms.now at (tree_of arg.now ∷ []))) }
    ensures words { OnOk result (words.new.items ≡ words.old.items ++ words_in_turn atoms.now at (tree_of arg.now ∷ [])) }
    ensures next { IfOk result (λ n. n ≡ end_at at (tree_of arg.now)) }
{
    let laid = lay_term(block, at, arg, atoms);
    words.push(laid.word)?;
    Ok(laid.next)
}

/// Lays arguments one after the other from the start of the heap on, and keeps their words.
fn lay_arguments(
    block: &mut WordBlock,
    words: &mut Vec<u32>,
    args: &[Term],
    atoms: &Atoms,
) -> Result<(), AllocError>
    requires place { IsPlace block.old HEAP_START }
    requires room { HEAP_START + 4 * row_words 0 (map tree_of args.now) ≤ region_end block.old }
    requires stand { AllByRecursion (CanStand atoms.now) (map tree_of args.now) }
    ensures laid { OnOk result (block.new ≡ written block.old HEAP_START (laid_in_turn atoms.now HEAP_START (map tree_of args.now))) }
    ensures words { OnOk result (words.new.items ≡ words.old.items ++ words_in_turn atoms.now HEAP_START (map tree_of args.now)) }
{
    let mut next = HEAP_START;
    for arg in args {
        next = lay_argument(block, words, next, arg, atoms)?;
    }
    Ok(())
}

/// The heap before the first step: the cells of the arguments, whose words are kept, and behind
/// them words that are 0.
pub(crate) fn heap_with(
    alloc: Global,
    limits: &Limits,
    words: &mut Vec<u32>,
    args: &[Term],
    atoms: &Atoms,
) -> Result<WordBlock, AllocError>
    requires limits { IsInRange limits.now }
    requires heap { words_in (map tree_of args.now) ≤ limits.now.heap }
    requires stand { AllByRecursion (CanStand atoms.now) (map tree_of args.now) }
    ensures heap { IfOk result (λ b. b ≡ region_with HEAP_START limits.now.heap 0 (laid_in_turn atoms.now HEAP_START (map tree_of args.now))) }
    ensures words { OnOk result (words.new.items ≡ words.old.items ++ words_in_turn atoms.now HEAP_START (map tree_of args.now)) }
{
    let mut block = WordBlock::new(alloc, HEAP_START, limits.heap)?;
    lay_arguments(&mut block, words, args, atoms)?;
    Ok(block)
}

/// Those behind the ones in registers.
fn others(words: &[u32]) -> &[u32]
    ensures { result.now ≡ drop 5 words.now }
{
    if words.len() <= IN_REGISTERS {
        &[]
    } else {
        &words[IN_REGISTERS..]
    }
}

/// Puts words at an address and behind it.
fn put_words(block: &mut WordBlock, at: u32, words: &[u32])
    requires { at + 4 * length words.now ≤ 2 ^ 31 }
    ensures { block.new ≡ written block.old at words.now }
{
    let mut next = at;
    for word in words {
        block.set(next, *word);
        next += 4;
    }
}

/// The x area before the first step: the words of the arguments that are in no register, each at
/// its place.
pub(crate) fn xs_with(alloc: Global, words: &[u32]) -> Result<WordBlock, AllocError>
    requires { length words.now ≤ most_arguments }
    ensures { IfOk result (λ b. b ≡ region_with X_START X_WORDS 5 (drop 5 words.now)) }
{
    let mut block = WordBlock::new(alloc, X_START, X_WORDS)?;
    put_words(&mut block, X_START + 4 * IN_REGISTERS as u32, others(words));
    Ok(block)
}
