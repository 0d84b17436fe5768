//! The literals among what is mentioned are laid as words, one after the other.
ghost use Rattle.image_format.specs.declared.limits.TheConstants.{MOST_LITERALS};
ghost use Rattle.ir_code.specs.Laying.{CanStand, literals_in};
ghost use Rattle.ir_code.specs.Mentions.{literal_of};
ghost use Rattle.ir_code.specs.Shown.{mention_shown};
ghost use Rattle.std.specs.Prelude.{◌≡◌, ◌≤◌, ◌+◌, ◌*◌, ◌++◌, length, IfOk, OnOk};
ghost use Rattle.std.specs.List.{AllByRecursion};
ghost use Rattle.tagged_words.specs.Laid.{laid, laid_in_turn, word_for, words_in_turn};
ghost use Rattle.tagged_words.specs.declared.addresses.TheConstants.{LITERAL_START};
ghost use Rattle.term_tree.specs.Term.{tree_of};
ghost use Rattle.word_laying.specs.Count.{row_words};
ghost use Rattle.word_laying.specs.Laying.{IsPlace, end_at, region_end};
ghost use Rattle.word_laying.specs.Written.{written};

use crate::mentioning::Mention;
use std::alloc::{AllocError, Global};
use tagged_words::{Atoms, LITERAL_START, WordBlock};
use term_tree::Term;
use word_laying::{Laid, lay, words_of};

fn words_in(mention: &Mention) -> u32
    requires { row_words 0 (literal_of (mention_shown mention.now)) ≤ MOST_LITERALS }
    ensures { result ≡ row_words 0 (literal_of (mention_shown mention.now)) }
{
    match mention {
        Mention::Named(_) => 0,
        Mention::Literal(term) => words_of(term) as u32,
    }
}

/// How many words the literals take together.
pub(crate) fn count_words(mentions: &[Mention]) -> u32
    requires { row_words 0 (literals_in mentions.now) ≤ MOST_LITERALS }
    ensures { result ≡ row_words 0 (literals_in mentions.now) }
{
    let mut count = 0;
    for mention in mentions {
        count += words_in(mention);
    }
    count
}

/// Lays a term where there is room for it.
pub fn lay_term(block: &mut WordBlock, at: u32, term: &Term, atoms: &Atoms) -> Laid
    requires place { IsPlace block.old at }
    requires room { end_at at (tree_of term.now) ≤ region_end block.old }
    requires stands { CanStand atoms.now (tree_of term.now) }
    ensures word { result.word ≡ word_for atoms.now (end_at at (tree_of term.now)) (tree_of term.now) }
    ensures next { result.next ≡ end_at at (tree_of term.now) }
    ensures words { block.new ≡ written block.old at (laid atoms.now at (tree_of term.now)) }
{
    match lay(block, at, term, atoms) {
        Ok(laid) => laid,
        Err(_) => Laid { word: 0, next: at },
    }
}

/// Lays what is mentioned if it is a literal, and gives the address behind it.
fn lay_mention(
    block: &mut WordBlock,
    roots: &mut Vec<u32>,
    at: u32,
    mention: &Mention,
    atoms: &Atoms,
) -> Result<u32, AllocError>
    requires place { IsPlace block.old at }
    requires room { at + 4 * row_words 0 (literal_of (mention_shown mention.now)) ≤ region_end block.old }
    requires stand { AllByRecursion (CanStand atoms.now) (literal_of (mention_shown mention.now)) }
    ensures words { OnOk result (block.new ≡ written block.old at (laid_in_turn atoms.now at (literal_of (mention_shown mention.now)))) }
    ensures roots { OnOk result (roots.new.items ≡ roots.old.items ++ words_in_turn atoms.now at (literal_of (mention_shown mention.now))) }
    ensures next { IfOk result (λ n. n ≡ at + 4 * row_words 0 (literal_of (mention_shown mention.now))) }
{
    match mention {
        Mention::Named(_) => Ok(at),
        Mention::Literal(term) => {
            let laid = lay_term(block, at, term, atoms);
            roots.push(laid.word)?;
            Ok(laid.next)
        }
    }
}

/// Lays all literals from the start of the literals on.
pub(crate) fn lay_mentions(
    block: &mut WordBlock,
    roots: &mut Vec<u32>,
    mentions: &[Mention],
    atoms: &Atoms,
) -> Result<(), AllocError>
    requires place { IsPlace block.old LITERAL_START }
    requires room { LITERAL_START + 4 * row_words 0 (literals_in mentions.now) ≤ region_end block.old }
    requires stand { AllByRecursion (CanStand atoms.now) (literals_in mentions.now) }
    ensures words { OnOk result (block.new ≡ written block.old LITERAL_START (laid_in_turn atoms.now LITERAL_START (literals_in mentions.now))) }
    ensures roots { OnOk result (roots.new.items ≡ roots.old.items ++ words_in_turn atoms.now LITERAL_START (literals_in mentions.now)) }
{
    let mut next = LITERAL_START;
    for mention in mentions {
        next = lay_mention(block, roots, next, mention, atoms)?;
    }
    Ok(())
}

/// The words of a block that begins where literals do.
pub(crate) fn words_from(
    alloc: Global,
    block: &WordBlock,
    count: u32,
) -> Result<Vec<u32>, AllocError>
    requires start { block.now.start ≡ LITERAL_START }
    requires count { count ≡ length block.now.words }
    ensures { IfOk result (λ v. v.items ≡ block.now.words) }
{
    match block.slice(LITERAL_START, count) {
        Some(words) => Vec::from_slice(alloc, words),
        None => Ok(Vec::new(alloc)),
    }
}
