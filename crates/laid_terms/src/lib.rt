//! Terms that are laid in a heap: each word that is made for one stands for it.
#![tactic(auto)]

ghost use Rattle.laid_terms.specs.Laid.{LaidTermStands, LaidTermsStand};

/// A law: where a store has the cells of a term, the word that was made for it stands for it.
#[tactic(auto, using(crate::proofs::Standing::laid_term_stands))]
pub fn a_laid_term_stands()
    ensures { LaidTermStands }
{}

/// A law: where a heap begins with the cells of terms, the words that were made for them stand for
/// these terms.
pub fn laid_terms_stand()
    ensures { LaidTermsStand }
{}
