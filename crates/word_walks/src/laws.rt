ghost use Rattle.std.specs.Prelude.{◌≡◌};
ghost use Rattle.tagged_words.specs.Seen.{whole};
ghost use Rattle.term_tree.specs.Order.{order};
ghost use Rattle.term_tree.specs.Tree.{Tree};
ghost use Rattle.word_walks.specs.Compared.{compared, Is};
ghost use Rattle.word_walks.specs.Nodes.{WholeTermsAreSpelt};

/// A law: what is found of the words of two whole terms is the order of the terms.
pub fn whole_terms_compare()
    ensures { (x y : Tree) → compared (whole x) (whole y) ≡ Is (order x y) }
{}

/// A law: of a word that stands for a term, the text is that of the term, with its nodes, where the budget has as many,
/// and otherwise `Large`.
pub fn whole_terms_are_spelt()
    ensures { WholeTermsAreSpelt }
{}
