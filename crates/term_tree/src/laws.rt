ghost use Rattle.std.specs.Prelude.{◌≡◌, ℕ, List, IsTrue};
ghost use Rattle.std.specs.Cmp.{IsTotalOrder};
ghost use Rattle.std.specs.Cmp.Lexicographic.{slice_cmp};
ghost use Rattle.std.specs.Ordering.{nat_cmp};
ghost use Rattle.std.specs.Str.{chars, IsUtf8};
ghost use Rattle.std.specs.declared.cmp.Ordering.TheVariants.{Equal};
ghost use Rattle.term_tree.specs.Tree as tree;
ghost use Rattle.term_tree.specs.Order.{order};
ghost use Rattle.term_tree.specs.Term.{tree_of, is_canonical};
ghost use Rattle.term_tree.specs.declared.term.Term as term;

/// The order of trees is total, and Equal only on equal trees.
pub fn order_is_total()
    ensures total { IsTotalOrder order }
    ensures exact { (a b : tree.Tree) → order a b ≡ Equal → a ≡ b }
{}

/// Canonical terms with one tree are one term.
pub fn a_tree_has_one_term()
    ensures { (a b : term.Term) → IsTrue (is_canonical a) → IsTrue (is_canonical b) → tree_of a ≡ tree_of b → a ≡ b }
{}

/// The bytes of texts in UTF-8, by which atoms go, stand in the order of their characters.
pub fn bytes_go_as_characters()
    ensures { (a b : List ℕ) → IsUtf8 a → IsUtf8 b → slice_cmp nat_cmp a b ≡ slice_cmp nat_cmp (chars a) (chars b) }
{}
