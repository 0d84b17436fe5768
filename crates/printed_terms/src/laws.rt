ghost use Rattle.std.specs.Prelude.{◌≡◌, ℕ, List, ◌-◌};
ghost use Rattle.text_forms.specs.Places.{most_open};
ghost use Rattle.printed_terms.specs.Printable.{IsPrintable};
ghost use Rattle.printed_terms.specs.ReadAs.{IsReadAsArgument, IsReadAsForm};
ghost use Rattle.term_tree.specs.Term.{tree_of};
ghost use Rattle.tagged_words.specs.Seen.{whole};
ghost use Rattle.term_tree.specs.Text.{text_of};
ghost use Rattle.term_tree.specs.declared.term.Term as term;
ghost use Rattle.word_walks.specs.Spelt.{Text, spelt};

/// What a canonical term prints is read as that term, where its atoms are names and its brackets
/// nest no deeper than may be read: in the brackets of arguments as the one argument, and before a
/// dot as the one form, in the first line.
pub fn printed_is_read()
    ensures argument { (x : term.Term) → IsPrintable (most_open - 1) x → IsReadAsArgument (text_of (tree_of x)) x }
    ensures form { (x : term.Term) → IsPrintable most_open x → IsReadAsForm (text_of (tree_of x)) x }
{}

/// Two such terms with one text are one term.
pub fn no_two_terms_print_alike()
    ensures { (x y : term.Term) → IsPrintable most_open x → IsPrintable most_open y → text_of (tree_of x) ≡ text_of (tree_of y) → x ≡ y }
{}

/// What is printed of a word that stands for such a term is read as that term, where the budget has its nodes: as the
/// one argument and as the one form.
pub fn printed_words_are_read()
    ensures argument { (x : term.Term) (budget nodes : ℕ) (text : List ℕ) → IsPrintable (most_open - 1) x → spelt budget (whole (tree_of x)) ≡ Text text nodes → IsReadAsArgument text x }
    ensures form { (x : term.Term) (budget nodes : ℕ) (text : List ℕ) → IsPrintable most_open x → spelt budget (whole (tree_of x)) ≡ Text text nodes → IsReadAsForm text x }
{}
