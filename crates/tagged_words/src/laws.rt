ghost use Rattle.std.specs.Prelude.{◌≡◌, ℕ, List, Some, position, slice_get};
ghost use Rattle.tagged_words.specs.Atoms.{IsTable};
ghost use Rattle.tagged_words.specs.Seen.{Seen, Sees, IsTreeOf, Keeps, KeepsNames};
ghost use Rattle.tagged_words.specs.Store.{Store};
ghost use Rattle.term_tree.specs.Name.{same_name};
ghost use Rattle.term_tree.specs.Tree.{Tree};

/// One thing is seen from a word: so a word has one tree at most.
#[tactic(auto, using(crate::proofs::SeenLaws::one_seen))]
pub fn one_thing_is_seen()
    ensures { (s : Store) (names : List (List ℕ)) (limit w : ℕ) (u v : Seen) → Sees s names limit w u → Sees s names limit w v → u ≡ v }
{}

/// The atom with a number has that number: in a table, names and numbers are each other's.
pub fn a_name_has_its_number()
    ensures { (names : List (List ℕ)) (n : ℕ) (a : List ℕ) → IsTable names → slice_get names n ≡ Some a → position (same_name a) names ≡ Some n }
{}

/// Something is seen from each word.
#[tactic(auto, using(crate::proofs::SeenLaws::something_seen))]
pub fn something_is_seen()
    ensures { (s : Store) (names : List (List ℕ)) (limit w : ℕ) → (v : Seen) × Sees s names limit w v }
{}

/// A store and a table that keep their words and names keep each tree.
#[tactic(auto, using(crate::proofs::SeenLaws::a_tree_stays))]
pub fn trees_stay()
    ensures { (s later : Store) (names more : List (List ℕ)) → Keeps s later → KeepsNames names more → (w : ℕ) (v : Tree) → IsTreeOf s names w v → IsTreeOf later more w v }
{}
