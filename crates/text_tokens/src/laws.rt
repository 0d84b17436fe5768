ghost use Rattle.std.specs.Prelude.{◌≡◌, ◌≤◌, ◌-◌, ◌∷◌, ℕ, List, Some, [], length};
ghost use Rattle.text_tokens.specs.Character.{between_quotes};
ghost use Rattle.text_tokens.specs.Cuts.{IsQuoted, tokens_at, tokens_behind};
ghost use Rattle.text_tokens.specs.Pieces.{piece};
ghost use Rattle.text_tokens.specs.Spellings.{IsToken};
ghost use Rattle.text_tokens.specs.Tokens.{Bad, More, line_after};
ghost use Rattle.text_tokens.specs.declared.token.Piece.TheVariants as p;
ghost use Rattle.text_tokens.specs.declared.token.Reason as reason;
ghost use Rattle.text_tokens.specs.declared.token.Token as token;

/// A token is the longest that its bytes begin with.
pub fn a_token_is_the_longest()
    ensures spelled { (bs : List ℕ) → (t : token.Token) → (size : ℕ) → piece bs ≡ p.Whole t size → IsToken bs t size }
    ensures longest { (bs : List ℕ) → (t u : token.Token) → (size more : ℕ) → piece bs ≡ p.Whole t size → IsToken bs u more → more ≤ size }
{}

/// What follows a piece is the tokens of the bytes behind it.
pub fn tokens_follow_their_pieces()
    ensures token { (before line b size : ℕ) → (bs : List ℕ) → (t : token.Token) → piece (b ∷ bs) ≡ p.Whole t size → tokens_at before line (b ∷ bs) ≡ More line t (tokens_behind (size - 1) line (line_after line b) bs) }
    ensures blank { (before line b size : ℕ) → (bs : List ℕ) → piece (b ∷ bs) ≡ p.Blank size → tokens_at before line (b ∷ bs) ≡ tokens_behind (size - 1) line (line_after line b) bs }
    ensures bad { (before line b : ℕ) → (bs : List ℕ) → (r : reason.Reason) → piece (b ∷ bs) ≡ p.Bad r → tokens_at before line (b ∷ bs) ≡ Bad line r }
{}

/// What stands between quotes is that of its characters, one after the other, and characters one
/// after the other stand so between quotes.
pub fn quotes_join_their_characters()
    ensures cut { (quote : ℕ) → (bs text : List ℕ) → (left : ℕ) → between_quotes quote 0 [] bs ≡ Some (text, left) → (rest : List ℕ) × (length rest ≡ left) × IsQuoted quote bs text rest }
    ensures joined { (quote : ℕ) → (bs text rest : List ℕ) → IsQuoted quote bs text rest → between_quotes quote 0 [] bs ≡ Some (text, length rest) }
{}
