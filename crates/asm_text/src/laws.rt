ghost use Rattle.std.specs.Prelude.{◌≡◌, ℕ, List, Result};
ghost use Rattle.asm_text.specs.Reading.{IsTextOf, IsTextOfArguments, arguments, reading};
ghost use Rattle.term_tree.specs.declared.term.Term as term;
ghost use Rattle.text_forms.specs.Refusals.{IsReading};
ghost use Rattle.text_forms.specs.Spelling.{AreArguments, AreForms};
ghost use Rattle.text_forms.specs.declared.form.Form as form;
ghost use Rattle.text_forms.specs.declared.refusal.TextRefusal as refusal;
ghost use Rattle.text_tokens.specs.Tokens.{tokens};

/// A text is that of one list of forms at most.
pub fn a_text_has_one_reading()
    ensures { (text : List ℕ) → (f g : List form.Form) → IsTextOf text f → IsTextOf text g → f ≡ g }
{}

/// A text is that of one list of arguments at most.
pub fn arguments_have_one_reading()
    ensures { (text : List ℕ) → (f g : List term.Term) → IsTextOfArguments text f → IsTextOfArguments text g → f ≡ g }
{}

/// `reading` and `arguments` are the answers of the relation, and it has no others.
pub fn readings_are_those_of_the_rules()
    ensures forms { (text : List ℕ) → IsReading AreForms (tokens text) (reading text) }
    ensures one { (text : List ℕ) → (r : Result (List form.Form) refusal.TextRefusal) → IsReading AreForms (tokens text) r → reading text ≡ r }
    ensures arguments { (text : List ℕ) → IsReading AreArguments (tokens text) (arguments text) }
    ensures one_of_arguments { (text : List ℕ) → (r : Result (List term.Term) refusal.TextRefusal) → IsReading AreArguments (tokens text) r → arguments text ≡ r }
{}
