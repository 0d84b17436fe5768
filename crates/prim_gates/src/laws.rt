ghost use Rattle.prim_gates.specs.Law.{AnswersAsOnTerms};

/// A law: a built-in whose arguments stand for terms answers on their words as it does on the terms: with a word that
/// stands for its value, where the heap has room for it, with a word that stands for the reason of its failure, or that
/// its value is too wide.
pub fn built_ins_answer_as_on_terms()
    ensures { AnswersAsOnTerms }
{}
