ghost use Rattle.beam_code.specs.Canonical.{is_canonical_instr};
ghost use Rattle.beam_code.specs.CanonicalModule.{are_canonical_functions};
ghost use Rattle.beam_rows.specs.Gates.{
  BuiltInsRaiseThrough,
  GatesHaveTheirNumbers,
  ItemsMayRaise,
  ItemsRaiseThrough,
};
ghost use Rattle.beam_rows.specs.Raising.{RowsRaiseThroughGates};
ghost use Rattle.beam_rows.specs.Tables.{RowsAreWellSaid, RowsHaveTheirNumbers};
ghost use Rattle.beam_rows.specs.Terms.{BuiltInsFailByTheirRows, BuiltInsGiveTerms, BuiltInsMakeTheirWords};
ghost use Rattle.std.specs.Prelude.{IsTrue};

use beam_code::{Item, Module};

/// A law: what a built-in gives of terms is a term.
pub fn built_ins_give_terms()
    ensures { BuiltInsGiveTerms }
{}

/// A law: a value makes the heap words that the table says.
pub fn built_ins_make_their_words()
    ensures { BuiltInsMakeTheirWords }
{}

/// A law: a failure raises what the table says, and a built-in without a failure gives a value or is
/// too wide.
pub fn built_ins_fail_by_their_rows()
    ensures { BuiltInsFailByTheirRows }
{}

/// A law: no two rows of a table have the same names and arity, so each is found by them.
pub fn rows_have_their_numbers()
    ensures { RowsHaveTheirNumbers }
{}

/// A law: those that raise their first argument, and no others, never return; and an instruction
/// never makes heap words.
pub fn rows_are_well_said()
    ensures { RowsAreWellSaid }
{}

/// A law: a row that raises is that of an item which may raise through a gate.
pub fn rows_raise_through_gates()
    ensures { RowsRaiseThroughGates }
{}

/// A law: the gates have the numbers that the pages say.
pub fn gates_have_their_numbers()
    ensures { GatesHaveTheirNumbers }
{}

/// A law: the gates of items and of all built-ins, worked by hand.
pub fn items_raise_through_their_gates()
    ensures items { ItemsRaiseThrough }
    ensures built_ins { BuiltInsRaiseThrough }
    ensures may_raise { ItemsMayRaise }
{}

/// The terms of an item are canonical: its type keeps it.
pub fn item_terms_are_canonical(item: &Item)
    ensures { IsTrue (is_canonical_instr item.now.instr) }
{
    item.terms_are_canonical();
}

/// The terms of the items of a module are canonical: its type keeps it.
pub fn module_terms_are_canonical(module: &Module)
    ensures { IsTrue (are_canonical_functions module.now.functions) }
{
    module.functions.terms_are_canonical();
}
