//! Calls and exceptions as rows.

ghost use Rattle.beam_code.specs.Canonical.{is_canonical_operand};
ghost use Rattle.beam_code.specs.Function.{exported_number};
ghost use Rattle.beam_code.specs.Shape as shapes;
ghost use Rattle.std.specs.Prelude.{◌≡◌, IfOk, IsTrue};
ghost use Rattle.word_rows.specs.Entries as entries;
ghost use Rattle.word_rows.specs.Rows as rows;
ghost use Rattle.word_rows.specs.Setting.{here, leaving_of};

use crate::named::built_in_number;
use crate::operands::Roots;
use crate::row::Row;
use crate::setting::Setting;
use crate::targets::item_entry;
use beam_code::{Callee, Operand};
use std::alloc::AllocError;

/// The word of the atom `undef`.
const UNDEF: u32 = 0x28B;

/// How a call leaves its function: not; with its y registers given back; with none.
#[derive(Clone, Copy)]
pub(crate) enum Leaving {
    Stays,
    Drops(u32),
    HasNone,
}

impl Setting<'_> {
    /// Where a call of a function leads.
    fn entry(&self, fid: u32) -> u32
        ensures { result ≡ entries.entry_address self.now.image.now.modules self.now.image.now.parts.natives fid }
    {
        match self.image.native_entry(fid) {
            Some(entry) => entry,
            None => item_entry(self.image.checked(), fid),
        }
    }

    /// The frame that a call gives back.
    fn left(&self, leaving: Leaving) -> Option<u32>
        ensures { result ≡ rows.frame_left self.now.function.now (leaving_of leaving) }
    {
        match leaving {
            Leaving::Stays => None,
            _ => Some(self.frame()),
        }
    }

    fn calls(&self, leaving: Leaving, callee: Option<u32>) -> Row
        ensures { result ≡ rows.call_row (here self.now) (leaving_of leaving) callee }
    {
        match callee {
            Some(fid) => Row::Calls(self.entry(fid), self.left(leaving)),
            None => Row::Nothing,
        }
    }

    /// A call of a function of the module by its label.
    pub(crate) fn calls_inside(
        &self,
        leaving: Leaving,
        arity: u32,
        label: u32,
    ) -> Result<Row, AllocError>
        ensures { IfOk result (λ r. r ≡ rows.target_row (here self.now) (leaving_of leaving) arity (shapes.Inside label)) }
    {
        let callee = self
            .lookup
            .target(self.alloc, &self.owner.name, label, arity)?;
        Ok(self.calls(leaving, callee))
    }

    /// A call of no function that there is.
    fn missing(&self, callee: &Callee) -> Row
        ensures { result ≡ rows.missing_row (here self.now) callee.now }
    {
        if self.lookup.given.contains(&callee.owner) {
            Row::Raises(UNDEF)
        } else {
            Row::NotProvided(
                self.atom_number(&callee.owner),
                self.atom_number(&callee.name),
                callee.arity,
            )
        }
    }

    fn calls_function(&self, leaving: Leaving, callee: &Callee) -> Row
        ensures { result ≡ rows.outside_row (here self.now) (leaving_of leaving) callee.now (exported_number self.now.image.now.modules callee.now.owner callee.now.name callee.now.arity) }
    {
        let found = self
            .lookup
            .numbers
            .exported(&callee.owner, &callee.name, callee.arity);
        match found {
            Some(_) => self.calls(leaving, found),
            None => self.missing(callee),
        }
    }

    /// A call of a function of any module by its names.
    pub(crate) fn calls_outside(&self, leaving: Leaving, arity: u32, callee: &Callee) -> Row
        ensures { result ≡ rows.target_row (here self.now) (leaving_of leaving) arity (shapes.Outside callee.now) }
    {
        if arity != callee.arity {
            return Row::Nothing;
        }
        match built_in_number(
            callee.owner.as_str(),
            callee.name.as_str(),
            callee.arity as usize,
        ) {
            Some(k) => Row::CallsBuiltIn(k, self.left(leaving)),
            None => self.calls_function(leaving, callee),
        }
    }

    /// An error whose reason is a pair of an atom and a term.
    pub(crate) fn raises_pair(
        &self,
        size: u32,
        roots: &mut Roots,
        name: u32,
        value: &Operand,
    ) -> Row
        requires { IsTrue (is_canonical_operand value.now) }
        ensures row { result ≡ Row.RaisesPair name (rows.source_of self.now.image.now.parts.atoms size roots.old.left.now value.now) }
        ensures left { roots.new.left.now ≡ rows.behind value.now roots.old.left.now }
    {
        Row::RaisesPair(name, self.source(size, roots, value))
    }

    /// An exception of a class and a reason that are given.
    pub(crate) fn raises_given(
        &self,
        size: u32,
        roots: &mut Roots,
        class: &Operand,
        reason: &Operand,
    ) -> Row
        requires class { IsTrue (is_canonical_operand class.now) }
        requires reason { IsTrue (is_canonical_operand reason.now) }
        ensures row { result ≡ Row.RaisesGiven (rows.source_of self.now.image.now.parts.atoms size roots.old.left.now class.now) (rows.source_of self.now.image.now.parts.atoms size (rows.behind class.now roots.old.left.now) reason.now) }
        ensures left { roots.new.left.now ≡ rows.behind reason.now (rows.behind class.now roots.old.left.now) }
    {
        let class = self.source(size, roots, class);
        let reason = self.source(size, roots, reason);
        Row::RaisesGiven(class, reason)
    }
}
