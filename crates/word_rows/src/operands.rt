//! Operands and what is done with them as rows, in the setting of a function.

ghost use Rattle.beam_code.specs.Canonical.{are_canonical_cases, are_canonical_operands, is_canonical_instr, is_canonical_operand};
ghost use Rattle.beam_code.specs.Function.{function_at, label_in};
ghost use Rattle.beam_code.specs.Shape.{shape_of};
ghost use Rattle.beam_code.specs.Shape as shapes;
ghost use Rattle.indexmap.specs.IndexMap.{get};
ghost use Rattle.native_link.specs.Places.{item_address};
ghost use Rattle.std.specs.Prelude.{◌≡◌, ◌∷◌, ◌+◌, ◌<◌, ◌≤◌, ◌^◌, ℕ, [], IfOk, OnOk, Some, drop, length, map, nat_eq, slice_index, IsTrue};
ghost use Rattle.word_rows.specs.Entries.{entry_address};
ghost use Rattle.word_rows.specs.Lookup.{IsLookupOf};
ghost use Rattle.tagged_words.specs.Laid.{atom_number};
ghost use Rattle.word_rows.specs.Names.{inline_number};
ghost use Rattle.word_rows.specs.Rows as rows;
ghost use Rattle.word_rows.specs.Setting.{here};
ghost use Rattle.word_rows.specs.Standing.{stack_at};
ghost use Rattle.word_rows.specs.Targets.{placed as placed_in};
ghost use Rattle.module_texts.specs.Bounds.{AreBounded};

use crate::named::{inline_number, test_number};
use crate::row::{Branch, Piece, Row, Source, Spot};
use crate::setting::Setting;
use crate::targets::stack_of;
use beam_code::{ArityCase, Case, Few, Operand, Place, cost};
use image_format::ITEM_START;
use std::alloc::AllocError;
use tagged_words::{atom, small};
use term_tree::Name;

/// The word of the empty list.
const NIL: u32 = 0x3B;

/// The words of the literal operands from here on.
#[derive(Drop)]
pub(crate) struct Roots<'a> {
    pub(crate) left: &'a [u32],
}

impl Roots<'_> {
    fn next(&mut self) -> u32
        ensures root { result ≡ slice_index self.old.left.now 0 }
        ensures left { self.new.left.now ≡ drop 1 self.old.left.now }
    {
        match self.left.split_first() {
            Some((root, rest)) => {
                self.left = rest;
                *root
            }
            None => 0,
        }
    }

    /// Passes an operand.
    fn pass(&mut self, operand: &Operand)
        ensures { self.new.left.now ≡ rows.behind operand.now self.old.left.now }
    {
        if let Operand::Literal(_) = operand {
            self.next();
        }
    }
}

/// The spot of a place where there are so many y registers.
pub(crate) fn spot(size: u32, place: Place) -> Spot
    ensures { result ≡ rows.spot_of size place }
{
    match place {
        Place::X(n) => Spot::X(n),
        Place::Y(n) => Spot::Slot(size.saturating_sub(u32::from(n))),
    }
}

impl Setting<'_> {
    pub(crate) fn atom_number(&self, name: &Name) -> u32
        ensures number { result ≡ atom_number self.now.image.now.parts.atoms name.now }
        ensures few { result < 2 ^ 26 }
    {
        self.lookup.atoms.number(name).unwrap_or(0)
    }

    pub(crate) fn source(&self, size: u32, roots: &mut Roots, operand: &Operand) -> Source
        requires { IsTrue (is_canonical_operand operand.now) }
        ensures source { result ≡ rows.source_of self.now.image.now.parts.atoms size roots.old.left.now operand.now }
        ensures left { roots.new.left.now ≡ rows.behind operand.now roots.old.left.now }
    {
        match operand {
            Operand::X(n) => Source::At(Spot::X(*n)),
            Operand::Y(n) => Source::At(spot(size, Place::Y(*n))),
            Operand::Int(i) => Source::Word(small(*i)),
            Operand::Atom(name) => Source::Word(atom(self.atom_number(name))),
            Operand::Nil => Source::Word(NIL),
            Operand::Literal(_) => Source::Word(roots.next()),
        }
    }

    fn sources(
        &self,
        size: u32,
        roots: &mut Roots,
        operands: &[Operand],
    ) -> Result<Few<Source>, AllocError>
        requires { IsTrue (are_canonical_operands operands.now) }
        ensures sources { IfOk result (λ all. all ≡ rows.sources_of self.now.image.now.parts.atoms size roots.old.left.now operands.now) }
        ensures left { OnOk result (roots.new.left.now ≡ rows.behind_all operands.now roots.old.left.now) }
    {
        let mut all = Few::new(self.alloc);
        for operand in operands {
            all.push(self.source(size, roots, operand))?;
        }
        Ok(all)
    }

    /// The address of a label's item; 0 where there is no such label.
    pub(crate) fn label(&self, label: u32) -> u32
        ensures { result ≡ rows.label_address (here self.now) label }
    {
        match self.labels.get(&label) {
            Some(item) => ITEM_START + 4 * (self.first + *item),
            None => 0,
        }
    }

    pub(crate) fn fail(&self, fail: u32) -> Option<u32>
        ensures { result ≡ rows.fail_address (here self.now) fail }
    {
        if fail == 0 {
            None
        } else {
            Some(self.label(fail))
        }
    }

    pub(crate) fn frame(&self) -> u32
        ensures { result ≡ rows.frame_words self.now.function.now }
    {
        cost(self.function)
    }

    pub(crate) fn moves(
        &self,
        size: u32,
        roots: &mut Roots,
        from: &Operand,
        piece: Piece,
        to: Place,
    ) -> Row
        requires { IsTrue (is_canonical_operand from.now) }
        ensures row { result ≡ Row.Moves (rows.source_of self.now.image.now.parts.atoms size roots.old.left.now from.now) piece (rows.spot_of size to) }
        ensures left { roots.new.left.now ≡ rows.behind from.now roots.old.left.now }
    {
        Row::Moves(self.source(size, roots, from), piece, spot(size, to))
    }

    pub(crate) fn splits(
        &self,
        size: u32,
        roots: &mut Roots,
        from: &Operand,
        head: Place,
        tail: Place,
    ) -> Row
        requires { IsTrue (is_canonical_operand from.now) }
        ensures row { result ≡ Row.Splits (rows.source_of self.now.image.now.parts.atoms size roots.old.left.now from.now) (rows.spot_of size head) (rows.spot_of size tail) }
        ensures left { roots.new.left.now ≡ rows.behind from.now roots.old.left.now }
    {
        Row::Splits(
            self.source(size, roots, from),
            spot(size, head),
            spot(size, tail),
        )
    }

    pub(crate) fn conses(
        &self,
        size: u32,
        roots: &mut Roots,
        head: &Operand,
        tail: &Operand,
        to: Place,
    ) -> Row
        requires head { IsTrue (is_canonical_operand head.now) }
        requires tail { IsTrue (is_canonical_operand tail.now) }
        ensures row { result ≡ rows.shape_row (here self.now) size roots.old.left.now (shapes.Conses head.now tail.now to) }
        ensures left { roots.new.left.now ≡ rows.behind tail.now (rows.behind head.now roots.old.left.now) }
    {
        let first = self.source(size, roots, head);
        let rest = self.source(size, roots, tail);
        Row::Conses(first, rest, spot(size, to))
    }

    pub(crate) fn tuples(
        &self,
        size: u32,
        roots: &mut Roots,
        parts: &[Operand],
        to: Place,
    ) -> Result<Row, AllocError>
        requires { IsTrue (are_canonical_operands parts.now) }
        ensures row { IfOk result (λ r. r ≡ rows.shape_row (here self.now) size roots.old.left.now (shapes.Tuples parts.now to)) }
        ensures left { OnOk result (roots.new.left.now ≡ rows.behind_all parts.now roots.old.left.now) }
    {
        let sources = self.sources(size, roots, parts)?;
        Ok(Row::Tuples(sources, spot(size, to)))
    }

    pub(crate) fn tests(
        &self,
        size: u32,
        roots: &mut Roots,
        name: &Name,
        operands: &[Operand],
        label: u32,
    ) -> Result<Row, AllocError>
        requires { IsTrue (are_canonical_operands operands.now) }
        ensures row { IfOk result (λ r. r ≡ rows.shape_row (here self.now) size roots.old.left.now (shapes.Tests name.now operands.now label)) }
        ensures left { OnOk result (roots.new.left.now ≡ rows.behind_all operands.now roots.old.left.now) }
    {
        let sources = self.sources(size, roots, operands)?;
        match test_number(name.as_str(), operands.len()) {
            Some(number) => Ok(Row::Tests(number, sources, self.label(label))),
            None => Ok(Row::Nothing),
        }
    }

    pub(crate) fn computes(
        &self,
        size: u32,
        roots: &mut Roots,
        name: &Name,
        operands: &[Operand],
        fail: u32,
        to: Place,
    ) -> Result<Row, AllocError>
        requires { IsTrue (are_canonical_operands operands.now) }
        ensures row { IfOk result (λ r. r ≡ rows.computes_row (here self.now) size roots.old.left.now name.now operands.now fail to) }
        ensures left { OnOk result (roots.new.left.now ≡ rows.behind_all operands.now roots.old.left.now) }
    {
        let sources = self.sources(size, roots, operands)?;
        match inline_number(name.as_str(), operands.len()) {
            Some(number) => Ok(Row::Computes(number, sources, self.fail(fail), spot(size, to))),
            None => Ok(Row::Nothing),
        }
    }

    /// The word that takes a branch: that of an integer or an atom.
    fn key(&self, value: &Operand) -> Option<u32>
        requires { IsTrue (is_canonical_operand value.now) }
        ensures { result ≡ rows.key_of self.now.image.now.parts.atoms value.now }
    {
        match value {
            Operand::Int(i) => Some(small(*i)),
            Operand::Atom(name) => Some(atom(self.atom_number(name))),
            _ => None,
        }
    }

    fn branches_by_value(
        &self,
        roots: &mut Roots,
        cases: &[Case],
    ) -> Result<Few<Branch>, AllocError>
        requires { IsTrue (are_canonical_cases cases.now) }
        ensures branches { IfOk result (λ all. all ≡ rows.branches_by_value (here self.now) cases.now) }
        ensures left { OnOk result (roots.new.left.now ≡ rows.behind_all (map (λ c. c.value) cases.now) roots.old.left.now) }
    {
        let mut all = Few::new(self.alloc);
        for case in cases {
            roots.pass(&case.value);
            if let Some(key) = self.key(&case.value) {
                let to = self.label(case.label);
                all.push(Branch { key, to })?;
            }
        }
        Ok(all)
    }

    fn branches_by_size(&self, cases: &[ArityCase]) -> Result<Few<Branch>, AllocError>
        ensures { IfOk result (λ all. all ≡ rows.branches_by_size (here self.now) cases.now) }
    {
        let mut all = Few::new(self.alloc);
        for case in cases {
            let to = self.label(case.label);
            all.push(Branch {
                key: case.arity,
                to,
            })?;
        }
        Ok(all)
    }

    pub(crate) fn selects_word(
        &self,
        size: u32,
        roots: &mut Roots,
        from: &Operand,
        cases: &[Case],
        other: u32,
    ) -> Result<Row, AllocError>
        requires from { IsTrue (is_canonical_operand from.now) }
        requires cases { IsTrue (are_canonical_cases cases.now) }
        ensures row { IfOk result (λ r. r ≡ rows.shape_row (here self.now) size roots.old.left.now (shapes.Selects from.now (shapes.ByValue cases.now) other)) }
        ensures left { OnOk result (roots.new.left.now ≡ rows.behind_all (from.now ∷ map (λ c. c.value) cases.now) roots.old.left.now) }
    {
        let source = self.source(size, roots, from);
        let branches = self.branches_by_value(roots, cases)?;
        Ok(Row::SelectsWord(source, branches, self.label(other)))
    }

    pub(crate) fn selects_size(
        &self,
        size: u32,
        roots: &mut Roots,
        from: &Operand,
        cases: &[ArityCase],
        other: u32,
    ) -> Result<Row, AllocError>
        requires { IsTrue (is_canonical_operand from.now) }
        ensures row { IfOk result (λ r. r ≡ rows.shape_row (here self.now) size roots.old.left.now (shapes.Selects from.now (shapes.BySize cases.now) other)) }
        ensures left { roots.new.left.now ≡ rows.behind from.now roots.old.left.now }
    {
        let source = self.source(size, roots, from);
        let branches = self.branches_by_size(cases)?;
        Ok(Row::SelectsSize(source, branches, self.label(other)))
    }

    /// How many y registers the paths to an item carry, or `None` within for no stack; `None` where no path comes there.
    pub(crate) fn stack(&self, at: u32) -> Option<Option<u16>>
        ensures { result ≡ stack_at self.now.image.now.modules self.now.function.now at }
    {
        stack_of(self.image.checked(), self.number, at)
    }
}
