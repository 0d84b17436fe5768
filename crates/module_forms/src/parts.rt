//! The parts of a form, one after another.
ghost use Rattle.std.specs.Prelude.{◌≡◌, false, ◌||◌};

use crate::part::{self, shaped};
use crate::{Fault, Got, Look};
use beam_code::{ArityCase, Callee, Case, Few, Operand, Place};
use std::alloc::Global;
use std::marker::Model;
use term_tree::{Name, Term};

/// What parts of a form are left, whether a number before them was past its limit, and the
/// greatest index.
#[derive(Drop)]
pub struct Parts<'a> {
    rest: &'a [Term],
    wide: bool,
    last: u16,
}

impl<'a> Model for Parts<'a> {
    ghost use Rattle.std.specs.Coded.{codes};
    ghost use Rattle.term_tree.specs.contracts.term.Term as term;
    ghost use Rattle.module_forms.specs.Rest.{Rest};

    ghost Value = { Rest };

    ghost coded = { Prim.hlevel (codes, term.the_row.coded) };

    ghost view = { λ r. record { parts = r.rest.now; wide = r.wide; last = r.last } };
}

impl<'a> Parts<'a> {
    ghost use Rattle.std.specs.Prelude.{◌≡◌, false, ◌||◌};
    ghost use Rattle.std.specs.Option.{option_copied};
    ghost use Rattle.module_forms.specs.Rest.{Rest, Took, take, start, TookNext, is_none_left};
    ghost use Rattle.module_forms.specs.Seen.{saw};
    ghost use Rattle.module_forms.specs.Kind.{Number, Stack, Arity, Any, Named, Source, Dest, Slot, Jump, Entry, Fail, NoFail, TwoSources, Elements, Cases, ArityCases, Function, Looks, Arguments};

    pub fn new(last: u16, rest: &'a [Term]) -> Parts<'a>
        ensures { result ≡ start last rest.now }
    {
        Parts {
            rest,
            wide: false,
            last,
        }
    }

    /// Whether no part is left.
    pub fn is_done(&self) -> bool
        ensures { result ≡ is_none_left self.now.parts }
    {
        match self.rest {
            [] => true,
            _ => false,
        }
    }

    /// Whether a number was past its limit.
    pub fn is_wide(&self) -> bool
        ensures { result ≡ self.now.wide }
    {
        self.wide
    }

    fn next(&mut self) -> Result<&'a Term, Fault>
        ensures { TookNext result self.new self.old }
    {
        match self.rest {
            [] => Err(Fault::Shape),
            [first, rest @ ..] => {
                self.rest = rest;
                Ok(first)
            }
        }
    }

    fn keep<T>(&mut self, got: Got<T>) -> T
        ensures value { result ≡ got.value }
        ensures wide { self.new ≡ record self.old { wide = self.old.wide || got.wide } }
    {
        let Got { value, wide } = got;
        self.wide |= wide;
        value
    }

    pub fn number(&mut self) -> Result<u32, Fault>
        ensures { Took result self.new (take Number self.old) }
    {
        Ok(shaped(part::number(self.next()?))?)
    }

    pub fn stack(&mut self) -> Result<u32, Fault>
        ensures { Took result self.new (take Stack self.old) }
    {
        let got = shaped(part::stack(self.last, self.next()?))?;
        Ok(self.keep(got))
    }

    pub fn arity(&mut self) -> Result<u32, Fault>
        ensures { Took result self.new (take Arity self.old) }
    {
        Ok(shaped(part::arity(self.next()?))?)
    }

    pub fn any(&mut self, alloc: Global) -> Result<Term, Fault>
        ensures { Took result self.new (take Any self.old) }
    {
        Ok(self.next()?.copy(alloc)?)
    }

    pub fn named(&mut self, alloc: Global) -> Result<Name, Fault>
        ensures { Took result self.new (take Named self.old) }
    {
        Ok(shaped(part::named(self.next()?))?.copy(alloc)?)
    }

    pub fn source(&mut self, alloc: Global) -> Result<Operand, Fault>
        ensures { Took result self.new (take Source self.old) }
    {
        let got = part::operand(alloc, self.last, self.next()?)?;
        Ok(self.keep(got))
    }

    pub fn dest(&mut self) -> Result<Place, Fault>
        ensures { Took result self.new (take Dest self.old) }
    {
        let got = shaped(part::place(self.last, self.next()?))?;
        Ok(self.keep(got))
    }

    pub fn slot(&mut self) -> Result<u16, Fault>
        ensures { Took result self.new (take Slot self.old) }
    {
        let got = shaped(part::slot(self.last, self.next()?))?;
        Ok(self.keep(got))
    }

    pub fn label(&mut self) -> Result<u32, Fault>
        ensures { Took result self.new (take Fail self.old) }
    {
        Ok(shaped(part::label(self.next()?))?)
    }

    pub fn no_fail(&mut self) -> Result<(), Fault>
        ensures { Took result self.new (take NoFail self.old) }
    {
        let got = shaped(part::no_fail(self.next()?))?;
        Ok(self.keep(got))
    }

    pub fn looks(&mut self, alloc: Global, looks: &[Look]) -> Result<Few<Operand>, Fault>
        ensures { Took result self.new (saw looks.now self.old) }
    {
        let got = part::looks(alloc, self.last, looks, self.next()?)?;
        Ok(self.keep(got))
    }

    pub fn arguments(&mut self, alloc: Global, name: &str) -> Result<Few<Operand>, Fault>
        ensures { Took result self.new (take (Arguments name.now) self.old) }
    {
        let got = part::arguments(alloc, self.last, name, self.next()?)?;
        Ok(self.keep(got))
    }

    pub fn two_sources(&mut self, alloc: Global) -> Result<(Operand, Operand), Fault>
        ensures { Took result self.new (take TwoSources self.old) }
    {
        let got = part::two(alloc, self.last, self.next()?)?;
        Ok(self.keep(got))
    }

    pub fn elements(&mut self, alloc: Global) -> Result<Few<Operand>, Fault>
        ensures { Took result self.new (take Elements self.old) }
    {
        let got = part::elements(alloc, self.last, self.next()?)?;
        Ok(self.keep(got))
    }

    pub fn cases(&mut self, alloc: Global) -> Result<Few<Case>, Fault>
        ensures { Took result self.new (take Cases self.old) }
    {
        let got = part::cases(alloc, self.next()?)?;
        Ok(self.keep(got))
    }

    pub fn arity_cases(&mut self, alloc: Global) -> Result<Few<ArityCase>, Fault>
        ensures { Took result self.new (take ArityCases self.old) }
    {
        let got = part::arity_cases(alloc, self.next()?)?;
        Ok(self.keep(got))
    }

    pub fn callee(&mut self, alloc: Global) -> Result<Callee, Fault>
        ensures { Took result self.new (take Function self.old) }
    {
        Ok(part::callee(alloc, self.next()?)?)
    }
}
