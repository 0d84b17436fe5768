// What is looked up of a function's items in the modules.

ghost use Rattle.std.specs.Prelude.{◌≡◌, ℕ, Some, IfOk, is_some, map, slice_get};
ghost use Rattle.std.specs.Option.{option_copied};
ghost use Rattle.beam_code.specs.declared.module.Module as module_type;
ghost use Rattle.beam_code.specs.Function.{target_of};
ghost use Rattle.beam_code.specs.Gates as gates;
ghost use Rattle.beam_code.specs.Shape.{shape_of};
ghost use Rattle.path_rules.specs.BuiltIns as built_ins;
ghost use Rattle.path_rules.specs.Index as indexes;
ghost use Rattle.path_rules.specs.Index.{IsIndexOf};
ghost use Rattle.path_rules.specs.Profile.{AreDistinct, distinct_prop};
ghost use Rattle.path_rules.specs.Rules as rules;
ghost use Rattle.path_rules.specs.Sites.{placed_in};

use crate::index::Index;
use crate::raising::may_raise;
use beam_code::{Callee, Function, Instr, Module};
use sqlite_items::Items;
use std::alloc::{AllocError, Global};

/// A function, with the index of the modules and the number of its own.
#[derive(Drop)]
pub(crate) struct Lookup<'a> {
    pub(crate) alloc: Global,
    pub(crate) modules: &'a [Module],
    pub(crate) index: &'a Index,
    pub(crate) number: u32,
    pub(crate) owner: &'a Module,
    pub(crate) function: &'a Function,
    ghost indexed: { IsIndexOf modules.now index.now },
    ghost at: { slice_get modules.now number ≡ Some owner.now },
    ghost distinct: { AreDistinct modules.now } by { distinct_prop modules.now },
}

/// The function of any module that an item calls.
fn callee_of(instr: &Instr) -> Option<&Callee>
    ensures { option_copied result ≡ built_ins.callee_of (shape_of instr.now) }
{
    match instr {
        Instr::CallExt(_, callee)
        | Instr::CallExtLast(_, callee, _)
        | Instr::CallExtOnly(_, callee) => Some(callee),
        _ => None,
    }
}

impl Lookup<'_> {
    /// Whether the module of this number exports a function and has it.
    fn defines(&self, number: u32, callee: &Callee) -> Result<bool, AllocError>
        ensures { IfOk result (λ defined. (m : module_type.Module) → slice_get self.now.modules.now number ≡ Some m → defined ≡ indexes.defines (callee.now.name, callee.now.arity) m) }
    {
        match self.index.tables.get(number as usize) {
            None => Ok(false),
            Some(table) => table.defines(self.alloc, &callee.name, callee.arity),
        }
    }

    fn is_undefined(&self, callee: &Callee) -> Result<bool, AllocError>
        ensures { IfOk result (λ undefined. undefined ≡ built_ins.is_undefined self.now.modules.now callee.now) }
    {
        match self.index.numbers.get(&callee.owner) {
            None => Ok(false),
            Some(number) => {
                let defined = self.defines(*number, callee)?;
                Ok(!defined)
            }
        }
    }

    fn item_raises(&self, instr: &Instr) -> Result<bool, AllocError>
        ensures { IfOk result (λ may. may ≡ gates.may_raise self.now.modules.now (shape_of instr.now)) }
    {
        match callee_of(instr) {
            None => Ok(may_raise(instr, false)),
            Some(callee) => {
                let undefined = self.is_undefined(callee)?;
                Ok(may_raise(instr, undefined))
            }
        }
    }

    /// Which items may raise.
    pub(crate) fn raising(&self) -> Result<Items<bool>, AllocError>
        ensures { IfOk result (λ made. made ≡ map (λ i. gates.may_raise self.now.modules.now (shape_of i.instr)) self.now.function.now.items) }
    {
        let mut made = Items::new(self.alloc);
        for item in self.function.items.as_slice() {
            let may = self.item_raises(item.instr())?;
            made.push(may)?;
        }
        Ok(made)
    }

    /// Whether calls of a function of the module begin at this label with this arity.
    fn has_target(&self, label: u32, arity: u32) -> bool
        ensures { result ≡ is_some (target_of self.now.modules.now (placed_in self.now.owner.now self.now.function.now) label arity) }
    {
        match self.index.tables.get(self.number as usize) {
            None => false,
            Some(table) => table.targets.contains(&(label, arity)),
        }
    }

    fn item_calls_well(&self, instr: &Instr) -> bool
        ensures { result ≡ rules.calls_well self.now.modules.now (placed_in self.now.owner.now self.now.function.now) (shape_of instr.now) }
    {
        match instr {
            Instr::Call(arity, label)
            | Instr::CallLast(arity, label, _)
            | Instr::CallOnly(arity, label) => self.has_target(*label, *arity),
            Instr::CallExt(arity, callee)
            | Instr::CallExtLast(arity, callee, _)
            | Instr::CallExtOnly(arity, callee) => *arity == callee.arity,
            _ => true,
        }
    }

    /// Which items are no calls, or call what they may.
    pub(crate) fn calling(&self) -> Result<Items<bool>, AllocError>
        ensures { IfOk result (λ made. made ≡ map (λ i. rules.calls_well self.now.modules.now (placed_in self.now.owner.now self.now.function.now) (shape_of i.instr)) self.now.function.now.items) }
    {
        let mut made = Items::new(self.alloc);
        for item in self.function.items.as_slice() {
            let well = self.item_calls_well(item.instr());
            made.push(well)?;
        }
        Ok(made)
    }
}
