//! A function of an image, with what is looked up there.

ghost use Rattle.beam_code.specs.Function.{function_at, label_in};
ghost use Rattle.indexmap.specs.IndexMap.{get};
ghost use Rattle.module_texts.specs.Bounds.{AreBounded};
ghost use Rattle.native_link.specs.Places.{first_item};
ghost use Rattle.std.specs.Prelude.{◌≡◌, ℕ, Some, nat_eq, option_map};
ghost use Rattle.word_rows.specs.Lookup.{IsLookupOf};

use crate::lookup::Lookup;
use beam_code::{Function, Module};
use indexmap::IndexMap;
use native_link::Image;
use std::alloc::Global;

/// A function of an image by its number, with what is looked up there: the items of its labels, and how many items stand
/// before it.
#[derive(Clone, Copy)]
pub(crate) struct Setting<'a> {
    pub(crate) alloc: Global,
    pub(crate) image: &'a Image,
    pub(crate) lookup: &'a Lookup,
    pub(crate) owner: &'a Module,
    pub(crate) function: &'a Function,
    pub(crate) labels: &'a IndexMap<u32, u32>,
    pub(crate) number: u32,
    pub(crate) first: u32,
    ghost found: { IsLookupOf image.now lookup.now },
    ghost labelled: { (n : ℕ) → get nat_eq labels.now n ≡ label_in function.now n },
    ghost before: { first ≡ first_item image.now.modules number },
    ghost bounded: { AreBounded image.now.modules },
    ghost bodied: { option_map (λ p. p.function) (function_at image.now.modules number) ≡ Some function.now },
}
