//! Where items and native code stand, and what is asked of descriptors.

ghost use Rattle.beam_code.specs.Function.{Placed, all_functions, cost_of, items_in};
ghost use Rattle.image_format.specs.Fitting.{DescriptorFits, NativeFits, after_descriptor, after_native, first_turn};
ghost use Rattle.image_format.specs.Spelling.{descriptor};
ghost use Rattle.image_format.specs.declared.limits.TheConstants.{MOST_IMAGE_BYTES, MOST_FRAME};
ghost use Rattle.tagged_words.specs.Follow.{Follow};
ghost use Rattle.native_link.specs.Checking.{wrong_descriptor};
ghost use Rattle.native_link.specs.Lookup.{native_of};
ghost use Rattle.native_link.specs.Places.{is_behind_code_word, is_code_word, is_handler_place, is_return, is_word_from, item_address, first_item, wrong_field};
ghost use Rattle.std.specs.List.{flat_map};
ghost use Rattle.beam_code.specs.declared.module.Module.{Module};
ghost use Rattle.std.specs.Prelude.{List, ◌≡◌, ◌+◌, ◌-◌, ◌^◌, ◌<◌, ◌≤◌, IfOk, IfSome, length, map, min};

use crate::image::native_with;
use beam_check::Checked;
use beam_code::cost;
use image_format::{CODE_START, Descriptor, ITEM_START, Native};
use std::alloc::{AllocError, Global};

/// What descriptors are compared with: the native functions, the modules, and the cost of each
/// function, made once.
#[derive(Clone, Copy)]
pub(crate) struct Frames<'a> {
    pub(crate) natives: &'a [Native],
    pub(crate) checked: &'a Checked,
    pub(crate) costs: &'a [u32],
}

/// The cost of each function, in words of a frame.
pub(crate) fn costs_of(alloc: Global, checked: &Checked) -> Result<Vec<u32>, AllocError>
    ensures { IfOk result (λ costs. costs.items ≡ map (λ p. min (cost_of p.function) (2 ^ 32 - 1)) (all_functions checked.now)) }
{
    let mut costs = Vec::new(alloc);
    for fid in 0..checked.functions() {
        match checked.function(fid) {
            Some(function) => costs.push(cost(function))?,
            None => {}
        }
    }
    Ok(costs)
}

/// Whether `at` is the address of one of `count` words, from `start` up.
fn is_word_of(start: u64, count: usize, at: u32) -> bool
    ensures { result ≡ is_word_from start count at }
{
    let at = u64::from(at);
    at % 4 == 0 && start <= at && (at - start) / 4 < count as u64
}

/// The address of an item, by its number among those of all functions.
fn address_of(item: u64) -> u64
    requires { item < 2 ^ 34 }
    ensures { result ≡ item_address item }
{
    u64::from(ITEM_START) + 4 * item
}

/// Whether `at` is the address of a code word of the function.
fn is_in_code(native: Option<Native>, at: u32) -> bool
    ensures { result ≡ is_code_word native at }
{
    match native {
        None => false,
        Some(n) => is_word_of(
            u64::from(CODE_START) + 4 * u64::from(n.first),
            n.count as usize,
            at,
        ),
    }
}

/// Whether `at` is the address behind a code word of the function.
fn is_past_code(native: Option<Native>, at: u32) -> bool
    ensures { result ≡ is_behind_code_word native at }
{
    match native {
        None => false,
        Some(n) => {
            let entry = u64::from(CODE_START) + 4 * u64::from(n.first);
            is_word_of(entry + 4, n.count as usize, at)
        }
    }
}

fn returns(natives: &[Native], first: u32, d: &Descriptor) -> bool
    requires { Follow NativeFits after_native first_turn natives.now }
    ensures { (ms : List Module) → first ≡ first_item ms d.now.fid → result ≡ is_return natives.now ms d.now }
{
    let next = u64::from(first) + u64::from(d.item) + 1;
    u64::from(d.ret) == address_of(next) || is_past_code(native_with(natives, d.fid), d.ret)
}

fn handles(natives: &[Native], first: u32, items: usize, d: &Descriptor) -> bool
    requires { Follow NativeFits after_native first_turn natives.now }
    ensures { (ms : List Module) → first ≡ first_item ms d.now.fid → result ≡ is_handler_place natives.now ms d.now items }
{
    d.handler == 0
        || is_word_of(address_of(u64::from(first)), items, d.handler)
        || is_in_code(native_with(natives, d.fid), d.handler)
}

impl<'a> Frames<'a> {
    /// The place in bytes of the first field of a descriptor that breaks its rule.
    fn wrong_field(&self, d: &Descriptor) -> Option<usize>
        requires natives { Follow NativeFits after_native first_turn self.now.natives.now }
        requires costs { self.now.costs.now ≡ map (λ p. min (cost_of p.function) (2 ^ 32 - 1)) (all_functions self.now.checked.now) }
        requires frame { d.now.frame ≤ MOST_FRAME }
        ensures is { result ≡ wrong_field self.now.natives.now self.now.checked.now d.now }
        ensures low { IfSome result (λ field. field < 24) }
    {
        let Some(function) = self.checked.function(d.fid) else {
            return Some(4);
        };
        let Some(first) = self.checked.first_item(d.fid) else {
            return Some(4);
        };
        let items = function.items.len();
        if d.item as usize >= items {
            Some(8)
        } else if !returns(self.natives, first, d) {
            Some(0)
        } else if d.frame != self.costs[d.fid as usize] {
            Some(12)
        } else if !handles(self.natives, first, items, d) {
            Some(20)
        } else {
            None
        }
    }
    /// The place in bytes of the first field of descriptors that breaks its rule, where the first
    /// of them stands at `start`.
    pub(crate) fn wrong_descriptor(&self, start: usize, descriptors: &[Descriptor]) -> Option<u32>
        requires natives { Follow NativeFits after_native first_turn self.now.natives.now }
        requires costs { self.now.costs.now ≡ map (λ p. min (cost_of p.function) (2 ^ 32 - 1)) (all_functions self.now.checked.now) }
        requires sites { Follow DescriptorFits after_descriptor 0 descriptors.now }
        requires size { start + length (flat_map descriptor descriptors.now) ≤ MOST_IMAGE_BYTES }
        ensures { result ≡ wrong_descriptor self.now.natives.now self.now.checked.now start descriptors.now }
    {
        let mut at = start;
        for d in descriptors {
            match self.wrong_field(d) {
                Some(field) => return Some((at + field) as u32),
                None => at += 24 + 4 * ((d.frame as usize + 31) / 32),
            }
        }
        None
    }
}
