//! What a machine begins a call with.

ghost use Rattle.beam_code.specs.Function.{exported_number, function_at, items_of};
ghost use Rattle.beam_code.specs.Meaning.{words_in};
ghost use Rattle.mode_switch.specs.Call.{IsInRange};
ghost use Rattle.mode_switch.specs.Destination.{entry_address, item_entry};
ghost use Rattle.mode_switch.specs.Lookup.{IsLoadable};
ghost use Rattle.mode_switch.specs.Machine.{entries_of};
ghost use Rattle.mode_switch.specs.Opening.{IsLow, IsStart, Starts};
ghost use Rattle.module_texts.specs.Bounds.{most_arguments};
ghost use Rattle.image_format.specs.Fitting.{IsFitting};
ghost use Rattle.std.specs.List.{list_all};
ghost use Rattle.std.specs.Prelude.{◌≡◌, ◌+◌, ◌<◌, ◌≤◌, ◌^◌, length, map, replicate, IfOk, IsTrue};
ghost use Rattle.term_tree.specs.Term.{is_canonical, tree_of};

use crate::arguments::atoms_with;
use crate::hardware::Hardware;
use crate::lookup::items_of_modules;
use crate::machine::{Call, OpenRefusal};
use beam_check::Checked;
use beam_code::Limits;
use image_format::ITEM_START;
use native_link::Image;
use std::alloc::{AllocError, Global};
use tagged_words::Atoms;
use term_tree::Term;
use word_laying::words_of_row;
use word_walks::Scratch;

/// What a machine begins a call with: how many items there are, the atoms, memory for walks, and
/// the first state.
#[derive(Drop)]
pub(crate) struct Start {
    pub(crate) items: u32,
    pub(crate) atoms: Atoms,
    pub(crate) scratch: Scratch,
    pub(crate) hardware: Hardware,
}

/// The address of a function's entry item.
fn item_entry(checked: &Checked, fid: u32) -> u32
    requires { IsLoadable checked.now }
    ensures entry { result ≡ item_entry checked.now fid (function_at checked.now fid) }
    ensures fits { result + 4 < 2 ^ 32 }
{
    let Some(first) = checked.first_item(fid) else {
        return 0;
    };
    let Some(function) = checked.function(fid) else {
        return 0;
    };
    ITEM_START + 4 * (first + function.entry)
}

/// The address where a call of a function begins.
fn entry_of(image: &Image, fid: u32) -> u32
    requires fitting { IsFitting image.now.parts }
    requires loadable { IsLoadable image.now.modules }
    ensures entry { result ≡ entry_address image.now.modules image.now.parts.natives fid }
    ensures fits { result + 4 < 2 ^ 32 }
{
    match image.native_entry(fid) {
        Some(entry) => entry,
        None => item_entry(image.checked(), fid),
    }
}

/// The number of the function that a call names, if it is exported.
fn function_of(checked: &Checked, call: &Call) -> Option<u32>
    requires { IsLow checked.now }
    ensures { result ≡ exported_number checked.now call.now.«module» call.now.function (length call.now.args) }
{
    let arity = call.args.len();
    if arity > usize::from(u8::MAX) {
        return None;
    }
    checked.exported(&call.module, &call.function, arity as u8)
}

/// Memory for walks over the literals and the heap.
fn scratch_for(alloc: Global, image: &Image, limits: &Limits) -> Result<Scratch, AllocError>
    requires fitting { IsFitting image.now.parts }
    requires limits { IsInRange limits.now }
    ensures { IfOk result (λ s. s ≡ replicate (entries_of image.now.parts limits.now) 0) }
{
    let literals = image.parts().literals.len() as u32;
    Scratch::new(alloc, literals + limits.heap + 1)
}

/// What a call begins with that goes in at an entry.
fn start_at(
    alloc: Global,
    image: &Image,
    args: &[Term],
    limits: &Limits,
    entry: u32,
) -> Result<Start, AllocError>
    requires fitting { IsFitting image.now.parts }
    requires items { items_of image.now.modules < 2 ^ 32 }
    requires limits { IsInRange limits.now }
    requires few { length args.now ≤ most_arguments }
    requires heap { words_in (map tree_of args.now) ≤ limits.now.heap }
    requires canonical { IsTrue (list_all is_canonical args.now) }
    requires entry { entry + 4 < 2 ^ 32 }
    ensures { IfOk result (IsStart image.now.modules image.now.parts limits.now (map tree_of args.now) entry) }
{
    let items = items_of_modules(image.checked().modules());
    let atoms = atoms_with(alloc, image, args)?;
    let scratch = scratch_for(alloc, image, limits)?;
    let hardware = Hardware::start(alloc, limits, entry, args, &atoms)?;
    Ok(Start {
        items,
        atoms,
        scratch,
        hardware,
    })
}

/// What a call of an exported function begins with.
pub(crate) fn start_of(
    alloc: Global,
    image: &Image,
    call: &Call,
    limits: &Limits,
) -> Result<Start, OpenRefusal>
    requires fitting { IsFitting image.now.parts }
    requires loadable { IsLoadable image.now.modules }
    requires low { IsLow image.now.modules }
    requires limits { IsInRange limits.now }
    requires canonical { IsTrue (list_all is_canonical call.now.args) }
    ensures start { Starts image.now.modules image.now.parts limits.now (exported_number image.now.modules call.now.«module» call.now.function (length call.now.args)) (map tree_of call.now.args) result }
{
    let Some(function) = function_of(image.checked(), call) else {
        return Err(OpenRefusal::NotExported);
    };
    let args = call.args.as_slice();
    if words_of_row(args, 0) > u64::from(limits.heap) {
        return Err(OpenRefusal::ArgsDoNotFit);
    }
    match start_at(alloc, image, args, limits, entry_of(image, function)) {
        Ok(start) => Ok(start),
        Err(e) => Err(OpenRefusal::Memory(e)),
    }
}
