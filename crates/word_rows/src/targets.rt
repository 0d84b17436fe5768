//! Functions by their numbers, and by the labels where their calls begin.

ghost use Rattle.beam_code.specs.Function.{all_functions, first_that, function_at, is_target};
ghost use Rattle.indexmap.specs.IndexMap.{get};
ghost use Rattle.path_rules.specs.Index as index;
ghost use Rattle.std.specs.Prelude.{◌≡◌, ◌<◌, IfOk, IfSome, None, OnOk, Some, cond, length, option_map};
ghost use Rattle.beam_code.specs.declared.module.Function.{Function};
ghost use Rattle.module_texts.specs.Bounds.{AreBounded};
ghost use Rattle.word_rows.specs.Entries.{item_entry};
ghost use Rattle.word_rows.specs.Standing.{stack_at};
ghost use Rattle.word_rows.specs.Targets.{placed};
ghost use Rattle.word_rows.specs.Targets as targets;

use beam_check::Checked;
use beam_code::{Function, Instr, Module};
use image_format::ITEM_START;
use indexmap::IndexMap;
use std::alloc::{AllocError, Global};
use term_tree::Name;

/// A function by the name of its module, the label where its calls begin, and its arity.
#[derive(Drop, PartialEq, Eq, Hash)]
pub(crate) struct Target {
    pub(crate) owner: Name,
    pub(crate) label: u32,
    pub(crate) arity: u32,
}

/// A function and its module.
#[derive(Clone, Copy)]
pub(crate) struct Placed<'a> {
    pub(crate) owner: &'a Module,
    pub(crate) function: &'a Function,
}

/// The function with a number.
pub(crate) fn placed_at(checked: &Checked, fid: u32) -> Option<Placed<'_>>
    ensures some { IfSome result (λ p. function_at checked.now fid ≡ Some (placed p.owner.now p.function.now)) }
    ensures none { result ≡ None → function_at checked.now fid ≡ None }
{
    let owner = checked.module_of(fid)?;
    let function = checked.function(fid)?;
    Some(Placed { owner, function })
}

/// How many y registers the paths to an item of a function carry.
pub(crate) fn stack_of(checked: &Checked, fid: u32, item: u32) -> Option<Option<u16>>
    requires { AreBounded checked.now }
    ensures { (f : Function) → option_map (λ p. p.function) (function_at checked.now fid) ≡ Some f → result ≡ stack_at checked.now f item }
{
    checked.are_in_profile();
    checked.stack(fid, item)
}

/// The address of a function's entry item; 0 where there is no such function.
pub(crate) fn item_entry(checked: &Checked, fid: u32) -> u32
    requires { AreBounded checked.now }
    ensures { result ≡ item_entry checked.now fid (function_at checked.now fid) }
{
    let Some(first) = checked.first_item(fid) else {
        return 0;
    };
    let Some(function) = checked.function(fid) else {
        return 0;
    };
    ITEM_START + 4 * (first + function.entry)
}

/// The label where the calls of a function begin.
fn entry_label(function: &Function) -> Option<u32>
    ensures { result ≡ index.entry_label function.now }
{
    match function.items.get(function.entry as usize) {
        None => None,
        Some(item) => match item.instr() {
            Instr::Label(n) => Some(*n),
            _ => None,
        },
    }
}

/// Notes the number of a function, where its calls begin at a label.
fn add_target(
    alloc: Global,
    map: &mut IndexMap<Target, u32>,
    p: Placed,
    fid: u32,
) -> Result<(), AllocError>
    ensures { OnOk result ((k : targets.Target) → get targets.same_target map.new k ≡ cond (is_target k.owner k.label k.arity (placed p.entry.owner.now p.entry.function.now)) (Some fid) (get targets.same_target map.old k)) }
{
    if let Some(label) = entry_label(p.function) {
        let owner = p.owner.name.copy(alloc)?;
        let arity = u32::from(p.function.arity);
        map.insert(
            Target {
                owner,
                label,
                arity,
            },
            fid,
        )?;
    }
    Ok(())
}

/// The number of the first function of each label and arity in the modules of each name.
pub(crate) fn target_map(
    alloc: Global,
    checked: &Checked,
) -> Result<IndexMap<Target, u32>, AllocError>
    ensures { IfOk result (λ map. (k : targets.Target) → get targets.same_target map k ≡ first_that (is_target k.owner k.label k.arity) 0 (all_functions checked.now)) }
{
    let mut map = IndexMap::new(alloc);
    let mut fid = checked.functions();
    while fid > 0 {
        fid -= 1;
        if let Some(p) = placed_at(checked, fid) {
            add_target(alloc, &mut map, p, fid)?;
        }
    }
    Ok(map)
}
