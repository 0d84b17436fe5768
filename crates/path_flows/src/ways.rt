// The steps of a node: the ways on from an item.

ghost use Rattle.std.specs.Prelude.{◌≡◌, ◌<◌, ◌^◌, ◌++◌, OnOk, IfOk, Some, map, slice_get, length};
ghost use Rattle.beam_code.specs.Lined as item_type;
ghost use Rattle.beam_code.specs.Shape.{shape_of};
ghost use Rattle.path_flows.specs.FlowOf as flows;
ghost use Rattle.path_flows.specs.Ways as spec;

use crate::names::{below, without};
use crate::registers::{MOST, onward_way};
use crate::way::Way;
use beam_code::{Function, Instr, Item, goes_on};
use data_flow::{Change, Names, Step};
use path_rules::{Frame, FramePaths, Tag, TagKind, labels_of};
use sqlite_items::Items;
use std::alloc::{AllocError, Global};

/// What a way keeps.
fn kept(way: Way) -> Names
    ensures { result ≡ flows.kept way }
{
    without(without(below(way.xs, way.slots), way.lost), way.gain)
}

/// A way as a step, for the rule on heap words or the one on registers.
fn step(counts: bool, way: Way) -> Step
    ensures { result ≡ flows.step_of counts way }
{
    let change = if counts { way.change } else { Change::Keeps };
    Step {
        to: way.to,
        keep: kept(way),
        gain: way.gain,
        change,
    }
}

fn label_way(to: u32) -> Way
    ensures { result ≡ spec.label_way to }
{
    Way {
        to,
        xs: MOST,
        slots: MOST,
        lost: Names::NONE,
        gain: Names::NONE,
        change: Change::Keeps,
    }
}

fn handler_way(kind: TagKind, to: u32) -> Way
    ensures { result ≡ spec.handler_way kind to }
{
    let terms = match kind {
        TagKind::Try => 3,
        TagKind::Catch => 1,
    };
    Way {
        to,
        xs: 0,
        slots: MOST,
        lost: Names::NONE,
        gain: below(terms, 0),
        change: Change::Asks(0),
    }
}

/// Adds the step to the next item, where the item goes on and is not the last.
fn add_next(
    function: &Function,
    counts: bool,
    stack: Option<u32>,
    at: u32,
    instr: &Instr,
    steps: &mut Items<Step>,
) -> Result<(), AllocError>
    requires { length function.now.items < 2 ^ 32 }
    ensures { OnOk result (steps.new ≡ steps.old ++ map (flows.step_of counts) (spec.onward_ways function.now stack at (shape_of instr.now))) }
{
    if goes_on(instr) && (at as usize) + 1 < function.items.len() {
        steps.push(step(counts, onward_way(stack, at + 1, instr)))?;
    }
    Ok(())
}

fn add_label(counts: bool, item: Option<u32>, steps: &mut Items<Step>) -> Result<(), AllocError>
    ensures { OnOk result (steps.new ≡ steps.old ++ map (flows.step_of counts) (spec.way_to item)) }
{
    if let Some(item) = item {
        steps.push(step(counts, label_way(item)))?;
    }
    Ok(())
}

/// Adds the steps to the items of labels.
fn add_labels(
    paths: &FramePaths,
    counts: bool,
    labels: &[u32],
    steps: &mut Items<Step>,
) -> Result<(), AllocError>
    ensures { OnOk result (steps.new ≡ steps.old ++ map (flows.step_of counts) (spec.label_ways paths.now.function.now labels.now)) }
{
    for label in labels {
        add_label(counts, paths.label_item(*label), steps)?;
    }
    Ok(())
}

/// Adds the step to the handler of a tag.
fn add_handler(
    paths: &FramePaths,
    counts: bool,
    lowest: Option<Tag>,
    steps: &mut Items<Step>,
) -> Result<(), AllocError>
    ensures { OnOk result (steps.new ≡ steps.old ++ map (flows.step_of counts) (spec.handler_ways paths.now.function.now lowest)) }
{
    if let Some(tag) = lowest {
        if let Some(item) = paths.label_item(tag.label) {
            steps.push(step(counts, handler_way(tag.kind, item)))?;
        }
    }
    Ok(())
}

/// The steps of an item, by the frame that paths have there.
#[tactic(auto, using(crate::proofs::Adding::all_added))]
pub(crate) fn steps_of(
    alloc: Global,
    paths: &FramePaths,
    function: &Function,
    counts: bool,
    frame: Frame,
    at: u32,
    item: &Item,
) -> Result<Items<Step>, AllocError>
    requires same { paths.now.function.now ≡ function.now }
    requires few { length function.now.items < 2 ^ 32 }
    requires item { slice_get function.now.items at ≡ Some item.now }
    ensures { IfOk result (λ steps. steps ≡ map (flows.step_of counts) (spec.ways_of paths.now.modules.now function.now frame at (shape_of item.now.instr))) }
{
    let mut steps = Items::new(alloc);
    add_next(function, counts, frame.stack, at, item.instr(), &mut steps)?;
    let labels = labels_of(alloc, item.instr())?;
    add_labels(paths, counts, labels.as_slice(), &mut steps)?;
    if paths.may_raise(at) {
        add_handler(paths, counts, frame.lowest, &mut steps)?;
    }
    Ok(steps)
}
