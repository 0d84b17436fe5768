// The nodes of the flow of a function, one an item.

ghost use Rattle.std.specs.Prelude.{◌≡◌, ◌<◌, ◌^◌, IfOk, Some, length, slice_get};
ghost use Rattle.beam_code.specs.Shape.{shape_of};
ghost use Rattle.path_rules.specs.Registers as registers;
ghost use Rattle.path_flows.specs.FlowOf as spec;
ghost use Rattle.path_flows.specs.FlowOf.{AreNodes, AreCells};

use crate::registers::{cell_words, reads};
use crate::ways::steps_of;
use beam_code::{Function, Item};
use data_flow::{Names, Node};
use path_rules::{Frame, FramePaths};
use sqlite_items::Items;
use std::alloc::{AllocError, Global};

/// The node of an item, by the frame that paths have there.
fn node_of(
    alloc: Global,
    paths: &FramePaths,
    function: &Function,
    counts: bool,
    frame: Frame,
    at: u32,
    item: &Item,
) -> Result<Node, AllocError>
    requires same { paths.now.function.now ≡ function.now }
    requires few { length function.now.items < 2 ^ 32 }
    requires item { slice_get function.now.items at ≡ Some item.now }
    requires cell { registers.cell_words (shape_of item.now.instr) < 2 ^ 32 }
    ensures { IfOk result (λ node. node ≡ spec.node_of paths.now.modules.now function.now counts frame at (shape_of item.now.instr)) }
{
    let steps = steps_of(alloc, paths, function, counts, frame, at, item)?;
    if counts {
        return Ok(Node {
            reads: Names::NONE,
            puts: cell_words(item.instr()),
            steps,
        });
    }
    Ok(Node {
        reads: reads(frame.stack, item.instr()),
        puts: 0,
        steps,
    })
}

/// The frame that paths have at an item, if one comes there.
fn frame_at(frames: &[Option<Frame>], at: usize) -> Option<Frame>
    ensures { result ≡ spec.frame_in (slice_get frames.now at) }
{
    match frames.get(at) {
        None => None,
        Some(frame) => *frame,
    }
}

/// The node of an item.
fn node_at(
    alloc: Global,
    paths: &FramePaths,
    function: &Function,
    counts: bool,
    frames: &[Option<Frame>],
    at: usize,
) -> Result<Node, AllocError>
    requires same { paths.now.function.now ≡ function.now }
    requires few { length function.now.items < 2 ^ 32 }
    requires cells { AreCells function.now.items }
    requires item { at < length function.now.items }
    ensures { IfOk result (λ node. node ≡ spec.node_at paths.now.modules.now function.now counts frames.now at) }
{
    if let Some(frame) = frame_at(frames, at) {
        if let Some(item) = function.items.get(at) {
            return node_of(alloc, paths, function, counts, frame, at as u32, item);
        }
    }
    Ok(Node {
        reads: Names::NONE,
        puts: 0,
        steps: Items::new(alloc),
    })
}

/// The nodes of all items.
pub(crate) fn nodes(
    alloc: Global,
    paths: &FramePaths,
    function: &Function,
    counts: bool,
    frames: &[Option<Frame>],
) -> Result<Items<Node>, AllocError>
    requires same { paths.now.function.now ≡ function.now }
    requires few { length function.now.items < 2 ^ 32 }
    requires cells { AreCells function.now.items }
    ensures { IfOk result (λ nodes. AreNodes paths.now.modules.now function.now counts frames.now nodes) }
{
    let mut nodes = Items::new(alloc);
    for at in 0..function.items.len() {
        nodes.push(node_at(alloc, paths, function, counts, frames, at)?)?;
    }
    Ok(nodes)
}
