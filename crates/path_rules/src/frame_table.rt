ghost use Rattle.std.specs.Prelude.{◌≡◌, IfOk, List, None, replicate};
ghost use Rattle.beam_code.specs.declared.module.Module as module_type;
ghost use Rattle.beam_code.specs.Function.{Placed};
ghost use Rattle.path_rules.specs.declared.rule.Rule as rule_type;
ghost use Rattle.path_rules.specs.FrameTable as spec;
ghost use Rattle.path_rules.specs.FrameTable.{AreFrames, AreSearched};

use crate::frame::FramePoint;
use crate::tag::Tag;
use beam_code::Function;
use sqlite_items::Items;
use std::alloc::{AllocError, Global};

/// What all paths that come to an item carry there: how many y registers there are, or no stack;
/// the lowest tag.
#[derive(Clone, Copy)]
pub struct Frame {
    pub stack: Option<u32>,
    pub lowest: Option<Tag>,
}

fn said_frame(point: &FramePoint) -> Frame
    ensures { result ≡ spec.said_frame point.now }
{
    Frame {
        stack: point.stack,
        lowest: point.tags.as_slice().first().copied(),
    }
}

fn fill(points: &[FramePoint], frames: &mut [Option<Frame>])
    ensures { frames.new ≡ spec.filled points.now frames.old }
{
    for point in points {
        let at = point.item as usize;
        if at < frames.len() {
            frames[at] = Some(said_frame(point));
        }
    }
}

/// A table that says nothing.
fn nothing_said(alloc: Global, count: usize) -> Result<Vec<Option<Frame>>, AllocError>
    ensures { IfOk result (λ frames. frames.items ≡ replicate count None) }
{
    vec![in alloc; None; count]
}

fn filled(
    alloc: Global,
    count: usize,
    points: &[FramePoint],
) -> Result<Items<Option<Frame>>, AllocError>
    ensures { IfOk result (λ frames. frames ≡ spec.filled points.now (replicate count None)) }
{
    let mut frames = nothing_said(alloc, count)?;
    fill(points, &mut frames);
    Ok(Items::from_vec(frames))
}

/// For each item of a function what every path to it carries there, and nothing where none comes,
/// from the points that were found for a rule.
pub fn frames_of(
    alloc: Global,
    function: &Function,
    points: &[FramePoint],
) -> Result<Items<Option<Frame>>, AllocError>
    ensures { IfOk result (λ frames. (ms : List module_type.Module) (f : Placed) (rule : rule_type.Rule) → f.function ≡ function.now → AreSearched ms f rule points.now → AreFrames ms f frames) }
{
    filled(alloc, function.items.len(), points)
}
