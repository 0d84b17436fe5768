ghost use Rattle.std.specs.Prelude.{◌≡◌, ◌<◌, ◌-◌, ◌^◌, IfOk};
ghost use Rattle.beam_code.specs.Shape.{shape_of};
ghost use Rattle.path_rules.specs.Frames.{frame_of, point_of};
ghost use Rattle.path_rules.specs.Points as points;

use crate::tag::{Tag, TagKind, tagged, trimmed, untagged, untouched};
use beam_code::Instr;
use sqlite_items::Items;
use std::alloc::{AllocError, Global};

/// Where a path ends, and what it carries there but registers and heap words: its item; how many
/// y registers there are, or no stack; the tagged ones, the lowest first; whether an exception led
/// here, and since then items without effect alone.
#[derive(Drop)]
pub struct FramePoint {
    pub item: u32,
    pub stack: Option<u32>,
    pub tags: Items<Tag>,
    pub raised: bool,
}

pub(crate) fn is_passed(instr: &Instr) -> bool
    ensures { result ≡ points.is_passed (shape_of instr.now) }
{
    match instr {
        Instr::Label(_) | Instr::Line(_) | Instr::Comment(_) => true,
        _ => false,
    }
}

fn stack_behind(instr: &Instr, stack: Option<u32>) -> Option<u32>
    ensures { result ≡ points.stack_behind (shape_of instr.now) stack }
{
    match instr {
        Instr::Allocate(n, _)
        | Instr::AllocateZero(n, _)
        | Instr::AllocateHeap(n, _, _)
        | Instr::AllocateHeapZero(n, _, _) => Some(*n),
        Instr::Trim(n, _) => stack.map(|size| size.saturating_sub(*n)),
        Instr::Deallocate(_) => None,
        _ => stack,
    }
}

/// The tags of a path behind an item.
fn tags_behind(alloc: Global, instr: &Instr, tags: &[Tag]) -> Result<Items<Tag>, AllocError>
    ensures { IfOk result (λ made. made ≡ points.tags_behind (shape_of instr.now) tags.now) }
{
    match instr {
        Instr::Try(y, label) => {
            let tag = Tag {
                y: u32::from(*y),
                kind: TagKind::Try,
                label: *label,
            };
            tagged(alloc, tag, tags)
        }
        Instr::Catch(y, label) => {
            let tag = Tag {
                y: u32::from(*y),
                kind: TagKind::Catch,
                label: *label,
            };
            tagged(alloc, tag, tags)
        }
        Instr::TryEnd(y)
        | Instr::TryCase(y)
        | Instr::CatchEnd(y)
        | Instr::Init(y)
        | Instr::Kill(y) => untagged(alloc, u32::from(*y), tags),
        Instr::Trim(n, _) => trimmed(alloc, *n, tags),
        Instr::Allocate(_, _)
        | Instr::AllocateZero(_, _)
        | Instr::AllocateHeap(_, _, _)
        | Instr::AllocateHeapZero(_, _, _)
        | Instr::Deallocate(_) => Ok(Items::new(alloc)),
        Instr::TestHeap(_, _) => Items::from_slice(alloc, tags),
        Instr::Move(_, to)
        | Instr::GetHd(_, to)
        | Instr::GetTl(_, to)
        | Instr::GetTupleElement(_, _, to)
        | Instr::PutList(_, _, to)
        | Instr::PutTuple2(to, _)
        | Instr::Bif(_, _, _, to)
        | Instr::GcBif(_, _, _, _, to) => untouched(alloc, &[*to], tags),
        Instr::Swap(a, b) | Instr::GetList(_, a, b) => untouched(alloc, &[*a, *b], tags),
        Instr::Label(_)
        | Instr::Line(_)
        | Instr::Comment(_)
        | Instr::FuncInfo(_, _, _)
        | Instr::Test(_, _, _)
        | Instr::SelectVal(_, _, _)
        | Instr::SelectTupleArity(_, _, _)
        | Instr::Jump(_)
        | Instr::Return
        | Instr::Call(_, _)
        | Instr::CallExt(_, _)
        | Instr::CallLast(_, _, _)
        | Instr::CallExtLast(_, _, _)
        | Instr::CallOnly(_, _)
        | Instr::CallExtOnly(_, _)
        | Instr::Badmatch(_)
        | Instr::CaseEnd(_)
        | Instr::TryCaseEnd(_)
        | Instr::IfEnd
        | Instr::BifRaise(_, _, _)
        | Instr::Raise(_, _, _)
        | Instr::RawRaise => untouched(alloc, &[], tags),
    }
}

/// The point behind an item, at the next one.
pub(crate) fn behind(
    alloc: Global,
    instr: &Instr,
    from: &FramePoint,
) -> Result<FramePoint, AllocError>
    requires { from.now.item < 2 ^ 32 - 1 }
    ensures { IfOk result (λ q. q ≡ frame_of (points.behind (shape_of instr.now) (point_of from.now))) }
{
    let tags = tags_behind(alloc, instr, from.tags.as_slice())?;
    Ok(FramePoint {
        item: from.item + 1,
        stack: stack_behind(instr, from.stack),
        tags,
        raised: is_passed(instr) && from.raised,
    })
}

/// The same point at another item.
pub(crate) fn moved_to(
    alloc: Global,
    from: &FramePoint,
    item: u32,
    raised: bool,
) -> Result<FramePoint, AllocError>
    ensures { IfOk result (λ q. q ≡ record { item = item; stack = from.now.stack; tags = from.now.tags; raised = raised }) }
{
    let tags = Items::from_slice(alloc, from.tags.as_slice())?;
    Ok(FramePoint {
        item,
        stack: from.stack,
        tags,
        raised,
    })
}
