// Whether an item fits the stack and the tags of a path.

ghost use Rattle.std.specs.Prelude.{◌≡◌, Some, not, nat_lt};
ghost use Rattle.std.specs.List.{list_all};
ghost use Rattle.beam_code.specs.Shape.{shape_of};
ghost use Rattle.path_rules.specs.Rules as rules;
ghost use Rattle.path_rules.specs.Tags.{lowest_tag, same_kind};

use crate::named::{Asked, is_untagged, others_pass, uses_pass};
use crate::tag::{Tag, TagKind};
use beam_code::Instr;

fn is_of_size(stack: Option<u32>, size: u64) -> bool
    ensures { result ≡ rules.same_stack stack (Some size) }
{
    match stack {
        None => false,
        Some(n) => u64::from(n) == size,
    }
}

/// Whether the size of the stack is one that the item may find, registers apart.
fn shape_fits(instr: &Instr, stack: Option<u32>) -> bool
    ensures { result ≡ rules.shape_fits (shape_of instr.now) stack }
{
    match instr {
        Instr::Allocate(_, _)
        | Instr::AllocateZero(_, _)
        | Instr::AllocateHeap(_, _, _)
        | Instr::AllocateHeapZero(_, _, _)
        | Instr::Return
        | Instr::CallOnly(_, _)
        | Instr::CallExtOnly(_, _)
        | Instr::FuncInfo(_, _, _) => stack.is_none(),
        Instr::Trim(n, rest) => is_of_size(stack, u64::from(*n) + u64::from(*rest)),
        Instr::Deallocate(n) | Instr::CallLast(_, _, n) | Instr::CallExtLast(_, _, n) => {
            is_of_size(stack, u64::from(*n))
        }
        _ => true,
    }
}

/// Whether all that an item names and asks of the stack is there.
pub(crate) fn stack_fits(instr: &Instr, stack: Option<u32>) -> bool
    ensures { result ≡ rules.stack_fits (shape_of instr.now) stack }
{
    let ask = Asked::InStack(stack);
    uses_pass(ask, instr) && others_pass(ask, instr) && shape_fits(instr, stack)
}

pub(crate) fn is_kind(kind: TagKind, other: TagKind) -> bool
    ensures { result ≡ same_kind kind other }
{
    match kind {
        TagKind::Try => match other {
            TagKind::Try => true,
            TagKind::Catch => false,
        },
        TagKind::Catch => match other {
            TagKind::Try => false,
            TagKind::Catch => true,
        },
    }
}

/// Whether the lowest tag is of this kind and this y register.
pub(crate) fn is_lowest(kind: TagKind, y: u32, tags: &[Tag]) -> bool
    ensures { result ≡ rules.is_tag_of kind y (lowest_tag tags.now) }
{
    match tags.first() {
        None => false,
        Some(tag) => is_kind(kind, tag.kind) && y == tag.y,
    }
}

fn is_below_tags(y: u32, tags: &[Tag]) -> bool
    ensures { result ≡ rules.is_below_tags y tags.now }
{
    tags.iter().all(|t| y < t.y)
}

/// Whether a `try` or `catch` tags a y register below all tags.
pub(crate) fn in_order(instr: &Instr, tags: &[Tag]) -> bool
    ensures { result ≡ rules.in_order tags.now (shape_of instr.now) }
{
    match instr {
        Instr::Try(y, _) | Instr::Catch(y, _) => is_below_tags(u32::from(*y), tags),
        _ => true,
    }
}

fn spares_first(n: u32, tags: &[Tag]) -> bool
    ensures { result ≡ list_all (λ t. not (nat_lt t.y n)) tags.now }
{
    tags.iter().all(|t| t.y >= n)
}

/// Whether no tag goes but by its end.
pub(crate) fn keeps_tags(instr: &Instr, tags: &[Tag]) -> bool
    ensures { result ≡ rules.shape_keeps_tags tags.now (shape_of instr.now) }
{
    match instr {
        Instr::Trim(n, _) => spares_first(*n, tags),
        Instr::Deallocate(_) | Instr::CallLast(_, _, _) | Instr::CallExtLast(_, _, _) => {
            tags.is_empty()
        }
        Instr::Init(y) | Instr::Kill(y) => is_untagged(tags, u32::from(*y)),
        _ => true,
    }
}
