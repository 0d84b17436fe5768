// Whether points are the same, or carry the same.

ghost use Rattle.std.specs.Prelude.{◌≡◌};
ghost use Rattle.path_rules.specs.Frames.{same_frame};
ghost use Rattle.path_rules.specs.Rules as rules;
ghost use Rattle.path_rules.specs.Tags as spec;

use crate::fits::is_kind;
use crate::frame::FramePoint;
use crate::tag::Tag;

fn same_tag(a: Tag, b: Tag) -> bool
    ensures { result ≡ spec.same_tag a b }
{
    a.y == b.y && is_kind(a.kind, b.kind) && a.label == b.label
}

#[tactic(auto, using(crate::proofs::Lengths::other_lengths))]
pub(crate) fn same_tags(a: &[Tag], b: &[Tag]) -> bool
    ensures { result ≡ spec.same_tags a.now b.now }
{
    if a.len() != b.len() {
        return false;
    }
    for (i, tag) in a.iter().enumerate() {
        if !same_tag(*tag, b[i]) {
            return false;
        }
    }
    true
}

pub(crate) fn same_stack(a: Option<u32>, b: Option<u32>) -> bool
    ensures { result ≡ rules.same_stack a b }
{
    match a {
        None => b.is_none(),
        Some(m) => match b {
            None => false,
            Some(n) => m == n,
        },
    }
}

pub(crate) fn same_point(a: &FramePoint, b: &FramePoint) -> bool
    ensures { result ≡ same_frame a.now b.now }
{
    a.item == b.item
        && same_stack(a.stack, b.stack)
        && same_tags(a.tags.as_slice(), b.tags.as_slice())
        && a.raised == b.raised
}
