ghost use Rattle.std.specs.Prelude.{◌≡◌, IfOk, filter, nat_lt};
ghost use Rattle.beam_code.specs.declared.instr.Place.TheVariants.{Y};
ghost use Rattle.beam_code.specs.Uses.{same_place};
ghost use Rattle.path_rules.specs.Tags as spec;

use beam_code::Place;
use sqlite_items::Items;
use std::alloc::{AllocError, Global};

/// Which instruction tagged a y register.
#[derive(Clone, Copy, PartialEq, Eq, Debug)]
pub enum TagKind {
    Try,
    Catch,
}

/// A tagged y register, with the label of its handler.
#[derive(Clone, Copy, PartialEq, Eq, Debug)]
pub struct Tag {
    pub y: u32,
    pub kind: TagKind,
    pub label: u32,
}

fn is_y(y: u32, place: Place) -> bool
    ensures { result ≡ same_place (Y y) place }
{
    match place {
        Place::X(_) => false,
        Place::Y(n) => y == u32::from(n),
    }
}

fn is_among(y: u32, places: &[Place]) -> bool
    ensures { result ≡ spec.is_touched places.now y }
{
    places.iter().any(|place| is_y(y, *place))
}

fn tags_below(alloc: Global, y: u32, tags: &[Tag]) -> Result<Items<Tag>, AllocError>
    ensures { IfOk result (λ made. made ≡ filter (λ t. nat_lt t.y y) tags.now) }
{
    Ok(Items::from_vec(tags.iter().copied().filter(|t| t.y < y).collect(alloc)?))
}

fn tags_above(alloc: Global, y: u32, tags: &[Tag]) -> Result<Items<Tag>, AllocError>
    ensures { IfOk result (λ made. made ≡ filter (λ t. nat_lt y t.y) tags.now) }
{
    Ok(Items::from_vec(tags.iter().copied().filter(|t| y < t.y).collect(alloc)?))
}

/// The tags with one more, in the place of one of the same y register.
#[tactic(auto, using(std::proofs::lemmas::List::append_assoc))]
pub(crate) fn tagged(alloc: Global, tag: Tag, tags: &[Tag]) -> Result<Items<Tag>, AllocError>
    ensures { IfOk result (λ made. made ≡ spec.tagged tag tags.now) }
{
    let higher = tags_above(alloc, tag.y, tags)?;
    let mut made = tags_below(alloc, tag.y, tags)?;
    made.push(tag)?;
    made.append(higher)?;
    Ok(made)
}

/// The tags but that of a y register.
pub(crate) fn untagged(alloc: Global, y: u32, tags: &[Tag]) -> Result<Items<Tag>, AllocError>
    ensures { IfOk result (λ made. made ≡ spec.untagged y tags.now) }
{
    Ok(Items::from_vec(tags.iter().copied().filter(|t| t.y != y).collect(alloc)?))
}

/// The tags but those of places that take a value.
pub(crate) fn untouched(
    alloc: Global,
    places: &[Place],
    tags: &[Tag],
) -> Result<Items<Tag>, AllocError>
    ensures { IfOk result (λ made. made ≡ spec.untouched places.now tags.now) }
{
    Ok(Items::from_vec(
        tags.iter()
            .copied()
            .filter(|t| !is_among(t.y, places))
            .collect(alloc)?,
    ))
}

/// The tags that are left where the first `n` y registers go.
pub(crate) fn trimmed(alloc: Global, n: u32, tags: &[Tag]) -> Result<Items<Tag>, AllocError>
    ensures { IfOk result (λ made. made ≡ spec.trimmed n tags.now) }
{
    let left = tags.iter().copied().filter(|t| t.y >= n);
    Ok(Items::from_vec(
        left.map(|t| Tag {
            y: t.y.saturating_sub(n),
            kind: t.kind,
            label: t.label,
        })
        .collect(alloc)?,
    ))
}
