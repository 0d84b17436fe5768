ghost use Rattle.std.specs.Prelude.{◌≡◌, ◌<◌, ◌++◌, [], ◌∷◌, OnOk, IfOk, length, slice_set};
ghost use Rattle.path_search.specs.Found.{AreFlags, AreSteps, row_of};
ghost use Rattle.path_search.specs.Steps.{AreNoted, Notes, NotesAll};

use crate::found::widen;
use crate::rounds::reach;
use crate::walk::Walk;
use sqlite_items::Items;
use std::alloc::{AllocError, Global};

/// Adds an item to a row that is there.
fn add(next: &mut [Items<u32>], from: usize, to: u32) -> Result<(), AllocError>
    requires { from < length next.old }
    ensures { OnOk result (next.new ≡ slice_set next.old from (row_of next.old from ++ to ∷ [])) }
{
    next[from].push(to)
}

/// Notes a move from item to item.
fn note(alloc: Global, next: &mut Vec<Items<u32>>, from: usize, to: u32) -> Result<(), AllocError>
    ensures { OnOk result (Notes from to next.old.items next.new.items) }
{
    widen(alloc, next, from)?;
    widen(alloc, next, to as usize)?;
    add(next, from, to)?;
    Ok(())
}

/// Notes the moves from this item to those of these points.
fn note_all<W: Walk>(
    alloc: Global,
    walk: &W,
    next: &mut Vec<Items<u32>>,
    from: usize,
    to: &[W::Point],
) -> Result<(), AllocError>
    ensures { OnOk result (NotesAll (W.item_of walk.now) from to.now next.old.items next.new.items) }
{
    for point in to {
        note(alloc, next, from, walk.item(point))?;
    }
    Ok(())
}

/// Notes the moves from a point.
fn note_moves<W: Walk>(
    alloc: Global,
    walk: &W,
    next: &mut Vec<Items<u32>>,
    from: &W::Point,
) -> Result<(), AllocError>
    ensures { OnOk result (NotesAll (W.item_of walk.now) (W.item_of walk.now from.now) ((W.ways walk.now).graph.moves from.now) next.old.items next.new.items) }
{
    let mut to = Items::new(alloc);
    walk.moves(from, &mut to)?;
    note_all(alloc, walk, next, walk.item(from) as usize, to.as_slice())
}

/// The moves from these points, of those from which paths go on.
fn noted<W: Walk>(
    alloc: Global,
    walk: &W,
    points: &[W::Point],
    went: &[bool],
) -> Result<Vec<Items<u32>>, AllocError>
    requires { length went.now ≡ length points.now }
    ensures { IfOk result (λ next. AreNoted (W.ways walk.now) (W.item_of walk.now) points.now went.now (length points.now) next.items) }
{
    let mut next = Vec::new(alloc);
    for at in 0..points.len() {
        if went[at] {
            note_moves(alloc, walk, &mut next, &points[at])?;
        }
    }
    Ok(next)
}

/// The moves that paths make, by item: a row for each item, with the items to which paths go on
/// from it. `items`, the number of items that are expected, is asked for memory alone.
pub fn steps<W: Walk>(
    alloc: Global,
    walk: &W,
    items: usize,
) -> Result<Items<Items<u32>>, AllocError>
    ensures { IfOk result (AreSteps (W.ways walk.now) (W.item_of walk.now)) }
{
    match reach(alloc, walk, items, None) {
        Ok(found) => {
            let next = noted(alloc, walk, found.points.as_slice(), &found.went)?;
            Ok(Items::from_vec(next))
        }
        Err(_) => Err(AllocError),
    }
}
