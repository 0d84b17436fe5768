ghost use Rattle.std.specs.Prelude.{◌≡◌, ◌<◌, ◌≤◌, ◌&&◌, OnOk, IfOk, Err, None, [], length, nat_lt, slice_get, take};
ghost use Rattle.paths.specs.Rules.{Says};
ghost use Rattle.paths.specs.Search.{IsReach, Level, Round, least_of};
ghost use Rattle.path_search.specs.Found.{AddsAll, AreDistinct, AreFlags, AreLatest, Crowds, Expands, HasMore, IsAhead, IsCrowded, IsListed, goes_on_by_row, is_bad, meets, option_any, row_of};
ghost use Rattle.path_search.specs.Kept.{IsKept};
ghost use Rattle.path_search.specs.declared.rounds.Stop.TheVariants.{States};

use crate::found::{Found, add, begin, row};
use crate::walk::Walk;
use sqlite_items::Items;
use std::alloc::{AllocError, Global};

/// Why a search has no answer.
#[derive(Clone, Copy)]
pub enum Stop {
    /// There is not enough memory.
    Memory,
    /// There are more points than the limit allows.
    States,
}

/// Whether the point at this place is one of the first `end` and ends a path to this one.
fn ends<W: Walk>(walk: &W, points: &[W::Point], at: usize, end: usize, to: &W::Point) -> bool
    ensures { result ≡ (nat_lt at end && option_any (λ p. (W.ways walk.now).apart p to.now) (slice_get points.now at)) }
{
    if at >= end {
        return false;
    }
    match points.get(at) {
        None => false,
        Some(point) => walk.is_apart(point, to),
    }
}

/// Whether one of the first `end` points, of those of a row, ends a path to this one.
fn is_ended<W: Walk>(
    walk: &W,
    points: &[W::Point],
    row: &[usize],
    end: usize,
    to: &W::Point,
) -> bool
    ensures { result ≡ meets (λ p. (W.ways walk.now).apart p to.now) points.now end row.now }
{
    row.iter().any(|at| ends(walk, points, *at, end, to))
}

/// Whether one of the first `end` points that is at its item ends a path to this one.
fn is_ended_at<W: Walk>(
    walk: &W,
    points: &[W::Point],
    rows: &[Items<usize>],
    end: usize,
    to: &W::Point,
) -> bool
    ensures { result ≡ meets (λ p. (W.ways walk.now).apart p to.now) points.now end (row_of rows.now (W.item_of walk.now to.now)) }
{
    if !walk.may_end() {
        return false;
    }
    is_ended(walk, points, row(rows, walk.item(to)), end, to)
}

/// Whether paths go on from this point, where the first `end` are those of no more moves.
fn goes_on<W: Walk>(
    walk: &W,
    points: &[W::Point],
    rows: &[Items<usize>],
    end: usize,
    from: &W::Point,
) -> bool
    ensures { result ≡ goes_on_by_row (W.ways walk.now) (W.item_of walk.now) points.now rows.now end from.now }
{
    !walk.breaks(from) && !is_ended_at(walk, points, rows, end, from)
}

/// Adds these points, the last first.
fn take<W: Walk>(
    alloc: Global,
    walk: &W,
    fresh: &mut Items<W::Point>,
    found: &mut Found<W::Point>,
    limit: Option<u32>,
) -> Result<(), Stop>
    requires { IsKept (W.item_of walk.now) (W.number_of walk.now) limit found.old }
    ensures kept { OnOk result (IsKept (W.item_of walk.now) (W.number_of walk.now) limit found.new) }
    ensures adds { OnOk result (AddsAll found.old.points fresh.old found.new.points) }
    ensures went { OnOk result (found.new.went.items ≡ found.old.went.items) }
    ensures states { result ≡ Err States → Crowds (W.item_of walk.now) limit found.old.points fresh.old }
{
    while let Some(point) = fresh.pop() {
        match add(alloc, walk, found, point, limit) {
            Ok(()) => {}
            Err(stop) => return Err(stop),
        }
    }
    Ok(())
}

/// Whether paths go on from the point at this place, where the first `end` are those of no more
/// moves, and where they then go on to.
fn ahead<W: Walk>(
    alloc: Global,
    walk: &W,
    found: &Found<W::Point>,
    at: usize,
    end: usize,
) -> Result<(bool, Items<W::Point>), AllocError>
    requires at { at < end }
    requires end { end ≤ length found.now.points }
    requires listed { IsListed (W.item_of walk.now) found.now.points found.now.rows.items }
    ensures { IfOk result (λ r. IsAhead (W.ways walk.now) (take end found.now.points) at found.now.points r.0 r.1) }
{
    let points = found.points.as_slice();
    let from = &points[at];
    let mut fresh = Items::new(alloc);
    if !goes_on(walk, points, &found.rows, end, from) {
        return Ok((false, fresh));
    }
    walk.moves(from, &mut fresh)?;
    Ok((true, fresh))
}

/// Goes on from the point at this place, where the first `end` are those of no more moves.
fn expand<W: Walk>(
    alloc: Global,
    walk: &W,
    found: &mut Found<W::Point>,
    at: usize,
    end: usize,
    limit: Option<u32>,
) -> Result<(), Stop>
    requires at { at < end }
    requires end { end ≤ length found.old.points }
    requires kept { IsKept (W.item_of walk.now) (W.number_of walk.now) limit found.old }
    ensures kept { OnOk result (IsKept (W.item_of walk.now) (W.number_of walk.now) limit found.new) }
    ensures expands { OnOk result (Expands (W.ways walk.now) (take end found.old.points) at found.old.points found.new.points found.old.went.items found.new.went.items) }
    ensures states { result ≡ Err States → IsCrowded (W.ways walk.now) (W.item_of walk.now) limit (take end found.old.points) at found.old.points }
{
    let (goes, mut fresh) = match ahead(alloc, walk, found, at, end) {
        Ok(ahead) => ahead,
        Err(_) => return Err(Stop::Memory),
    };
    match found.went.push(goes) {
        Ok(()) => {}
        Err(_) => return Err(Stop::Memory),
    }
    match take(alloc, walk, &mut fresh, found, limit) {
        Ok(()) => Ok(()),
        Err(stop) => Err(stop),
    }
}

/// One round: goes on from the points behind the first `done`.
fn round<W: Walk>(
    alloc: Global,
    walk: &W,
    found: &mut Found<W::Point>,
    done: usize,
    limit: Option<u32>,
) -> Result<(), Stop>
    requires level { Level (W.ways walk.now) found.old.points done }
    requires done { done ≤ length found.old.points }
    requires kept { IsKept (W.item_of walk.now) (W.number_of walk.now) limit found.old }
    requires latest { AreLatest (W.ways walk.now) found.old.points done }
    requires flags { AreFlags (W.ways walk.now) found.old.points done found.old.went.items }
    ensures kept { OnOk result (IsKept (W.item_of walk.now) (W.number_of walk.now) limit found.new) }
    ensures round { OnOk result (Round (W.ways walk.now) found.old.points (length found.old.points) found.new.points) }
    ensures flags { OnOk result (AreFlags (W.ways walk.now) found.new.points (length found.old.points) found.new.went.items) }
    ensures states { result ≡ Err States → HasMore (W.ways walk.now) (W.item_of walk.now) limit }
{
    let end = found.points.len();
    for at in done..end {
        match expand(alloc, walk, found, at, end, limit) {
            Ok(()) => {}
            Err(stop) => return Err(stop),
        }
    }
    Ok(())
}

/// The points to which paths come, from a start that is there.
fn spread<W: Walk>(
    alloc: Global,
    walk: &W,
    found: &mut Found<W::Point>,
    limit: Option<u32>,
) -> Result<(), Stop>
    requires level { Level (W.ways walk.now) found.old.points 0 }
    requires kept { IsKept (W.item_of walk.now) (W.number_of walk.now) limit found.old }
    requires latest { AreLatest (W.ways walk.now) found.old.points 0 }
    requires went { found.old.went.items ≡ [] }
    ensures kept { OnOk result (IsKept (W.item_of walk.now) (W.number_of walk.now) limit found.new) }
    ensures reach { OnOk result (IsReach (W.ways walk.now) found.new.points) }
    ensures flags { OnOk result (AreFlags (W.ways walk.now) found.new.points (length found.new.points) found.new.went.items) }
    ensures states { result ≡ Err States → HasMore (W.ways walk.now) (W.item_of walk.now) limit }
{
    let mut done = 0;
    while done < found.points.len() {
        let end = found.points.len();
        match round(alloc, walk, found, done, limit) {
            Ok(()) => {}
            Err(stop) => return Err(stop),
        }
        done = end;
    }
    Ok(())
}

/// All the points to which paths come.
pub(crate) fn reach<W: Walk>(
    alloc: Global,
    walk: &W,
    items: usize,
    limit: Option<u32>,
) -> Result<Found<W::Point>, Stop>
    ensures kept { IfOk result (IsKept (W.item_of walk.now) (W.number_of walk.now) limit) }
    ensures reach { IfOk result (λ found. IsReach (W.ways walk.now) found.points) }
    ensures flags { IfOk result (λ found. AreFlags (W.ways walk.now) found.points (length found.points) found.went.items) }
    ensures states { result ≡ Err States → HasMore (W.ways walk.now) (W.item_of walk.now) limit }
{
    let start = match walk.start(alloc) {
        Ok(start) => start,
        Err(_) => return Err(Stop::Memory),
    };
    let mut found = match begin(alloc, walk, start, items, limit) {
        Ok(found) => found,
        Err(_) => return Err(Stop::Memory),
    };
    match spread(alloc, walk, &mut found, limit) {
        Ok(()) => Ok(found),
        Err(stop) => Err(stop),
    }
}

/// Whether the rule is broken at this point: by itself, or with the first of its item.
fn is_bad<W: Walk>(walk: &W, points: &[W::Point], rows: &[Items<usize>], point: &W::Point) -> bool
    ensures { result ≡ is_bad (W.ways walk.now) (W.item_of walk.now) points.now rows.now point.now }
{
    if walk.breaks(point) {
        return true;
    }
    match row(rows, walk.item(point)).first() {
        None => false,
        Some(first) => match points.get(*first) {
            None => false,
            Some(first) => walk.splits(first, point),
        },
    }
}

/// The lowest item of the points where the rule is broken.
fn lowest<W: Walk>(walk: &W, points: &[W::Point], rows: &[Items<usize>]) -> Option<u32>
    ensures { result ≡ least_of (is_bad (W.ways walk.now) (W.item_of walk.now) points.now rows.now) (W.item_of walk.now) None points.now }
{
    let mut best: Option<u32> = None;
    for point in points {
        if is_bad(walk, points, rows, point) {
            best = Some(match best {
                None => walk.item(point),
                Some(other) => other.min(walk.item(point)),
            });
        }
    }
    best
}

/// The points to which paths come, each once, and the lowest item where the rule is broken.
/// `items`, the number of items that are expected, is asked for memory alone. Where there is a
/// limit, past so many points that are not the first of their item there is no answer.
pub fn search<W: Walk>(
    alloc: Global,
    walk: &W,
    items: usize,
    limit: Option<u32>,
) -> Result<(Items<W::Point>, Option<u32>), Stop>
    ensures reach { IfOk result (λ r. IsReach (W.ways walk.now) r.0) }
    ensures once { IfOk result (λ r. AreDistinct r.0) }
    ensures says { IfOk result (λ r. Says (W.ways walk.now) (W.item_of walk.now) r.1) }
    ensures states { result ≡ Err States → HasMore (W.ways walk.now) (W.item_of walk.now) limit }
{
    match reach(alloc, walk, items, limit) {
        Ok(found) => {
            let said = lowest(walk, found.points.as_slice(), &found.rows);
            Ok((found.into_points(), said))
        }
        Err(stop) => Err(stop),
    }
}
