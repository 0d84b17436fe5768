ghost use Rattle.std.specs.Prelude.{◌≡◌, ◌<◌, ◌%◌, ◌+◌, ◌++◌, [], ◌∷◌, ◌↔◌, length, IsTrue, OnOk, IfOk, Err, Ok, Some, None, ℕ, slice_get, slice_index, slice_set, if◌then◌else◌, false, true, ◌≤◌};
ghost use Rattle.std.specs.List.{Contains};
ghost use Rattle.path_search.specs.Found.{Adds, Crowds, IsListed, Widens, has_item, row_of};
ghost use Rattle.path_search.specs.Kept.{IsEmpty, IsKept, IsChained, Pushes, bucket_in};
ghost use Rattle.path_search.specs.declared.rounds.Stop.TheVariants.{States};

use crate::rounds::Stop;
use crate::walk::Walk;
use sqlite_items::Items;
use std::alloc::{AllocError, Global};

/// The points that were found, in order, each once; for each item the places of its points in that
/// order; and from which of the first points paths go on. To look a point up: its bucket by its
/// number has the place of the last point that went there, and each has that of the one before,
/// counted from 1.
#[derive(Drop)]
pub(crate) struct Found<P> {
    pub(crate) points: Items<P>,
    pub(crate) rows: Vec<Items<usize>>,
    pub(crate) went: Vec<bool>,
    older: Vec<usize>,
    buckets: Vec<usize>,
    seconds: u32,
}

/// The places of the points of an item.
pub(crate) fn row(rows: &[Items<usize>], item: u32) -> &[usize]
    ensures { result.now ≡ row_of rows.now item }
{
    match rows.get(item as usize) {
        Some(row) => row.as_slice(),
        None => &[],
    }
}

/// Whether the new point is at this place.
fn is_at<W: Walk>(walk: &W, points: &[W::Point], at: usize, new: &W::Point) -> bool
    ensures { IsTrue result ↔ (slice_get points.now at ≡ Some new.now) }
{
    match points.get(at) {
        None => false,
        Some(there) => walk.is_same(there, new),
    }
}

/// Whether the point is there: goes through its bucket, the last place first.
fn is_known<W: Walk>(walk: &W, found: &Found<W::Point>, new: &W::Point) -> bool
    requires some { 0 < length found.now.buckets.items }
    requires chained { IsChained (bucket_in (W.number_of walk.now) found.now.buckets.items) found.now.points found.now.older.items found.now.buckets.items }
    ensures { IsTrue result ↔ Contains found.now.points new.now }
{
    let mut at = found.buckets[bucket_of(&found.buckets, walk.number(new))];
    while at > 0 {
        if is_at(walk, found.points.as_slice(), at - 1, new) {
            return true;
        }
        at = found.older[at - 1];
    }
    false
}

/// The bucket of a number.
fn bucket_of(buckets: &[usize], number: u64) -> usize
    requires { 0 < length buckets.now }
    ensures { result ≡ number % length buckets.now }
{
    (number % buckets.len() as u64) as usize
}

/// Whether a point of this item is there.
fn has_item<W: Walk>(walk: &W, found: &Found<W::Point>, item: u32) -> bool
    requires { IsListed (W.item_of walk.now) found.now.points found.now.rows.items }
    ensures { result ≡ has_item (W.item_of walk.now) item found.now.points }
{
    let _ = walk;
    row(&found.rows, item).len() > 0
}

/// So many points that are not the first of their item, and this one if it is none. Past the limit
/// it stops.
fn counted(seconds: u32, second: bool, limit: Option<u32>) -> Result<u32, Stop>
    ensures counted { IfOk result (λ n. (most : ℕ) → limit ≡ Some most → n ≡ (if second then 1 else 0) + seconds) }
    ensures states { result ≡ Err States → (second ≡ true) × (most : ℕ) × (limit ≡ Some most) × (most ≤ seconds) }
{
    if !second {
        return Ok(seconds);
    }
    match limit {
        None => Ok(seconds),
        Some(most) => {
            if seconds < most {
                Ok(seconds + 1)
            } else {
                Err(Stop::States)
            }
        }
    }
}

impl<P: Drop> Found<P> {
    /// No points, and at least so many buckets.
    fn new(alloc: Global, buckets: usize) -> Result<Found<P>, AllocError>
        ensures { IfOk result (λ found. IsEmpty found) }
    {
        Ok(Found {
            points: Items::new(alloc),
            rows: Vec::new(alloc),
            went: Vec::new(alloc),
            older: Vec::new(alloc),
            buckets: vec![in alloc; 0usize; buckets.max(1024)]?,
            seconds: 0,
        })
    }

    pub(crate) fn into_points(self) -> Items<P>
        ensures { result ≡ self.points }
    {
        let Found { points, .. } = self;
        points
    }
}

/// The list with empty rows behind it, up to that of this item.
pub(crate) fn widen<T: Drop>(
    alloc: Global,
    rows: &mut Vec<Items<T>>,
    item: usize,
) -> Result<(), AllocError>
    ensures { OnOk result (Widens item rows.old.items rows.new.items) }
{
    while rows.len() <= item {
        rows.push(Items::new(alloc))?;
    }
    Ok(())
}

/// Adds a place to a row that is there.
fn note(rows: &mut [Items<usize>], item: usize, at: usize) -> Result<(), AllocError>
    requires { item < length rows.old }
    ensures { OnOk result (rows.new ≡ slice_set rows.old item (row_of rows.old item ++ at ∷ [])) }
{
    rows[item].push(at)
}

/// Puts this place to the front of a bucket, and tells the one that was there.
fn link(buckets: &mut [usize], bucket: usize, place: usize) -> usize
    requires { bucket < length buckets.old }
    ensures old { result ≡ slice_index buckets.old bucket }
    ensures new { buckets.new ≡ slice_set buckets.old bucket place }
{
    let before = buckets[bucket];
    buckets[bucket] = place;
    before
}

impl<P: Drop> Found<P> {
    /// Adds a point of this item and bucket, where so many are then not the first of their item.
    fn push(
        &mut self,
        alloc: Global,
        new: P,
        item: usize,
        bucket: usize,
        seconds: u32,
    ) -> Result<(), AllocError>
        requires { bucket < length self.old.buckets.items }
        ensures { OnOk result (Pushes item bucket seconds new self.old self.new) }
    {
        let at = self.points.len();
        let place = match at.checked_add(1) {
            Some(place) => place,
            None => return Err(AllocError),
        };
        self.older.push(link(&mut self.buckets, bucket, place))?;
        widen(alloc, &mut self.rows, item)?;
        note(&mut self.rows, item, at)?;
        self.seconds = seconds;
        self.points.push(new)
    }
}

/// Adds a point if it is not there. Past so many points that are not the first of their item it
/// stops.
pub(crate) fn add<W: Walk>(
    alloc: Global,
    walk: &W,
    found: &mut Found<W::Point>,
    new: W::Point,
    limit: Option<u32>,
) -> Result<(), Stop>
    requires { IsKept (W.item_of walk.now) (W.number_of walk.now) limit found.old }
    ensures kept { OnOk result (IsKept (W.item_of walk.now) (W.number_of walk.now) limit found.new) }
    ensures adds { OnOk result (Adds found.old.points new found.new.points) }
    ensures went { OnOk result (found.new.went.items ≡ found.old.went.items) }
    ensures states { result ≡ Err States → Crowds (W.item_of walk.now) limit found.old.points (new ∷ []) }
{
    if is_known(walk, found, &new) {
        return Ok(());
    }
    let item = walk.item(&new);
    let second = has_item(walk, found, item);
    let seconds = match counted(found.seconds, second, limit) {
        Ok(seconds) => seconds,
        Err(stop) => return Err(stop),
    };
    let bucket = bucket_of(&found.buckets, walk.number(&new));
    match found.push(alloc, new, item as usize, bucket, seconds) {
        Ok(()) => Ok(()),
        Err(_) => Err(Stop::Memory),
    }
}

/// So many buckets serve a search among so many items, with so many further points at most.
fn buckets_for(items: usize, limit: Option<u32>) -> usize {
    match limit {
        None => items,
        Some(most) => items.max((most as usize / 8).min(1 << 16)),
    }
}

/// The start alone.
pub(crate) fn begin<W: Walk>(
    alloc: Global,
    walk: &W,
    start: W::Point,
    items: usize,
    limit: Option<u32>,
) -> Result<Found<W::Point>, AllocError>
    ensures kept { IfOk result (IsKept (W.item_of walk.now) (W.number_of walk.now) limit) }
    ensures points { IfOk result (λ found. found.points ≡ start ∷ []) }
    ensures went { IfOk result (λ found. found.went.items ≡ []) }
{
    let item = walk.item(&start) as usize;
    let mut found = Found::new(alloc, buckets_for(items, limit))?;
    let bucket = bucket_of(&found.buckets, walk.number(&start));
    found.push(alloc, start, item, bucket, 0)?;
    Ok(found)
}
