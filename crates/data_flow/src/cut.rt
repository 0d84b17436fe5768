//! Paths that carry no more than what is needed.

ghost use Rattle.std.specs.Prelude.{◌≡◌, ◌++◌, map, OnOk};
ghost use Rattle.data_flow.specs.Flow.{changed, cut as cut_of, cut_to, cut_ways, lacks as lacks_of, land, moves_at, same_point};
ghost use Rattle.data_flow.specs.Numbers.{mixed, number_of, spread};

use crate::flow::{Change, Flow, Need, Point, Step};
use crate::names::{join, meet, same};
use crate::needed::need;
use path_search::Walk;
use sqlite_items::Items;
use std::alloc::{AllocError, Global};

/// The paths of a flow, each with no more than what is needed where it ends.
#[derive(Drop)]
pub(crate) struct Cut<'a> {
    pub(crate) flow: &'a Flow,
    pub(crate) needs: &'a [Need],
}

/// The path with no more than what is needed.
fn cut_down(needs: &[Need], point: Point) -> Point
    ensures { result ≡ cut_of needs.now point }
{
    let need = need(needs, point.item);
    Point {
        item: point.item,
        names: meet(point.names, need.names),
        count: point.count.min(need.count),
    }
}

/// What a step leaves of a count, where the node puts so much.
fn change(change: Change, puts: u32, count: u32) -> u32
    ensures { result ≡ changed change puts count }
{
    match change {
        Change::Keeps => count,
        Change::Spends => count.saturating_sub(puts),
        Change::Asks(n) => n,
    }
}

/// Where a step leads.
fn landed(puts: u32, from: Point, step: &Step) -> Point
    ensures { result ≡ land puts from step.now }
{
    Point {
        item: step.to,
        names: join(meet(from.names, step.keep), step.gain),
        count: change(step.change, puts, from.count),
    }
}

/// Adds where steps lead.
fn add(
    needs: &[Need],
    puts: u32,
    from: Point,
    steps: &[Step],
    to: &mut Items<Point>,
) -> Result<(), AllocError>
    ensures { OnOk result (to.new ≡ to.old ++ map (cut_of needs.now) (map (land puts from) steps.now)) }
{
    for step in steps {
        to.push(cut_down(needs, landed(puts, from, step)))?;
    }
    Ok(())
}

/// Adds where the steps of a node lead.
fn go_on(flow: &Flow, needs: &[Need], from: Point, to: &mut Items<Point>) -> Result<(), AllocError>
    ensures { OnOk result (to.new ≡ to.old ++ map (cut_of needs.now) (moves_at flow.now from)) }
{
    match flow.nodes.get(from.item as usize) {
        None => Ok(()),
        Some(node) => add(needs, node.puts, from, node.steps.as_slice(), to),
    }
}

/// Whether the path lacks a name that its node reads, or count that it puts.
fn lacks(flow: &Flow, point: Point) -> bool
    ensures { result ≡ lacks_of flow.now point }
{
    match flow.nodes.get(point.item as usize) {
        None => false,
        Some(node) => !same(meet(node.reads, point.names), node.reads) || point.count < node.puts,
    }
}

fn is_same(a: Point, b: Point) -> bool
    ensures { result ≡ same_point a b }
{
    a.item == b.item && same(a.names, b.names) && a.count == b.count
}

/// Brings the high bits of a product down.
fn spread(hash: u64) -> u64
    ensures { result ≡ spread hash }
{
    hash ^ (hash >> 29)
}

fn mixed(hash: u64, word: u128) -> u64
    ensures { result ≡ mixed hash word }
{
    let low = (word % (1 << 64)) as u64;
    let high = (word >> 64) as u64;
    spread((hash ^ low ^ high).wrapping_mul(0x9E37_79B9_7F4A_7C15))
}

fn number(point: Point) -> u64
    ensures { result ≡ number_of point }
{
    let names = point.names;
    let hash = (u64::from(point.item) << 32) ^ u64::from(point.count);
    let hash = mixed(mixed(hash, names.a), names.b);
    mixed(mixed(hash, names.c), names.d)
}

impl<'a> Walk for Cut<'a> {
    ghost use Rattle.data_flow.specs.Walks.{cut_by_item};

    type Point = Point;

    ghost ways = { λ s. cut_ways s.flow.now s.needs.now };

    ghost item_of = { λ s p. p.item };

    ghost number_of = { λ s. number_of };

    fn start(&self, _alloc: Global) -> Result<Point, AllocError> {
        let first = Point {
            item: self.flow.start,
            names: self.flow.first,
            count: 0,
        };
        Ok(cut_down(self.needs, first))
    }

    fn moves(&self, from: &Point, to: &mut Items<Point>) -> Result<(), AllocError> {
        go_on(self.flow, self.needs, *from, to)
    }

    fn breaks(&self, point: &Point) -> bool {
        lacks(self.flow, *point)
    }

    fn splits(&self, _a: &Point, _b: &Point) -> bool {
        false
    }

    fn is_apart(&self, _a: &Point, _b: &Point) -> bool {
        false
    }

    fn may_end(&self) -> bool {
        false
    }

    fn is_same(&self, a: &Point, b: &Point) -> bool {
        is_same(*a, *b)
    }

    fn item(&self, point: &Point) -> u32 {
        point.item
    }

    fn number(&self, point: &Point) -> u64 {
        number(*point)
    }

    ghost by_item = { λ s. cut_by_item s.flow.now s.needs.now };
}
