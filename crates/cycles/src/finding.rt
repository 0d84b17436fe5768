ghost use Rattle.std.specs.Prelude.{◌≡◌, ℕ, ◌<◌, ◌^◌, length, IfOk};
ghost use Rattle.std.specs.List.{list_any};
ghost use Rattle.liveness.specs.Rows.{AreRowsOf, is_live};
ghost use Rattle.cycles.specs.Cycles.{AreWithin, IsLowest, OnCycle};
ghost use Rattle.cycles.specs.Marked.{AreNone, AreOwn, IsMarked};

use crate::ranking::{is_ranked, ranks};
use liveness::{Graph, Rows, live};
use sqlite_items::Items;
use std::alloc::{AllocError, Global};

/// For each node its own number.
fn owns(alloc: Global, nodes: u32) -> Result<Items<Items<u32>>, AllocError>
    ensures { IfOk result (AreOwn nodes) }
{
    let mut all = Items::new(alloc);
    for node in 0..nodes {
        let mut own = Items::new(alloc);
        own.push(node)?;
        all.push(own)?;
    }
    Ok(all)
}

/// Nothing for each node.
fn nones(alloc: Global, nodes: u32) -> Result<Items<Items<u32>>, AllocError>
    ensures { IfOk result (AreNone nodes) }
{
    let mut all = Items::new(alloc);
    for node in 0..nodes {
        let _ = node;
        let none = Items::new(alloc);
        all.push(none)?;
    }
    Ok(all)
}

/// The graph in which each node uses its own number.
fn marked(alloc: Global, next: Items<Items<u32>>) -> Result<Graph, AllocError>
    requires { length next < 2 ^ 32 }
    ensures { IfOk result (IsMarked next) }
{
    let names = next.len() as u32;
    let uses = owns(alloc, names)?;
    let writes = nones(alloc, names)?;
    Ok(Graph {
        names,
        next,
        uses,
        writes,
    })
}

/// Whether one of these nodes leads to the node.
fn leads_back(rows: &Rows, nodes: &[u32], node: u32) -> bool
    ensures { result ≡ list_any (λ m. is_live rows.now m node) nodes.now }
{
    nodes.iter().any(|from| rows.at(*from, node))
}

/// The lowest node from which a way leads back to it, by what is live.
fn lowest_back(graph: &Graph, rows: &Rows) -> Option<u32>
    requires graph { IsMarked graph.now.next graph.now }
    requires within { AreWithin graph.now.next }
    requires rows { AreRowsOf graph.now rows.now }
    ensures { IsLowest graph.now.next result }
{
    let next = graph.next.as_slice();
    for node in 0..graph.names {
        if leads_back(rows, next[node as usize].as_slice(), node) {
            return Some(node);
        }
    }
    None
}

/// The lowest node on a cycle. Where nodes lead to earlier ones in the order alone, one look at
/// each edge shows that there is none. There is no memory for what is live where in a graph of 2^32
/// nodes or more.
pub fn lowest(
    alloc: Global,
    next: Items<Items<u32>>,
    order: &[usize],
) -> Result<Option<u32>, AllocError>
    requires { AreWithin next }
    ensures { IfOk result (IsLowest next) }
{
    let ranks = ranks(alloc, order, next.len())?;
    if is_ranked(next.as_slice(), &ranks) {
        return Ok(None);
    }
    if next.len() > u32::MAX as usize {
        return Err(AllocError);
    }
    let graph = marked(alloc, next)?;
    let rows = live(alloc, &graph)?;
    Ok(lowest_back(&graph, &rows))
}
