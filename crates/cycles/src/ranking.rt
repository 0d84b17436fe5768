//! Whether every edge leads down in an order: then there is no cycle.

ghost use Rattle.std.specs.Prelude.{◌≡◌, IsTrue, nat_le, slice_index};
ghost use Rattle.std.specs.List.{list_any};
ghost use Rattle.cycles.specs.Cycles.{IsRanked};

use sqlite_items::Items;
use std::alloc::{AllocError, Global};

/// The place of each node in an order.
pub(crate) fn ranks(
    alloc: Global,
    order: &[usize],
    nodes: usize,
) -> Result<Vec<usize>, AllocError> {
    let mut ranks = vec![in alloc; 0usize; nodes]?;
    for (rank, node) in order.iter().enumerate() {
        if *node < ranks.len() {
            ranks[*node] = rank;
        }
    }
    Ok(ranks)
}

fn rank_of(ranks: &[usize], node: usize) -> usize
    ensures { result ≡ slice_index ranks.now node }
{
    match ranks.get(node) {
        None => 0,
        Some(rank) => *rank,
    }
}

/// Whether one of these nodes is not below a rank.
fn is_any_high(ranks: &[usize], nodes: &[u32], rank: usize) -> bool
    ensures { result ≡ list_any (λ m. nat_le rank (slice_index ranks.now m)) nodes.now }
{
    nodes
        .iter()
        .any(|node| rank_of(ranks, *node as usize) >= rank)
}

/// Whether each node leads to nodes of lower rank.
pub(crate) fn is_ranked(next: &[Items<u32>], ranks: &[usize]) -> bool
    ensures { IsTrue result → IsRanked next.now ranks.now }
{
    for node in 0..next.len() {
        if is_any_high(ranks, next[node].as_slice(), rank_of(ranks, node)) {
            return false;
        }
    }
    true
}
