//! Bits go against the edges until nothing is new. A node whose word grew is pending: the nodes
//! that lead to it are looked at again. So each bit goes over each edge at most once, in whatever
//! order the nodes stand.

ghost use Rattle.std.specs.Prelude.{◌≡◌, ℕ, ◌+◌, ◌*◌, ◌<◌, ◌≤◌, length, OnOk, IfOk, slice_index};
ghost use Rattle.std.specs.List.{All, Contains};
ghost use Rattle.liveness.specs.Backward.{IsBackward, Adds};
ghost use Rattle.liveness.specs.Settling.{Spread, Settled, spare};

use sqlite_items::Items;
use std::alloc::{AllocError, Global};

/// Notes that this node leads to these ones.
fn note(prev: &mut [Items<usize>], node: usize, next: &[u32]) -> Result<(), AllocError>
    requires { All (λ m. m < length prev.old) next.now }
    ensures { OnOk result (Adds node next.now prev.old prev.new) }
{
    for target in next {
        prev[*target as usize].push(node)?;
    }
    Ok(())
}

/// For each node the nodes that lead to it.
pub(crate) fn backward(alloc: Global, next: &[Items<u32>]) -> Result<Vec<Items<usize>>, AllocError>
    requires { All (All (λ m. m < length next.now)) next.now }
    ensures { IfOk result (λ v. IsBackward next.now v.items) }
{
    let mut prev = Vec::new(alloc);
    for _ in 0..next.len() {
        prev.push(Items::new(alloc))?;
    }
    for node in 0..next.len() {
        note(&mut prev, node, next[node].as_slice())?;
    }
    Ok(prev)
}

/// Gives the names of `word` to each of the nodes that does not write them.
fn spread(
    from: &[usize],
    word: u64,
    writes: &[u64],
    column: &mut [u64],
    pending: &mut Vec<usize>,
) -> Result<(), AllocError>
    requires from { All (λ a. a < length column.old) from.now }
    requires writes { length writes.now ≡ length column.old }
    ensures { OnOk result (Spread from.now word writes.now column.old pending.old.items column.new pending.new.items) }
{
    for node in from {
        let old = column[*node];
        let new = old | (word & !writes[*node]);
        if new != old {
            column[*node] = new;
            pending.push(*node)?;
        }
    }
    Ok(())
}

/// Takes each name back from where it is used, over the nodes that do not write it.
pub(crate) fn settle(
    alloc: Global,
    prev: &[Items<usize>],
    writes: &[u64],
    column: &mut [u64],
) -> Result<(), AllocError>
    requires prev { length prev.now ≡ length column.old }
    requires nodes { All (All (λ a. a < length column.old)) prev.now }
    requires writes { length writes.now ≡ length column.old }
    ensures { OnOk result (Settled prev.now writes.now column.old column.new) }
{
    let mut pending = Vec::new(alloc);
    for node in 0..column.len() {
        pending.push(node)?;
    }
    while let Some(node) = pending.pop() {
        spread(
            prev[node].as_slice(),
            column[node],
            writes,
            column,
            &mut pending,
        )?;
    }
    Ok(())
}
