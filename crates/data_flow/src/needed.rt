//! What is needed behind each node, backward along the steps until nothing is new. A node whose
//! need grew is pending: the nodes that lead to it are looked at again.

ghost use Rattle.std.specs.Prelude.{◌≡◌, ◌<◌, ◌^◌, [], ◌∷◌, length, OnOk, IfOk, Some, slice_get, replicate};
ghost use Rattle.data_flow.specs.Names.{AreNames};
ghost use Rattle.data_flow.specs.Flow.{IsFlow, need_at, nothing};
ghost use Rattle.path_search.specs.Found.{row_of};
ghost use Rattle.data_flow.specs.Rows.{both as both_of, ahead_from, before as before_of, count_before, same_need, looked, AreNeeded, FirstLooks, IsBackwardOf, IsClosed, IsSettling, Notes, Spreads, Visits};

use crate::flow::{Change, Flow, Need, Node, Step};
use crate::names::{Names, join, meet, same};
use sqlite_items::Items;
use std::alloc::{AllocError, Global};

/// No names, and no count.
const NOTHING: Need = Need {
    names: Names::NONE,
    count: 0,
};

/// The need of a node, of a list with one for each.
pub(crate) fn need(needs: &[Need], node: u32) -> Need
    ensures { result ≡ need_at needs.now node }
{
    match needs.get(node as usize) {
        Some(need) => *need,
        None => NOTHING,
    }
}

fn both(m: Need, n: Need) -> Need
    ensures { result ≡ both_of m n }
{
    Need {
        names: join(m.names, n.names),
        count: m.count.max(n.count),
    }
}

fn is_same(m: Need, n: Need) -> bool
    ensures is { result ≡ same_need m n }
    ensures names { AreNames m.names }
    ensures count { m.count < 2 ^ 32 }
{
    same(m.names, n.names) && m.count == n.count
}

/// The count that is needed before a step, where this one is needed behind it.
fn count(bound: u32, puts: u32, change: Change, behind: u32) -> u32
    ensures { result ≡ count_before bound puts change behind }
{
    match change {
        Change::Keeps => bound.min(behind),
        Change::Spends => bound.min(puts.saturating_add(behind)),
        Change::Asks(_) => 0,
    }
}

/// What is needed at a node for one of its steps.
fn before(bound: u32, puts: u32, needs: &[Need], step: &Step) -> Need
    ensures { result ≡ before_of bound puts needs.now step.now }
{
    let behind = need(needs, step.to);
    Need {
        names: meet(behind.names, step.keep),
        count: count(bound, puts, step.change, behind.count),
    }
}

/// These needs, and those of the steps.
fn ahead(bound: u32, puts: u32, needs: &[Need], first: Need, steps: &[Step]) -> Need
    ensures { result ≡ ahead_from bound puts needs.now first steps.now }
{
    let mut all = first;
    for step in steps {
        all = both(all, before(bound, puts, needs, step));
    }
    all
}

/// What one look at a node finds.
fn look(flow: &Flow, needs: &[Need], at: usize, node: &Node) -> Need
    requires { slice_get flow.now.nodes at ≡ Some node.now }
    ensures { result ≡ looked flow.now needs.now at }
{
    let own = Need {
        names: node.reads,
        count: flow.bound.min(node.puts),
    };
    let here = match needs.get(at) {
        Some(need) => *need,
        None => NOTHING,
    };
    ahead(
        flow.bound,
        node.puts,
        needs,
        both(here, own),
        node.steps.as_slice(),
    )
}

/// Looks at a node: where its need grows, it is pending.
fn visit(
    flow: &Flow,
    at: usize,
    needs: &mut [Need],
    pending: &mut Vec<usize>,
) -> Result<(), AllocError>
    requires { length needs.old ≡ length flow.now.nodes }
    ensures { OnOk result (Visits flow.now at needs.old pending.old.items needs.new pending.new.items) }
{
    let node = match flow.nodes.get(at) {
        Some(node) => node,
        None => return Ok(()),
    };
    let new = look(flow, needs, at, node);
    if !is_same(new, needs[at]) {
        needs[at] = new;
        pending.push(at)?;
    }
    Ok(())
}

/// Looks at these nodes, one after the other.
fn spread(
    flow: &Flow,
    nodes: &[usize],
    needs: &mut [Need],
    pending: &mut Vec<usize>,
) -> Result<(), AllocError>
    requires { length needs.old ≡ length flow.now.nodes }
    ensures { OnOk result (Spreads flow.now nodes.now needs.old pending.old.items needs.new pending.new.items) }
{
    for at in nodes {
        visit(flow, *at, needs, pending)?;
    }
    Ok(())
}

/// Looks at each node, from the last to the first.
fn look_at_all(flow: &Flow, needs: &mut [Need], pending: &mut Vec<usize>) -> Result<(), AllocError>
    requires flow { IsFlow flow.now }
    requires first { FirstLooks flow.now needs.old pending.old.items 0 }
    ensures { OnOk result (IsSettling flow.now needs.new pending.new.items) }
{
    let count = flow.nodes.len();
    for i in 0..count {
        visit(flow, count - 1 - i, needs, pending)?;
    }
    Ok(())
}

/// Looks at what leads to a pending node, until nothing is pending.
fn settle(
    flow: &Flow,
    prev: &[Items<usize>],
    needs: &mut [Need],
    pending: &mut Vec<usize>,
) -> Result<(), AllocError>
    requires flow { IsFlow flow.now }
    requires prev { IsBackwardOf flow.now.nodes prev.now }
    requires settling { IsSettling flow.now needs.old pending.old.items }
    ensures { OnOk result (IsSettling flow.now needs.new []) }
{
    while let Some(at) = pending.pop() {
        spread(flow, row(prev, at), needs, pending)?;
    }
    Ok(())
}

/// The nodes that lead to a node.
fn row(prev: &[Items<usize>], at: usize) -> &[usize]
    ensures { result.now ≡ row_of prev.now at }
{
    match prev.get(at) {
        Some(row) => row.as_slice(),
        None => &[],
    }
}

/// Notes that this node leads to that one, if that is a node.
fn note_one(prev: &mut [Items<usize>], node: usize, step: &Step) -> Result<(), AllocError>
    ensures { OnOk result (Notes node (step.now ∷ []) prev.old prev.new) }
{
    let to = step.to as usize;
    if to >= prev.len() {
        return Ok(());
    }
    prev[to].push(node)?;
    Ok(())
}

/// Notes that this node leads to these ones.
fn note(prev: &mut [Items<usize>], node: usize, steps: &[Step]) -> Result<(), AllocError>
    ensures { OnOk result (Notes node steps.now prev.old prev.new) }
{
    for step in steps {
        note_one(prev, node, step)?;
    }
    Ok(())
}

/// Notes of each node where its steps lead.
fn note_all(prev: &mut [Items<usize>], nodes: &[Node]) -> Result<(), AllocError>
    requires { length prev.old ≡ length nodes.now }
    ensures { OnOk result (IsBackwardOf nodes.now prev.new) }
{
    for at in 0..nodes.len() {
        note(prev, at, nodes[at].steps.as_slice())?;
    }
    Ok(())
}

/// For each node the nodes that lead to it.
fn backward(alloc: Global, nodes: &[Node]) -> Result<Vec<Items<usize>>, AllocError>
    ensures { IfOk result (λ v. IsBackwardOf nodes.now v.items) }
{
    let mut prev = Vec::new(alloc);
    for _ in 0..nodes.len() {
        prev.push(Items::new(alloc))?;
    }
    note_all(&mut prev, nodes)?;
    Ok(prev)
}

/// Finds what is needed, from nothing.
fn find(alloc: Global, flow: &Flow, order: &[usize], needs: &mut [Need]) -> Result<(), AllocError>
    requires flow { IsFlow flow.now }
    requires nothing { needs.old ≡ replicate (length flow.now.nodes) nothing }
    ensures closed { OnOk result (IsClosed flow.now needs.new) }
    ensures needed { OnOk result (AreNeeded flow.now needs.new) }
{
    let prev = backward(alloc, flow.nodes.as_slice())?;
    let mut pending = Vec::new(alloc);
    spread(flow, order, needs, &mut pending)?;
    look_at_all(flow, needs, &mut pending)?;
    settle(flow, &prev, needs, &mut pending)
}

/// What is needed behind each node. `order` may name nodes to look at first, in this order: where
/// their steps lead to earlier ones in it, one look at each is enough.
pub(crate) fn needed(alloc: Global, flow: &Flow, order: &[usize]) -> Result<Vec<Need>, AllocError>
    requires { IsFlow flow.now }
    ensures closed { IfOk result (λ needs. IsClosed flow.now needs.items) }
    ensures needed { IfOk result (λ needs. AreNeeded flow.now needs.items) }
{
    let mut needs = vec![in alloc; NOTHING; flow.nodes.len()]?;
    find(alloc, flow, order, &mut needs)?;
    Ok(needs)
}
