//! The nodes of a graph, depth first: each behind those to which it leads.

use sqlite_items::Items;
use std::alloc::{AllocError, Global};

/// What is still to be done with a node.
#[derive(Clone, Copy)]
enum Visit {
    /// Look at what it leads to, if that was not done.
    Enter(usize),
    /// What it leads to was looked at.
    Leave(usize),
}

/// A walk through a graph.
#[derive(Drop)]
struct Walker {
    entered: Vec<bool>,
    pending: Vec<Visit>,
    order: Items<usize>,
}

/// Notes a node, and tells whether it was not noted before.
fn is_first(entered: &mut [bool], node: usize) -> bool {
    if node < entered.len() && !entered[node] {
        entered[node] = true;
        true
    } else {
        false
    }
}

/// Puts these nodes before those that are pending.
fn put_first(pending: &mut Vec<Visit>, nodes: &[u32]) -> Result<(), AllocError> {
    for node in nodes {
        pending.push(Visit::Enter(*node as usize))?;
    }
    Ok(())
}

impl Walker {
    fn new(alloc: Global, nodes: usize) -> Result<Walker, AllocError> {
        Ok(Walker {
            entered: vec![in alloc; false; nodes]?,
            pending: Vec::new(alloc),
            order: Items::new(alloc),
        })
    }

    fn into_order(self) -> Items<usize> {
        let Walker { order, .. } = self;
        order
    }

    fn enter(&mut self, next: &[Items<u32>], node: usize) -> Result<(), AllocError> {
        if !is_first(&mut self.entered, node) {
            return Ok(());
        }
        self.pending.push(Visit::Leave(node))?;
        match next.get(node) {
            None => Ok(()),
            Some(nodes) => put_first(&mut self.pending, nodes.as_slice()),
        }
    }

    /// Does what is pending, until nothing is.
    fn go_on(&mut self, next: &[Items<u32>]) -> Result<(), AllocError> {
        for _ in 0..u64::MAX {
            match self.pending.pop() {
                None => break,
                Some(Visit::Leave(node)) => self.order.push(node)?,
                Some(Visit::Enter(node)) => self.enter(next, node)?,
            }
        }
        Ok(())
    }
}

/// The nodes in an order in which each stands behind all those to which it leads, but for edges
/// that close a cycle.
pub fn order(alloc: Global, next: &[Items<u32>]) -> Result<Items<usize>, AllocError> {
    let mut walker = Walker::new(alloc, next.len())?;
    for node in 0..next.len() {
        walker.pending.push(Visit::Enter(node))?;
        walker.go_on(next)?;
    }
    Ok(walker.into_order())
}
