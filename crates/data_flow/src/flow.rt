use crate::names::Names;
use sqlite_items::Items;

/// What a step does to the count of a path.
#[derive(Clone, Copy)]
pub enum Change {
    /// The count stays.
    Keeps,
    /// The node spends of it what it puts.
    Spends,
    /// The count begins anew with this number.
    Asks(u32),
}

/// A way on from a node: which of a path's names it keeps and which it adds, and what it does to
/// the path's count.
#[derive(Clone, Copy)]
pub struct Step {
    pub to: u32,
    pub keep: Names,
    pub gain: Names,
    pub change: Change,
}

/// What a node asks of a path that comes to it, the names that it reads and the count that it
/// puts, and its ways on.
#[derive(Drop)]
pub struct Node {
    pub reads: Names,
    pub puts: u32,
    pub steps: Items<Step>,
}

/// Nodes by number, and where paths begin, with which names and no count. No step begins a count
/// past `bound`.
#[derive(Drop)]
pub struct Flow {
    pub nodes: Items<Node>,
    pub start: u32,
    pub first: Names,
    pub bound: u32,
}

/// A node, and what a path that ends there has.
#[derive(Clone, Copy)]
pub struct Point {
    pub item: u32,
    pub names: Names,
    pub count: u32,
}

/// What is still needed at a node and behind it: names, and a count of at most the bound.
#[derive(Clone, Copy)]
pub struct Need {
    pub names: Names,
    pub count: u32,
}
