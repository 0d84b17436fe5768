ghost use Rattle.std.specs.Prelude.{◌≡◌, ℕ, ◌+◌, ◌*◌, ◌/◌, ◌%◌, ◌<◌, ◌↔◌, length, slice_get, IfOk, IsTrue};
ghost use Rattle.liveness.specs.Live.{IsGraph};
ghost use Rattle.liveness.specs.Backward.{IsBackward};
ghost use Rattle.liveness.specs.Whole.{passes};
ghost use Rattle.liveness.specs.Rows.{IsColumn, AreRowsOf, is_live};

use crate::below::are_below;
use crate::settling::{backward, settle};
use crate::words::words;
use sqlite_items::Items;
use std::alloc::{AllocError, Global};

/// Nodes from 0 on, one entry a node in each list: the nodes that it may lead to, the names that
/// it uses and then the names that it writes. Nodes are below the number of nodes, names below
/// `names`.
#[derive(Drop)]
pub struct Graph {
    pub names: u32,
    pub next: Items<Items<u32>>,
    pub uses: Items<Items<u32>>,
    pub writes: Items<Items<u32>>,
}

/// Which names are live where: for each 64 names a column with one word a node.
#[derive(Drop)]
pub struct Rows {
    columns: Items<Items<u64>>,
}

impl Graph {
    /// Whether the lists are of one length, and have nodes and names of the graph.
    pub fn is_whole(&self) -> bool
        ensures { IsTrue result ↔ IsGraph self.now }
    {
        self.passes()
    }

    fn passes(&self) -> bool
        ensures { result ≡ passes self.now }
    {
        let nodes = self.next.len();
        let names = self.names as usize;
        self.uses.len() == nodes
            && self.writes.len() == nodes
            && are_below(self.next.as_slice(), nodes)
            && are_below(self.uses.as_slice(), names)
            && are_below(self.writes.as_slice(), names)
    }
}

/// The words of the names `first..first + 64`.
fn column(
    alloc: Global,
    graph: &Graph,
    prev: &[Items<usize>],
    first: u32,
) -> Result<Items<u64>, AllocError>
    requires graph { IsGraph graph.now }
    requires prev { IsBackward graph.now.next prev.now }
    ensures { IfOk result (IsColumn graph.now first) }
{
    let writes = words(alloc, graph.writes.as_slice(), first)?;
    let mut column = words(alloc, graph.uses.as_slice(), first)?;
    settle(alloc, prev, &writes, &mut column)?;
    Ok(Items::from_vec(column))
}

/// What is live where.
pub fn live(alloc: Global, graph: &Graph) -> Result<Rows, AllocError>
    requires { IsGraph graph.now }
    ensures { IfOk result (AreRowsOf graph.now) }
{
    let prev = backward(alloc, graph.next.as_slice())?;
    let mut columns = Items::new(alloc);
    for block in 0..graph.names.div_ceil(64) {
        let column = column(alloc, graph, &prev, block * 64)?;
        columns.push(column)?;
    }
    Ok(Rows { columns })
}

impl Rows {
    /// Whether the name is live at the node.
    pub fn at(&self, node: u32, name: u32) -> bool
        ensures { result ≡ is_live self.now node name }
    {
        match self.columns.get((name / 64) as usize) {
            None => false,
            Some(column) => match column.get(node as usize) {
                None => false,
                Some(word) => (*word >> (name % 64)) & 1 == 1,
            },
        }
    }
}
