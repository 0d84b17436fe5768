ghost use Rattle.std.specs.Prelude.{IfOk};
ghost use Rattle.path_rules.specs.Rules.{SaysLoop};
ghost use Rattle.path_rules.specs.Sites.{AreSites, placed_in};

use beam_code::{Function, Module};
use cycles::{lowest, order};
use path_rules::{FramePaths, Rule, Sites};
use path_search::steps;
use sqlite_items::Items;
use std::alloc::{AllocError, Global};

/// What the moves of paths come to: the lowest item on a cycle, if one is, and the items in an
/// order in which each stands behind those to which paths go on from it, but for cycles.
#[derive(Drop)]
pub struct Loops {
    pub lowest: Option<u32>,
    pub order: Items<usize>,
}

/// The lowest item of a function that lies on a cycle of the moves that its paths make.
pub fn find_loops(
    alloc: Global,
    modules: &[Module],
    owner: &Module,
    function: &Function,
    sites: &Sites,
) -> Result<Loops, AllocError>
    requires { AreSites modules.now (placed_in owner.now function.now) sites.now }
    ensures { IfOk result (λ l. SaysLoop modules.now (placed_in owner.now function.now) l.lowest) }
{
    let paths = FramePaths::new(alloc, modules, owner, function, sites, Rule::Loop);
    let next = steps(alloc, &paths, function.items.len())?;
    let order = order(alloc, next.as_slice())?;
    let lowest = lowest(alloc, next, order.as_slice())?;
    Ok(Loops { lowest, order })
}
