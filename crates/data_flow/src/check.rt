ghost use Rattle.std.specs.Prelude.{◌≡◌, IfOk, Err, Some};
ghost use Rattle.paths.specs.Rules.{Holds, Says};
ghost use Rattle.path_search.specs.Found.{HasMore};
ghost use Rattle.path_search.specs.declared.rounds.Stop.TheVariants.{States};
ghost use Rattle.data_flow.specs.Flow.{IsFlow, flow_ways, item_of};

use crate::cut::Cut;
use crate::flow::Flow;
use crate::needed::needed;
use path_search::{Stop, search};
use std::alloc::Global;

/// The lowest node where some path lacks a name that the node reads, or count that it puts. Past
/// `limit` points that are not the first of their node there may be no answer; then some path lacks
/// something. `order` may name nodes to look at first, in this order: where their steps lead to
/// earlier ones in it, one look at each is enough to see what is needed.
pub fn first_lack(
    alloc: Global,
    flow: &Flow,
    order: &[usize],
    limit: u32,
) -> Result<Option<u32>, Stop>
    requires { IsFlow flow.now }
    ensures says { IfOk result (λ said. Says (flow_ways flow.now) item_of said) }
    ensures more { result ≡ Err States → HasMore (flow_ways flow.now) item_of (Some limit) }
    ensures states { result ≡ Err States → Holds (flow_ways flow.now) → ⊥ }
{
    let needs = match needed(alloc, flow, order) {
        Ok(needs) => needs,
        Err(_) => return Err(Stop::Memory),
    };
    let walk = Cut {
        flow,
        needs: &needs,
    };
    match search(alloc, &walk, flow.nodes.len(), Some(limit)) {
        Ok((_, said)) => Ok(said),
        Err(stop) => Err(stop),
    }
}
