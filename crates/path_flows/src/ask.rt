// The two rules, asked by the flow of a function.

ghost use Rattle.std.specs.Prelude.{◌≡◌, ◌<◌, ◌≤◌, ◌^◌, Err, IfOk, true, false, length};
ghost use Rattle.paths.specs.Rules.{Holds, Says};
ghost use Rattle.path_search.specs.declared.rounds.Stop.TheVariants.{States};
ghost use Rattle.path_rules.specs.declared.limits.TheConstants.{MOST_FUNCTION_UNITS};
ghost use Rattle.path_rules.specs.declared.rule.Rule.TheVariants.{StackSize, TagState};
ghost use Rattle.path_rules.specs.FrameTable.{AreFrames};
ghost use Rattle.path_rules.specs.Points.{item_of};
ghost use Rattle.path_rules.specs.Profile.{units_of};
ghost use Rattle.path_rules.specs.Ranges.{all_in_range};
ghost use Rattle.path_rules.specs.Rules.{RuleHolds, looks_at_frames, ways};
ghost use Rattle.path_rules.specs.Sites.{AreSites, placed_in};
ghost use Rattle.path_flows.specs.FlowOf.{AreCells, IsFlowOf, counts_words};

use crate::names::below;
use crate::nodes::nodes;
use crate::ranges::bound;
use beam_code::{Function, Module};
use data_flow::{Flow, first_lack};
use path_rules::{Frame, FramePaths, Rule, Sites};
use path_search::Stop;
use std::alloc::{AllocError, Global};

/// A function of these modules, with what is looked up of its items, and for each item what every
/// path to it carries there.
#[derive(Clone, Copy)]
pub struct Source<'a> {
    pub modules: &'a [Module],
    pub owner: &'a Module,
    pub function: &'a Function,
    pub sites: &'a Sites,
    pub frames: &'a [Option<Frame>],
}

fn counts(rule: Rule) -> bool
    ensures { result ≡ counts_words rule }
{
    match rule {
        Rule::HeapUncovered => true,
        _ => false,
    }
}

/// The flow of a function for a rule.
fn flow(
    alloc: Global,
    paths: &FramePaths,
    function: &Function,
    counts: bool,
    frames: &[Option<Frame>],
) -> Result<Flow, AllocError>
    requires same { paths.now.function.now ≡ function.now }
    requires few { length function.now.items < 2 ^ 32 }
    requires cells { AreCells function.now.items }
    ensures { IfOk result (λ flow. IsFlowOf paths.now.modules.now function.now counts frames.now flow) }
{
    Ok(Flow {
        nodes: nodes(alloc, paths, function, counts, frames)?,
        start: function.entry,
        first: below(u32::from(function.arity), 0),
        bound: bound(function.items.as_slice()),
    })
}

/// The lowest item where some path reads a register that it did not define (`Undefined`), or makes
/// a cell of more heap words than it asked for (`HeapUncovered`). Past `limit` points that are not
/// the first of their item there is no answer; then the rule is broken. `order` may name items to
/// look at first, in this order: where they go on to earlier ones in it, one look at each is enough.
pub fn first_broken(
    alloc: Global,
    source: &Source,
    rule: Rule,
    order: &[usize],
    limit: u32,
) -> Result<Option<u32>, Stop>
    requires prepared { AreSites source.now.modules.now (placed_in source.now.owner.now source.now.function.now) source.now.sites.now }
    requires frames { AreFrames source.now.modules.now (placed_in source.now.owner.now source.now.function.now) source.now.frames.now }
    requires ranges { all_in_range source.now.function.now ≡ true }
    requires units { units_of source.now.function.now.items ≤ MOST_FUNCTION_UNITS }
    requires stack { RuleHolds source.now.modules.now (placed_in source.now.owner.now source.now.function.now) StackSize }
    requires tags { RuleHolds source.now.modules.now (placed_in source.now.owner.now source.now.function.now) TagState }
    requires flows { looks_at_frames rule ≡ false }
    ensures says { IfOk result (λ said. Says (ways source.now.modules.now (placed_in source.now.owner.now source.now.function.now) rule) item_of said) }
    ensures states { result ≡ Err States → Holds (ways source.now.modules.now (placed_in source.now.owner.now source.now.function.now) rule) → ⊥ }
{
    let paths = FramePaths::new(
        alloc,
        source.modules,
        source.owner,
        source.function,
        source.sites,
        Rule::StackSize,
    );
    let flow = match flow(alloc, &paths, source.function, counts(rule), source.frames) {
        Ok(flow) => flow,
        Err(_) => return Err(Stop::Memory),
    };
    first_lack(alloc, &flow, order, limit)
}
