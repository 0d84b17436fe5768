ghost use Rattle.beam_code.specs.declared.module.Module as module_type;
ghost use Rattle.beam_code.specs.Function.{Placed};
ghost use Rattle.path_search.specs.declared.rounds.Stop.TheVariants.{States};
ghost use Rattle.std.specs.Prelude.{◌≡◌, ◌+◌, List, IfOk, IfErr, true, false};
ghost use Rattle.paths.specs.Rules.{Holds};
ghost use Rattle.paths.specs.Search.{IsReach};
ghost use Rattle.path_rules.specs.declared.rule.Rule.TheVariants.{Loop, StackSize, TagState, TagOrder};
ghost use Rattle.path_rules.specs.Frames.{frame_ways};
ghost use Rattle.path_rules.specs.FrameTable.{AreFrames};
ghost use Rattle.path_rules.specs.Rules.{looks_at_frames};
ghost use Rattle.function_check.specs.Order.{AllHold, IsRefused, is_of_items, place_of};
ghost use Rattle.function_check.specs.Standings.{AreStandings};
ghost use Rattle.function_check.specs.Subjects.{Refused, Turn, placed};

use crate::fault::Fault;
use crate::standing::{Standing, standings};
use crate::subject::Subject;
use path_flows::{Source, first_broken};
use path_loops::find_loops;
use path_rules::{Frame, FramePaths, FramePoint, Rule, frames_of, search_frames};
use path_search::Stop;
use sqlite_items::Items;

/// How many states beside one an item a search keeps while it looks for the lowest item that
/// breaks `Undefined` or `HeapUncovered`.
pub const STATES: u32 = 65_536;

/// The refusal where a search stopped.
fn stopped(stop: Stop) -> Fault
    ensures { (ms : List module_type.Module) (f : Placed) → (stop ≡ States → AllHold ms f → ⊥) → IsRefused ms f result }
{
    match stop {
        Stop::Memory => Fault::Memory,
        Stop::States => Fault::States,
    }
}

fn paths<'a>(of: &Subject<'a>, rule: Rule) -> FramePaths<'a>
    requires { looks_at_frames rule ≡ true }
    ensures modules { result.modules.now ≡ of.now.modules.now }
    ensures owner { result.owner.now ≡ of.now.owner.now }
    ensures function { result.function.now ≡ of.now.function.now }
    ensures rule { result.rule ≡ rule }
{
    FramePaths::new(of.alloc, of.modules, of.owner, of.function, of.sites, rule)
}

/// Looks at a rule on stack and tags alone, whose turn it is.
fn look_at_frames(of: &Subject, rule: Rule) -> Result<Items<FramePoint>, Fault>
    requires frames { looks_at_frames rule ≡ true }
    requires items { is_of_items rule ≡ true }
    requires turn { Turn of.now (place_of rule) }
    ensures holds { IfOk result (λ points. Turn of.now (place_of rule + 1)) }
    ensures reach { IfOk result (IsReach (frame_ways of.now.modules.now (placed of.now) rule)) }
    ensures refused { IfErr result (Refused of.now) }
{
    let paths = paths(of, rule);
    match search_frames(of.alloc, &paths) {
        Ok((points, None)) => Ok(points),
        Ok((_, Some(item))) => Err(Fault::Broken { rule, item }),
        Err(stop) => Err(stopped(stop)),
    }
}

/// Looks at the cycles; the items in an order in which steps lead to earlier ones.
fn look_at_loops(of: &Subject) -> Result<Items<usize>, Fault>
    requires turn { Turn of.now (place_of Loop) }
    ensures holds { IfOk result (λ order. Turn of.now (place_of Loop + 1)) }
    ensures refused { IfErr result (Refused of.now) }
{
    match find_loops(of.alloc, of.modules, of.owner, of.function, of.sites) {
        Err(_) => Err(Fault::Memory),
        Ok(loops) => match loops.lowest {
            None => Ok(loops.order),
            Some(item) => Err(Fault::Broken {
                rule: Rule::Loop,
                item,
            }),
        },
    }
}

/// Looks at a rule on registers or heap words, whose turn it is.
fn look_at_flows(
    of: &Subject,
    rule: Rule,
    frames: &[Option<Frame>],
    order: &[usize],
) -> Result<(), Fault>
    requires flows { looks_at_frames rule ≡ false }
    requires frames { AreFrames of.now.modules.now (placed of.now) frames.now }
    requires turn { Turn of.now (place_of rule) }
    ensures holds { IfOk result (λ u. Turn of.now (place_of rule + 1)) }
    ensures refused { IfErr result (Refused of.now) }
{
    let source = Source {
        modules: of.modules,
        owner: of.owner,
        function: of.function,
        sites: of.sites,
        frames,
    };
    match first_broken(of.alloc, &source, rule, order, STATES) {
        Ok(None) => Ok(()),
        Ok(Some(item)) => Err(Fault::Broken { rule, item }),
        Err(stop) => Err(stopped(stop)),
    }
}

/// Looks at the rules on stack and tags: what all paths carry to each item, where these hold.
fn frames(of: &Subject) -> Result<Items<Option<Frame>>, Fault>
    requires turn { Turn of.now (place_of StackSize) }
    ensures holds { IfOk result (λ frames. Turn of.now (place_of TagOrder + 1)) }
    ensures frames { IfOk result (AreFrames of.now.modules.now (placed of.now)) }
    ensures refused { IfErr result (Refused of.now) }
{
    look_at_frames(of, Rule::StackSize)?;
    look_at_frames(of, Rule::TagState)?;
    let points = look_at_frames(of, Rule::TagOrder)?;
    match frames_of(of.alloc, of.function, points.as_slice()) {
        Ok(frames) => Ok(frames),
        Err(_) => Err(Fault::Memory),
    }
}

/// Looks at the first four rules: the items in an order in which steps lead to earlier ones.
fn order(of: &Subject) -> Result<Items<usize>, Fault>
    ensures holds { IfOk result (λ order. Turn of.now (place_of StackSize)) }
    ensures refused { IfErr result (Refused of.now) }
{
    look_at_frames(of, Rule::FallsOff)?;
    look_at_frames(of, Rule::CallTarget)?;
    look_at_frames(of, Rule::BadHandler)?;
    look_at_loops(of)
}

/// How paths stand at each item of a function that keeps every rule, or why it does not.
pub fn check_function(of: &Subject) -> Result<Items<Option<Standing>>, Fault>
    ensures holds { IfOk result (λ table. AllHold of.now.modules.now (placed of.now)) }
    ensures standings { IfOk result (AreStandings of.now.modules.now (placed of.now)) }
    ensures refused { IfErr result (Refused of.now) }
{
    let order = order(of)?;
    let frames = frames(of)?;
    look_at_flows(of, Rule::Undefined, frames.as_slice(), order.as_slice())?;
    look_at_flows(of, Rule::HeapUncovered, frames.as_slice(), order.as_slice())?;
    match standings(of.alloc, of.sites, frames.as_slice()) {
        Ok(table) => Ok(table),
        Err(_) => Err(Fault::Memory),
    }
}
