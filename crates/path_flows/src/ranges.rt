// The most heap words that an item asks for.

ghost use Rattle.std.specs.Prelude.{◌≡◌};
ghost use Rattle.beam_code.specs.Shape.{shape_of};
ghost use Rattle.data_flow.specs.Flow as flow_spec;
ghost use Rattle.path_flows.specs.FlowOf.{most_need};
ghost use Rattle.path_flows.specs.Ways as ways;

use crate::registers::change;
use beam_code::{Instr, Item};
use data_flow::Change;

fn asked(instr: &Instr) -> u32
    ensures { result ≡ flow_spec.asked (ways.change_of (shape_of instr.now)) }
{
    match change(instr) {
        Change::Asks(n) => n,
        _ => 0,
    }
}

/// The most that an item asks for.
pub(crate) fn bound(items: &[Item]) -> u32
    ensures { result ≡ most_need items.now }
{
    let mut most = 0;
    for item in items {
        most = most.max(asked(item.instr()));
    }
    most
}
