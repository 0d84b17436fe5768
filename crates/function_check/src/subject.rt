ghost use Rattle.std.specs.Prelude.{◌≡◌, ◌≤◌, true};
ghost use Rattle.path_rules.specs.declared.limits.TheConstants.{MOST_FUNCTION_UNITS};
ghost use Rattle.path_rules.specs.Profile.{units_of};
ghost use Rattle.path_rules.specs.Ranges.{all_in_range};
ghost use Rattle.path_rules.specs.Sites.{AreSites, placed_in};

use beam_code::{Function, Module};
use path_rules::Sites;
use std::alloc::Global;

/// A function of these modules, with what is looked up of its items. Its registers are in range, and
/// it has no more units than the profile allows.
#[derive(Drop)]
pub struct Subject<'a> {
    pub alloc: Global,
    pub modules: &'a [Module],
    pub owner: &'a Module,
    pub function: &'a Function,
    pub sites: &'a Sites,
    ghost prepared: { AreSites modules.now (placed_in owner.now function.now) sites.now },
    ghost ranges: { all_in_range function.now ≡ true },
    ghost units: { units_of function.now.items ≤ MOST_FUNCTION_UNITS },
}
