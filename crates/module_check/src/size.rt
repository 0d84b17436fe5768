// Whether modules are too many, or have too many units.

ghost use Rattle.std.specs.Prelude.{◌≡◌, ◌<◌, ◌-◌, ◌^◌, ◌↔◌, ◌&&◌, true, is_some, length, map, nat_le};
ghost use Rattle.beam_code.specs.Function.{all_functions};
ghost use Rattle.beam_code.specs.Uses as uses;
ghost use Rattle.path_rules.specs.declared.limits.TheConstants.{MOST_MODULES, MOST_UNITS};
ghost use Rattle.path_rules.specs.Profile.{AreFew, units_of};
ghost use Rattle.path_rules.specs.Sites.{placed_in};
ghost use Rattle.module_check.specs.Sizes as sizes;

use beam_code::{Function, Item, Module, units};
use path_rules::{MOST_FUNCTION_UNITS, MOST_MODULES, MOST_UNITS};

/// What is left of a number, where so much is taken.
fn left(most: u32, taken: u32) -> Option<u32>
    ensures { result ≡ sizes.left most taken }
{
    if taken <= most {
        Some(most - taken)
    } else {
        None
    }
}

/// What is left of so many units behind an item.
#[tactic(auto, using(crate::proofs::Few::left_capped))]
fn left_behind_item(item: &Item, most: u32) -> Option<u32>
    requires { most < 2 ^ 32 - 1 }
    ensures { result ≡ sizes.left most (uses.units item.now.instr) }
{
    left(most, units(item.instr()))
}

/// What is left of so many units behind items.
#[tactic(auto, using(crate::proofs::Few::left_again, crate::proofs::Few::left_low))]
fn left_behind_items(items: &[Item], most: u32) -> Option<u32>
    requires { most < 2 ^ 32 - 1 }
    ensures { result ≡ sizes.left most (units_of items.now) }
{
    let mut rest = most;
    for item in items {
        match left_behind_item(item, rest) {
            None => return None,
            Some(less) => rest = less,
        }
    }
    Some(rest)
}

/// What is left of so many units behind a function, if that has not too many itself.
#[tactic(auto, using(crate::proofs::Few::taken_back))]
fn left_behind(function: &Function, most: u32) -> Option<u32>
    ensures { result ≡ sizes.left_behind most function.now }
{
    match left_behind_items(function.items.as_slice(), MOST_FUNCTION_UNITS) {
        None => None,
        Some(rest) => left(most, MOST_FUNCTION_UNITS - rest),
    }
}

/// The same behind all functions of a module.
fn left_behind_module(module: &Module, most: u32) -> Option<u32>
    ensures { result ≡ sizes.left_behind_all most (map (placed_in module.now) module.now.functions) }
{
    let mut rest = most;
    for function in module.functions.as_slice() {
        match left_behind(function, rest) {
            None => return None,
            Some(less) => rest = less,
        }
    }
    Some(rest)
}

/// The same behind all functions of these modules.
#[tactic(auto, using(crate::proofs::Few::left_next, crate::proofs::Few::left_none))]
fn left_behind_modules(modules: &[Module], most: u32) -> Option<u32>
    ensures { result ≡ sizes.left_behind_all most (all_functions modules.now) }
{
    let mut rest = most;
    for module in modules {
        match left_behind_module(module, rest) {
            None => return None,
            Some(less) => rest = less,
        }
    }
    Some(rest)
}

fn is_enough(modules: &[Module]) -> bool
    ensures { result ≡ (is_some (sizes.left_behind_all MOST_UNITS (all_functions modules.now)) && nat_le (length modules.now) MOST_MODULES) }
{
    left_behind_modules(modules, MOST_UNITS).is_some() && modules.len() <= MOST_MODULES
}

/// Whether modules and units are within the limits.
#[tactic(auto, using(crate::proofs::Few::few_is))]
pub(crate) fn are_few(modules: &[Module]) -> bool
    ensures { result ≡ true ↔ AreFew modules.now }
{
    is_enough(modules)
}
