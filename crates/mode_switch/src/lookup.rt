//! How many items modules have.

ghost use Rattle.beam_code.specs.Function.{items_of};
ghost use Rattle.mode_switch.specs.Lookup.{length_sum};
ghost use Rattle.std.specs.Prelude.{◌≡◌, ◌<◌, ◌^◌};

use beam_code::{Function, Module};

/// How many items these functions have.
fn count_items(functions: &[Function]) -> u32
    requires { length_sum functions.now < 2 ^ 32 }
    ensures { result ≡ length_sum functions.now }
{
    let mut items = 0;
    for function in functions {
        items += function.items.len() as u32;
    }
    items
}

/// How many items all functions of these modules have.
pub(crate) fn items_of_modules(modules: &[Module]) -> u32
    requires { items_of modules.now < 2 ^ 32 }
    ensures { result ≡ items_of modules.now }
{
    let mut items = 0;
    for module in modules {
        items += count_items(module.functions.as_slice());
    }
    items
}
