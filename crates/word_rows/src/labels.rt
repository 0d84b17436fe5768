//! The items of labels.

ghost use Rattle.beam_code.specs.Function.{first_that, is_label_item};
ghost use Rattle.indexmap.specs.IndexMap.{get};
ghost use Rattle.std.specs.Prelude.{◌≡◌, ℕ, ◌<◌, ◌^◌, IfOk, length, nat_eq};

use beam_code::{Instr, Item};
use indexmap::IndexMap;
use std::alloc::{AllocError, Global};

/// The first item of each label of a function, by the label.
pub(crate) fn label_items(alloc: Global, items: &[Item]) -> Result<IndexMap<u32, u32>, AllocError>
    requires { length items.now < 2 ^ 32 }
    ensures { IfOk result (λ map. (n : ℕ) → get nat_eq map n ≡ first_that (is_label_item n) 0 items.now) }
{
    let mut map = IndexMap::new(alloc);
    let mut at = items.len();
    while at > 0 {
        at -= 1;
        if let Instr::Label(n) = items[at].instr() {
            map.insert(*n, at as u32)?;
        }
    }
    Ok(map)
}
