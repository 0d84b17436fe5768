// What is looked up of a function's items, made once.

ghost use Rattle.std.specs.Prelude.{◌≡◌, ℕ, ◌<◌, ◌^◌, IfOk, length, nat_eq, slice_index_or, drop};
ghost use Rattle.indexmap.specs.IndexMap.{get};
ghost use Rattle.beam_code.specs.Function.{first_that, is_label_item};
ghost use Rattle.path_rules.specs.Rules.{past_passed};

use crate::frame::is_passed;
use beam_code::{Instr, Item};
use indexmap::IndexMap;
use sqlite_items::Items;
use std::alloc::{AllocError, Global};

/// The first item of each label.
pub(crate) fn label_items(alloc: Global, items: &[Item]) -> Result<IndexMap<u32, u32>, AllocError>
    requires { length items.now < 2 ^ 32 }
    ensures { IfOk result (λ map. (n : ℕ) → get nat_eq map n ≡ first_that (is_label_item n) 0 items.now) }
{
    let mut map = IndexMap::new(alloc);
    let mut at = items.len();
    while at > 0 {
        at -= 1;
        if let Instr::Label(n) = items[at].instr() {
            map.insert(*n, at as u32)?;
        }
    }
    Ok(map)
}

/// From each item on the first that has an effect.
fn fill(items: &[Item], table: &mut [u32])
    requires long { length table.old ≡ length items.now }
    requires few { length items.now < 2 ^ 32 }
    ensures long { length table.new ≡ length items.now }
    ensures effective { (k : ℕ) → k < length items.now → slice_index_or table.new k 0 ≡ past_passed k (drop k items.now) }
{
    let mut at = items.len();
    while at > 0 {
        let next = if at < table.len() {
            table[at]
        } else {
            at as u32
        };
        at -= 1;
        table[at] = if is_passed(items[at].instr()) {
            next
        } else {
            at as u32
        };
    }
}

pub(crate) fn effective_items(alloc: Global, items: &[Item]) -> Result<Items<u32>, AllocError>
    requires few { length items.now < 2 ^ 32 }
    ensures long { IfOk result (λ table. length table ≡ length items.now) }
    ensures effective { IfOk result (λ table. (k : ℕ) → k < length items.now → slice_index_or table k 0 ≡ past_passed k (drop k items.now)) }
{
    let mut table = vec![in alloc; 0u32; items.len()]?;
    fill(items, &mut table);
    Ok(Items::from_vec(table))
}
