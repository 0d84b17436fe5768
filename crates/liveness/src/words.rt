ghost use Rattle.std.specs.Prelude.{◌≡◌, map, IfOk};
ghost use Rattle.liveness.specs.Words.{word_from};

use sqlite_items::Items;
use std::alloc::{AllocError, Global};

/// The names `first..first + 64` that a list has, a bit each.
fn word(list: &[u32], first: u32) -> u64
    ensures { result ≡ word_from 0 first list.now }
{
    let mut word: u64 = 0;
    for name in list {
        if *name >= first && *name - first < 64 {
            word |= 1u64 << (*name - first);
        }
    }
    word
}

/// One word a list.
pub(crate) fn words(alloc: Global, lists: &[Items<u32>], first: u32) -> Result<Vec<u64>, AllocError>
    ensures { IfOk result (λ v. v.items ≡ map (word_from 0 first) lists.now) }
{
    let mut all = Vec::new(alloc);
    for list in lists {
        all.push(word(list.as_slice(), first))?;
    }
    Ok(all)
}
