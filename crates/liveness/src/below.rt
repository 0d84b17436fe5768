ghost use Rattle.std.specs.Prelude.{◌≡◌};
ghost use Rattle.liveness.specs.Whole.{all_below, lists_below};

use sqlite_items::Items;

/// Whether each number of the list is below `most`.
fn is_below(list: &[u32], most: usize) -> bool
    ensures { result ≡ all_below most list.now }
{
    for number in list {
        if *number as usize >= most {
            return false;
        }
    }
    true
}

/// Whether each number of each list is below `most`.
pub(crate) fn are_below(lists: &[Items<u32>], most: usize) -> bool
    ensures { result ≡ lists_below most lists.now }
{
    for list in lists {
        if !is_below(list.as_slice(), most) {
            return false;
        }
    }
    true
}
