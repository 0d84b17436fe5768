use function_check::Standing;
use sqlite_items::Items;

/// What is kept of a function: the number of its module, its place among the functions of that,
/// how many items the functions before it have, and how paths stand at each of its own.
#[derive(Drop)]
pub(crate) struct Entry {
    pub(crate) owner: u32,
    pub(crate) place: u32,
    pub(crate) first_item: u32,
    pub(crate) standings: Items<Option<Standing>>,
}
