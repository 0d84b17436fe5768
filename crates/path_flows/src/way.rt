use data_flow::{Change, Names};

/// A way on from an item: which of a path's registers it keeps, the first x registers and slots but
/// for what is lost, and which it adds; and what it does to the path's heap words.
#[derive(Clone, Copy)]
pub(crate) struct Way {
    pub(crate) to: u32,
    pub(crate) xs: u32,
    pub(crate) slots: u32,
    pub(crate) lost: Names,
    pub(crate) gain: Names,
    pub(crate) change: Change,
}
