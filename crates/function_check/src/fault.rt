use path_rules::Rule;

/// Why a function is refused.
#[derive(Clone, Copy)]
pub enum Fault {
    /// The rules before this one hold, and the item is the lowest that breaks it.
    Broken { rule: Rule, item: u32 },
    /// The paths of a function that breaks a rule come to more states than the search keeps.
    States,
    /// There is not enough memory.
    Memory,
}
