/// A rule on the paths of a function (`docs/BEAM.md`, Rules), in the order in which they are
/// looked at.
#[derive(Clone, Copy, PartialEq, Eq, Debug)]
pub enum Rule {
    /// The last item does not go on.
    FallsOff,
    /// A call names a function of the module, or an arity that is its callee's.
    CallTarget,
    /// The label of a `try` or `catch` leads to its end, and only exceptions come to a `try_case`.
    BadHandler,
    /// No item lies on a cycle.
    Loop,
    /// All paths to an item have one number of y registers, and the item fits it.
    StackSize,
    /// All paths to an item have the same tags, and the item fits them.
    TagState,
    /// A `try` or `catch` tags a y register below every tagged one.
    TagOrder,
    /// A register that is read is defined.
    Undefined,
    /// Cells are made of heap words that were asked for.
    HeapUncovered,
}
