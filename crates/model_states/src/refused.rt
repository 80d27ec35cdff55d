//! Why steps of a graph are refused.

/// Why edits, a commit, an undo or a redo are refused, in the order of the causes.
#[derive(Clone, Copy, Debug, PartialEq, Eq)]
pub enum StateRefused {
    /// An input is not earlier in the list, or a buffer or a removed node is not there.
    UnknownInput,
    /// The number of inputs is not the operation's.
    Arity,
    /// The operation has no format of these inputs.
    Formats,
    /// The operation has no box in limits of these inputs.
    Bounds,
    /// A removed node is an input of another.
    InUse,
    /// There are as many nodes as there may be.
    TooManyNodes,
    /// No state is left to undo to.
    NothingToUndo,
    /// No state is left to redo to.
    NothingToRedo,
    /// There are as many states as there may be.
    TooManyCommits,
}
