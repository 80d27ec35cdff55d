//! Why calls on graphs are refused.

ghost use Rattle.std.specs.Prelude.{◌≡◌};
ghost use Rattle.graph_edits.specs.declared.refused.GraphRefused.TheVariants as refusals;

use alloc_basics::OutOfMemory;
use model_states::StateRefused;
use thiserror::Error;

/// Why a call on a graph did not do what it was asked to.
#[derive(Clone, Copy, Debug, PartialEq, Eq, Error)]
pub enum GraphRefused {
    /// The edits or the step are refused.
    #[error("{text}", text = text_of(*.0))]
    State(StateRefused),
    /// No memory was left.
    #[error("no memory was left")]
    NoMemory,
}

/// Returns why a step is refused, as a sentence.
fn text_of(refused: StateRefused) -> &'static str {
    match refused {
        StateRefused::UnknownInput => "an input is not there, or does not stand earlier",
        StateRefused::Arity => "the number of inputs is not the operation's",
        StateRefused::Formats => "the operation has no format of these inputs",
        StateRefused::Bounds => "the operation has no box in limits of these inputs",
        StateRefused::InUse => "the node is an input of another",
        StateRefused::TooManyNodes => "there are as many nodes as there may be",
        StateRefused::NothingToUndo => "no state is left to undo to",
        StateRefused::NothingToRedo => "no state is left to redo to",
        StateRefused::TooManyCommits => "there are as many states as there may be",
    }
}

impl<E: OutOfMemory> From<E> for GraphRefused {
    ghost from_gives = { λ _ refused. refused ≡ refusals.NoMemory };

    fn from(_error: E) -> GraphRefused {
        GraphRefused::NoMemory
    }
}
