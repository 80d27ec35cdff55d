//! The two directions in which a step goes through the states that a history retains.

ghost use Rattle.std.specs.Prelude.{◌≡◌};
ghost use Rattle.model_states.specs.Directions.{nothing_ahead};

use crate::refused::StateRefused;

/// The largest number of states that can be undone to, or redone to.
pub const MAX_UNDOABLE: usize = 64;

/// Which way a step goes through the retained states.
#[derive(Clone, Copy, Debug, PartialEq)]
pub enum Direction {
    /// Back to the state before the last commit that is not yet undone.
    Undo,
    /// On to the state that the last undo that is not yet redone left.
    Redo,
}

impl Direction {
    /// Returns why a step is refused that has no state to lead to.
    pub fn refusal(self) -> StateRefused
        ensures { result ≡ nothing_ahead self }
    {
        match self {
            Direction::Undo => StateRefused::NothingToUndo,
            Direction::Redo => StateRefused::NothingToRedo,
        }
    }
}
