//! Why a plan is refused.

ghost use Rattle.std.specs.Prelude.{◌≡◌};
ghost use Rattle.roi_planner.specs.declared.refused.PlanRefused.TheVariants as refusals;

use alloc_basics::OutOfMemory;
use thiserror::Error;

/// Why a request is not planned.
#[derive(Clone, Copy, Debug, PartialEq, Eq, Error)]
pub enum PlanRefused {
    /// A strip needs more tiles than the capacity.
    #[error("a strip needs {needed} tiles, and the capacity is {capacity}")]
    Strip {
        /// How many tiles the first such strip needs.
        needed: u32,
        /// How many it may need.
        capacity: u32,
    },
    /// No memory was left.
    #[error("no memory was left")]
    NoMemory,
}

impl<E: OutOfMemory> From<E> for PlanRefused {
    ghost from_gives = { λ _ refused. refused ≡ refusals.NoMemory };

    fn from(_error: E) -> PlanRefused {
        PlanRefused::NoMemory
    }
}
