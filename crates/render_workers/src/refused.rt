//! Why a render is refused.

ghost use Rattle.std.specs.Prelude.{◌≡◌};
ghost use Rattle.render_workers.specs.Refusals.{by_plan, by_swap};

use chain_owners::SwapRefused;
use roi_planner::PlanRefused;
use thiserror::Error;

/// Why a request is not rendered.
#[derive(Clone, Copy, Debug, PartialEq, Eq, Error)]
pub enum RenderRefused {
    /// No node has the name.
    #[error("no node has the name")]
    UnknownNode,
    /// The rectangle at level 0 is not in limits.
    #[error("the rectangle at level 0 is not in limits")]
    Rect,
    /// A strip needs more tiles than the capacity.
    #[error("a strip needs {needed} tiles, and the capacity is {capacity}")]
    Strip {
        /// How many tiles the first such strip needs.
        needed: u32,
        /// How many it may need.
        capacity: u32,
    },
    /// The swap disk failed.
    #[error("the swap disk failed")]
    SwapFault,
    /// No free run is long enough.
    #[error("the swap disk is full: {needed} blocks are needed, and the longest free run has {longest}")]
    SwapFull {
        /// How many blocks one tile needs.
        needed: u32,
        /// How many the longest free run has.
        longest: u32,
    },
    /// No memory was left.
    #[error("no memory was left")]
    NoMemory,
}

impl From<PlanRefused> for RenderRefused {
    ghost from_gives = { λ plan refused. refused ≡ by_plan plan };

    fn from(plan: PlanRefused) -> RenderRefused {
        match plan {
            PlanRefused::Strip { needed, capacity } => RenderRefused::Strip { needed, capacity },
            PlanRefused::NoMemory => RenderRefused::NoMemory,
        }
    }
}

impl From<SwapRefused> for RenderRefused {
    ghost from_gives = { λ swap refused. refused ≡ by_swap swap };

    fn from(swap: SwapRefused) -> RenderRefused {
        match swap {
            SwapRefused::SwapFault => RenderRefused::SwapFault,
            SwapRefused::SwapFull { needed, longest } => RenderRefused::SwapFull {
                needed,
                longest,
            },
            SwapRefused::NoMemory => RenderRefused::NoMemory,
        }
    }
}
