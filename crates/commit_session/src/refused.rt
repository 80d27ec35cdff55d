//! Why calls on sessions are refused.

ghost use Rattle.std.specs.Prelude.{◌≡◌};
ghost use Rattle.commit_session.specs.Refusals.{by_buffers, by_graph, by_render};
ghost use Rattle.commit_session.specs.declared.refused.SessionRefused.TheVariants as refusals;

use alloc_basics::NoMemory;
use buffer_view::BufferRefused;
use graph_commits::GraphRefused;
use render_workers::RenderRefused;
use std::alloc::{AllocError, AllocFailed};
use thiserror::Error;

/// Why a call on a session did not do what it was asked to.
#[derive(Clone, Copy, Debug, PartialEq, Eq, Error)]
pub enum SessionRefused {
    /// An edit or a read of the working buffers is refused, for another reason than memory.
    #[error("{0}")]
    Buffer(BufferRefused),
    /// A commit, an undo or a redo is refused, for another reason than memory.
    #[error("{0}")]
    Graph(GraphRefused),
    /// A render is refused, for another reason than memory.
    #[error("{0}")]
    Render(RenderRefused),
    /// No memory was left.
    #[error("no memory was left")]
    NoMemory,
}

impl From<BufferRefused> for SessionRefused {
    ghost from_gives = { λ lower refused. refused ≡ by_buffers lower };

    fn from(refused: BufferRefused) -> SessionRefused {
        match refused {
            BufferRefused::NoMemory => SessionRefused::NoMemory,
            other => SessionRefused::Buffer(other),
        }
    }
}

impl From<GraphRefused> for SessionRefused {
    ghost from_gives = { λ lower refused. refused ≡ by_graph lower };

    fn from(refused: GraphRefused) -> SessionRefused {
        match refused {
            GraphRefused::NoMemory => SessionRefused::NoMemory,
            other => SessionRefused::Graph(other),
        }
    }
}

impl From<RenderRefused> for SessionRefused {
    ghost from_gives = { λ lower refused. refused ≡ by_render lower };

    fn from(refused: RenderRefused) -> SessionRefused {
        match refused {
            RenderRefused::NoMemory => SessionRefused::NoMemory,
            other => SessionRefused::Render(other),
        }
    }
}

impl From<NoMemory> for SessionRefused {
    ghost from_gives = { λ _ refused. refused ≡ refusals.NoMemory };

    fn from(_error: NoMemory) -> SessionRefused {
        SessionRefused::NoMemory
    }
}

impl From<AllocError> for SessionRefused {
    ghost from_gives = { λ _ refused. refused ≡ refusals.NoMemory };

    fn from(_error: AllocError) -> SessionRefused {
        SessionRefused::NoMemory
    }
}

impl<T: Drop> From<AllocFailed<T>> for SessionRefused {
    ghost from_gives = { λ _ refused. refused ≡ refusals.NoMemory };

    fn from(_error: AllocFailed<T>) -> SessionRefused {
        SessionRefused::NoMemory
    }
}
