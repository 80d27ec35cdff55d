//! Why a viewer renders no frame.

ghost use Rattle.std.specs.Prelude.{◌≡◌};
ghost use Rattle.scene_hub.specs.declared.refusals.ViewRefused.TheVariants as entering;
ghost use Rattle.scene_viewers.specs.declared.refused.ViewRefused.TheVariants as refusals;
ghost use Rattle.scene_viewers.specs.Refusals.{by_entering};

use alloc_basics::OutOfMemory;
use thiserror::Error;

/// Why a viewer renders no frame.
#[derive(Clone, Copy, Debug, PartialEq, Eq, Error)]
pub enum ViewRefused {
    /// The rectangle is not in limits.
    #[error("the rectangle is not in limits")]
    Rect,
    /// The hub has ended.
    #[error("the hub has no entry any more")]
    NoEntry,
    /// The scene that was entered has no node of the name.
    #[error("scene {number} has no node of the name")]
    UnknownNode {
        /// The number of the scene.
        number: u64,
    },
    /// No memory was left.
    #[error("no memory was left")]
    NoMemory,
}

impl<E: OutOfMemory> From<E> for ViewRefused {
    ghost from_gives = { λ _ refused. refused ≡ refusals.NoMemory };

    fn from(_error: E) -> ViewRefused {
        ViewRefused::NoMemory
    }
}

/// Returns why a viewer renders no frame that did not enter.
pub(crate) fn not_entered(refused: scene_hub::ViewRefused) -> ViewRefused
    ensures { result ≡ by_entering refused }
{
    match refused {
        scene_hub::ViewRefused::NoEntry => ViewRefused::NoEntry,
        scene_hub::ViewRefused::NoMemory => ViewRefused::NoMemory,
    }
}
