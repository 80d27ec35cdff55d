//! Why the calls of a hub refuse.

ghost use Rattle.std.specs.Prelude.{◌≡◌};
ghost use Rattle.scene_hub.specs.declared.refusals.HubRefused.TheVariants as hub;
ghost use Rattle.scene_hub.specs.declared.refusals.ViewRefused.TheVariants as view;

use alloc_basics::OutOfMemory;
use thiserror::Error;

/// Why a hub was not started.
#[derive(Clone, Copy, Debug, PartialEq, Eq, Error)]
pub enum HubRefused {
    /// No room was found for a viewer.
    #[error("the hub has no place for a viewer")]
    NoPlace,
    /// No memory was left.
    #[error("no memory was left")]
    NoMemory,
}

/// Why a viewer did not enter.
#[derive(Clone, Copy, Debug, PartialEq, Eq, Error)]
pub enum ViewRefused {
    /// The hub has ended.
    #[error("the hub has no entry any more")]
    NoEntry,
    /// No memory was left.
    #[error("no memory was left")]
    NoMemory,
}

impl<E: OutOfMemory> From<E> for HubRefused {
    ghost from_gives = { λ _ refused. refused ≡ hub.NoMemory };

    fn from(_error: E) -> HubRefused {
        HubRefused::NoMemory
    }
}

impl<E: OutOfMemory> From<E> for ViewRefused {
    ghost from_gives = { λ _ refused. refused ≡ view.NoMemory };

    fn from(_error: E) -> ViewRefused {
        ViewRefused::NoMemory
    }
}
