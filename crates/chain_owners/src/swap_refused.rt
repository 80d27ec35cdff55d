//! Why a call that may use the swap is refused.

ghost use Rattle.std.specs.Prelude.{◌≡◌};
ghost use Rattle.chain_owners.specs.declared.swap_refused.SwapRefused.TheVariants as refusals;

use alloc_basics::OutOfMemory;
use thiserror::Error;

/// Why a call on a store, or on what is built on one, did not do what it was asked to.
#[derive(Clone, Copy, Debug, PartialEq, Eq, Error)]
pub enum SwapRefused {
    /// The swap disk failed.
    #[error("the swap disk failed")]
    SwapFault,
    /// No free run is long enough.
    #[error("the swap disk is full: {needed} blocks are needed, and the longest free run has {longest}")]
    SwapFull {
        /// How many blocks one tile needs.
        needed: u32,
        /// How many the longest free run has.
        longest: u32,
    },
    /// No memory was left.
    #[error("no memory was left")]
    NoMemory,
}

impl<E: OutOfMemory> From<E> for SwapRefused {
    ghost from_gives = { λ _ refused. refused ≡ refusals.NoMemory };

    fn from(_error: E) -> SwapRefused {
        SwapRefused::NoMemory
    }
}
