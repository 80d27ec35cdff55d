//! Sinks: where texts go.

ghost use Rattle.std.specs.Prelude.{◌≡◌, ℕ, ◌≤◌, List, Option, IsErrOf};
ghost use Rattle.outside_io.specs.Sink.{Puts};
ghost use Rattle.outside_io.specs.declared.sink.SinkAnswer.TheVariants.{NoMemory};
ghost use Rattle.chain_owners.specs.Counts.{Rose};

use alloc_basics::OutOfMemory;
use thiserror::Error;

/// Why a sink did not take a piece.
#[derive(Clone, Copy, Debug, PartialEq, Eq, Error)]
pub enum SinkAnswer {
    /// The device failed.
    #[error("the sink failed")]
    Failed,
    /// No memory was left.
    #[error("no memory was left")]
    NoMemory,
}

impl<E: OutOfMemory> From<E> for SinkAnswer {
    ghost from_gives = { λ _ answer. answer ≡ NoMemory };

    fn from(_error: E) -> SinkAnswer {
        SinkAnswer::NoMemory
    }
}

/// Takes text, piece by piece.
pub trait Sink {
    /// All bytes that went out, where the sink exposes them.
    ghost written: { Self → Option (List ℕ) };

    /// How many pieces failed.
    ghost faults: { Self → ℕ };

    /// Sends a piece after all that went out before.
    fn put(&mut self, bytes: &[u8]) -> Result<(), SinkAnswer>
        ensures puts { Puts (written self.old) bytes.now result (written self.new) }
        ensures failed { IsErrOf result SinkAnswer.Failed → Rose (faults self.old) (faults self.new) }
        ensures later { faults self.old ≤ faults self.new };
}
