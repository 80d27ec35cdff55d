//! How a run ends.

use alloc_basics::OutOfMemory;

/// Why a run ends before its last line.
#[derive(Clone, Copy, Debug, PartialEq, Eq)]
pub enum End {
    /// A line was refused, and its text was put.
    Refused,
    /// The shelf failed at a read.
    ReadFault,
    /// The shelf failed at a write.
    WriteFault,
    /// The swap failed.
    SwapFault,
    /// The sink failed.
    OutputFault,
    /// No memory was left.
    NoMemory,
    /// The swap was full.
    SwapFull,
}

impl<E: OutOfMemory> From<E> for End {
    ghost use Rattle.std.specs.Prelude.{◌≡◌};
    ghost use Rattle.model_runs.specs.declared.ending.End.TheVariants.{NoMemory};

    ghost from_gives = { λ _ end. end ≡ NoMemory };

    fn from(_error: E) -> End {
        End::NoMemory
    }
}
