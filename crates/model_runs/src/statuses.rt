//! The statuses of the program.

ghost use Rattle.std.specs.Prelude.{◌≡◌};
ghost use Rattle.model_runs.specs.Ending.{status_of};

use crate::ending::End;

/// Returns the status of a run that ended so.
pub fn status_of(ended: Result<(), End>) -> u8
    ensures { result ≡ status_of ended }
{
    match ended {
        Ok(()) => 0,
        Err(End::Refused) => 2,
        Err(End::ReadFault) => 3,
        Err(End::WriteFault) => 4,
        Err(End::SwapFault) => 5,
        Err(End::OutputFault) => 6,
        Err(End::NoMemory) => 7,
        Err(End::SwapFull) => 8,
    }
}
