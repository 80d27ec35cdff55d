//! Files of the current folder that are open, and what a shelf answers where they fail.

ghost use Rattle.std.specs.Prelude.{◌≡◌, ◌⊎◌, IfErr};

use crate::shelf::ShelfAnswer;
use std::fs::Files;
use std::io::ErrorKind;
use std::{fs, io};

/// How often a read is made again that a signal interrupted.
pub(crate) const MAX_INTERRUPTIONS: u32 = 1000;

/// Opens a file of the current folder. `Failed` where the name is that of a pipe, a folder or a device, which isn't opened.
pub(crate) fn open_file<R: Files>(rt: &R, name: &str) -> Result<R::File, ShelfAnswer>
    ensures { IfErr result (λ answer. (answer ≡ ShelfAnswer.Absent) ⊎ ((answer ≡ ShelfAnswer.Failed) ⊎ (answer ≡ ShelfAnswer.NoMemory))) }
{
    match open_regular(rt, name) {
        Ok(file) => Ok(file),
        Err(error) if error.kind() == ErrorKind::NotFound => Err(ShelfAnswer::Absent),
        Err(error) => Err(refusal(error)),
    }
}

/// Opens a regular file. To open a pipe would wait until another program writes to it.
fn open_regular<R: Files>(rt: &R, name: &str) -> io::Result<R::File> {
    if fs::metadata(rt, name)?.is_file() {
        fs::open(rt, name)
    } else {
        Err(io::Error::from(ErrorKind::InvalidInput))
    }
}

/// Returns what a shelf answers where an open file gave this error.
pub(crate) fn refusal(error: io::Error) -> ShelfAnswer
    ensures { (result ≡ ShelfAnswer.Failed) ⊎ (result ≡ ShelfAnswer.NoMemory) }
{
    match error.kind() {
        ErrorKind::OutOfMemory => ShelfAnswer::NoMemory,
        _ => ShelfAnswer::Failed,
    }
}
