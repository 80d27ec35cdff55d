//! Shelves: files by their names.

ghost use Rattle.std.specs.Prelude.{◌≡◌, ℕ, ◌≤◌, Err, Option, IfOk, IfSome, IsTrue, IsErrOf, length};
ghost use Rattle.std.specs.Thread.{IsSync};
ghost use Rattle.outside_io.specs.Bands.{BandsLeave};
ghost use Rattle.outside_io.specs.Files.{Files, file};
ghost use Rattle.outside_io.specs.Shelf.{Answers, GivesPart, TakesAtMost, WriteLeaves};
ghost use Rattle.outside_io.specs.FileName.{is_file_name};
ghost use Rattle.outside_io.specs.declared.bands.BandsAnswer.TheVariants.{Refused};
ghost use Rattle.outside_io.specs.declared.shelf.ShelfAnswer.TheVariants.{NoMemory};
ghost use Rattle.chain_owners.specs.Counts.{Rose};

use crate::bands::{Bands, BandsAnswer, joined};
use crate::file_parts::copy_part;
use alloc_basics::OutOfMemory;
use std::alloc::Global;
use std::thread::Threads;
use thiserror::Error;
use worker_pieces::Workers;

/// Why a shelf did not do what it was asked to.
#[derive(Clone, Copy, Debug, PartialEq, Eq, Error)]
pub enum ShelfAnswer {
    /// The device failed.
    #[error("the shelf failed")]
    Failed,
    /// There is no file of that name.
    #[error("there is no such file")]
    Absent,
    /// The file has more bytes than the limit; `taken` were read, the limit and one more.
    #[error("the file is too long: {taken} bytes were taken")]
    TooLong { taken: u64 },
    /// No memory was left.
    #[error("no memory was left")]
    NoMemory,
}

impl<E: OutOfMemory> From<E> for ShelfAnswer {
    ghost from_gives = { λ _ answer. answer ≡ NoMemory };

    fn from(_error: E) -> ShelfAnswer {
        ShelfAnswer::NoMemory
    }
}

/// Files by their names. A name has 1 to 64 letters, digits, `_`, `-` and `.`, the first neither `-` nor `.`.
pub trait Shelf {
    /// The files, where the shelf exposes them.
    ghost files: { Self → Option Files };

    /// How many reads failed.
    ghost read_faults: { Self → ℕ };

    /// How many writes failed.
    ghost write_faults: { Self → ℕ };

    /// Reads a file that has at most `limit` bytes.
    fn read(&mut self, name: &str, limit: u64) -> Result<Vec<u8>, ShelfAnswer>
        requires { IsTrue (is_file_name name.now) }
        ensures gives { IfSome (files self.old) (λ all. Answers (file all name.now) limit result) }
        ensures within { TakesAtMost limit result }
        ensures failed { IsErrOf result ShelfAnswer.Failed → Rose (read_faults self.old) (read_faults self.new) }
        ensures absent { IsErrOf result ShelfAnswer.Absent → read_faults self.new ≡ read_faults self.old }
        ensures later { read_faults self.old ≤ read_faults self.new }
        ensures files { files self.new ≡ files self.old }
        ensures write_faults { write_faults self.new ≡ write_faults self.old };

    /// Reads the bytes of a file from the position `start` on, as many as the slice has room for, and fewer only
    /// where the file ends; returns how many. The workers may read a piece of them each. A shelf that has no other way
    /// reads the whole file each time.
    fn read_part<R: Threads + Sync>(
        &mut self,
        name: &str,
        start: u64,
        into: &mut [u8],
        _workers: Workers<'_, R>,
    ) -> Result<usize, ShelfAnswer>
        requires name { IsTrue (is_file_name name.now) }
        requires threads { IsSync R.row }
        ensures gives { IfSome (files self.old) (λ all. GivesPart (file all name.now) start (length into.old) into.new result) }
        ensures within { IfOk result (λ count. count ≤ length into.new) }
        ensures length { length into.new ≡ length into.old }
        ensures failed { IsErrOf result ShelfAnswer.Failed → Rose (read_faults self.old) (read_faults self.new) }
        ensures absent { IsErrOf result ShelfAnswer.Absent → read_faults self.new ≡ read_faults self.old }
        ensures later { read_faults self.old ≤ read_faults self.new }
        ensures files { files self.new ≡ files self.old }
        ensures write_faults { write_faults self.new ≡ write_faults self.old }
    {
        match self.read(name, u64::MAX) {
            Ok(bytes) => Ok(copy_part(&bytes, start, into)),
            // No file has more bytes than this limit.
            Err(ShelfAnswer::TooLong { .. }) => unreachable!(),
            Err(answer) => Err(answer),
        }
    }

    /// Makes a file hold exactly these bytes.
    fn write(&mut self, name: &str, bytes: &[u8]) -> Result<(), ShelfAnswer>
        requires { IsTrue (is_file_name name.now) }
        ensures leaves { WriteLeaves (files self.old) name.now bytes.now result (files self.new) }
        ensures failed { IsErrOf result ShelfAnswer.Failed → Rose (write_faults self.old) (write_faults self.new) }
        ensures later { write_faults self.old ≤ write_faults self.new }
        ensures read_faults { read_faults self.new ≡ read_faults self.old };

    /// Makes a file hold exactly the bytes of the bands that are left, one after another. No file changes where a band
    /// can't be made. A shelf that has no other way collects them and writes them.
    fn write_bands<B: Bands>(
        &mut self,
        alloc: Global,
        name: &str,
        bands: &mut B,
    ) -> Result<(), BandsAnswer<B::Refused>>
        requires { IsTrue (is_file_name name.now) }
        ensures leaves { BandsLeave (B.may_give bands.old) (files self.old) name.now result (files self.new) }
        ensures failed { IsErrOf result BandsAnswer.Failed → Rose (write_faults self.old) (write_faults self.new) }
        ensures refused { (why : B.Refused) → result ≡ Err (Refused why) → B.refuses bands.new why }
        ensures later { write_faults self.old ≤ write_faults self.new }
        ensures read_faults { read_faults self.new ≡ read_faults self.old }
    {
        let bytes = joined(alloc, bands)?;
        match self.write(name, &bytes) {
            Ok(()) => Ok(()),
            Err(ShelfAnswer::Failed) => Err(BandsAnswer::Failed),
            Err(ShelfAnswer::NoMemory) => Err(BandsAnswer::NoMemory),
            Err(ShelfAnswer::Absent | ShelfAnswer::TooLong { .. }) => unreachable!(),
        }
    }
}
