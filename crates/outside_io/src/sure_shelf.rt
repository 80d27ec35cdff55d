//! A shelf in memory that never fails.

ghost use Rattle.std.specs.Prelude.{◌≡◌, ◌≢◌, ◌≤◌, Some, Err, IfOk, IsOkUnless, is_ok, if◌then◌else◌, length, reverse};
ghost use Rattle.std.specs.Option.{option_copied};
ghost use Rattle.outside_io.specs.Files.{file, filed};
ghost use Rattle.outside_io.specs.Shelf.{Answers, GivesPart, TakesAtMost};
ghost use Rattle.outside_io.specs.StoredFiles.{files_of};

use crate::shelf::{Shelf, ShelfAnswer};
use crate::stored_files::StoredFiles;
use std::alloc::Global;
use std::marker::Model;
use std::thread::Threads;
use worker_pieces::Workers;

/// Keeps files in memory, under whatever names, and never fails. A clause sees the files.
#[derive(Drop)]
pub struct SureShelf {
    files: StoredFiles,
}

impl Model for SureShelf {
    ghost use Rattle.outside_io.specs.{Files.Files, StoredFiles.files_code};

    ghost Value = { Files };

    ghost coded = { files_code };

    ghost view = { λ shelf. shelf.files };
}

impl SureShelf {
    /// Returns a shelf with these files, of which the later counts where a name is there twice.
    pub fn new(alloc: Global, files: Vec<(String, Vec<u8>)>) -> SureShelf
        ensures { result ≡ files_of (reverse files.items) }
    {
        SureShelf {
            files: StoredFiles::new(alloc, files),
        }
    }

    /// Returns the bytes of a file.
    pub fn get(&self, name: &str) -> Option<&[u8]>
        ensures { option_copied result ≡ file self.now name.now }
    {
        self.files.get(name)
    }
}

impl Shelf for SureShelf {
    ghost files = { λ files. Some files };

    ghost read_faults = { λ _. 0 };

    ghost write_faults = { λ _. 0 };

    fn read(&mut self, name: &str, limit: u64) -> Result<Vec<u8>, ShelfAnswer>
        ensures gives { Answers (file self.old name.now) limit result }
        ensures within { TakesAtMost limit result }
        ensures sure { result ≢ Err ShelfAnswer.Failed }
        ensures same { self.new ≡ self.old }
    {
        self.files.read(name, limit)
    }

    fn read_part<R: Threads + Sync>(
        &mut self,
        name: &str,
        start: u64,
        into: &mut [u8],
        _workers: Workers<'_, R>,
    ) -> Result<usize, ShelfAnswer>
        ensures gives { GivesPart (file self.old name.now) start (length into.old) into.new result }
        ensures within { IfOk result (λ count. count ≤ length into.new) }
        ensures length { length into.new ≡ length into.old }
        ensures sure { result ≢ Err ShelfAnswer.Failed }
        ensures same { self.new ≡ self.old }
    {
        self.files.read_part(name, start, into)
    }

    fn write(&mut self, name: &str, bytes: &[u8]) -> Result<(), ShelfAnswer>
        ensures sure { IsOkUnless result ShelfAnswer.NoMemory }
        ensures written { self.new ≡ (if is_ok result then filed self.old name.now bytes.now else self.old) }
    {
        self.files.put(name, bytes)?;
        Ok(())
    }
}
