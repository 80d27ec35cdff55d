//! Files in memory.

ghost use Rattle.std.specs.Prelude.{◌≡◌, ◌≢◌, ◌≤◌, Err, IfOk, Some, if◌then◌else◌, is_ok, length, position, reverse};
ghost use Rattle.std.specs.Option.{option_copied};
ghost use Rattle.outside_io.specs.Files.{file, filed};
ghost use Rattle.outside_io.specs.Shelf.{Answers, GivesPart, TakesAtMost};
ghost use Rattle.outside_io.specs.StoredFiles.{has_name, files_of};

use crate::file_parts::copy_part;
use crate::shelf::ShelfAnswer;
use std::alloc::{AllocError, Global};
use std::marker::Model;

/// Files by their names.
#[derive(Drop)]
pub(crate) struct StoredFiles {
    alloc: Global,
    stored: Vec<(String, Vec<u8>)>,
}

impl Model for StoredFiles {
    ghost use Rattle.outside_io.specs.StoredFiles.{files_of, files_code};
    ghost use Rattle.outside_io.specs.Files.{Files};

    ghost Value = { Files };

    ghost coded = { files_code };

    ghost view = { λ files. files_of files.stored.items };
}

impl StoredFiles {
    /// Returns these files. Where a name is there twice, the later one counts.
    pub fn new(alloc: Global, mut files: Vec<(String, Vec<u8>)>) -> StoredFiles
        ensures { result ≡ files_of (reverse files.items) }
    {
        // The first one that is found counts, so that a write has one position to change.
        files.reverse();
        StoredFiles {
            alloc,
            stored: files,
        }
    }

    /// Returns the bytes of the file of a name.
    pub fn get(&self, name: &str) -> Option<&[u8]>
        ensures { option_copied result ≡ file self.now name.now }
    {
        let number = number_of(&self.stored, name)?;
        Some(&self.stored[number].1)
    }

    /// Makes a file hold these bytes. Changes nothing where no memory is left.
    pub fn put(&mut self, name: &str, bytes: &[u8]) -> Result<(), AllocError>
        ensures { self.new ≡ (if is_ok result then filed self.old name.now bytes.now else self.old) }
    {
        let bytes = Vec::from_slice(self.alloc, bytes)?;
        match number_of(&self.stored, name) {
            Some(number) => self.stored[number].1 = bytes,
            None => {
                let name = String::from_str(self.alloc, name)?;
                self.stored.push((name, bytes))?;
            }
        }
        Ok(())
    }

    /// Reads the bytes of a file from a position on, as many as the slice has room for; returns how many.
    pub fn read_part(&self, name: &str, start: u64, into: &mut [u8]) -> Result<usize, ShelfAnswer>
        ensures gives { GivesPart (file self.now name.now) start (length into.old) into.new result }
        ensures within { IfOk result (λ count. count ≤ length into.new) }
        ensures length { length into.new ≡ length into.old }
        ensures sure { result ≢ Err ShelfAnswer.Failed }
    {
        let Some(bytes) = self.get(name) else {
            return Err(ShelfAnswer::Absent);
        };
        Ok(copy_part(bytes, start, into))
    }

    /// Reads a file that has at most `limit` bytes.
    pub fn read(&self, name: &str, limit: u64) -> Result<Vec<u8>, ShelfAnswer>
        ensures gives { Answers (file self.now name.now) limit result }
        ensures within { TakesAtMost limit result }
        ensures sure { result ≢ Err ShelfAnswer.Failed }
    {
        let Some(bytes) = self.get(name) else {
            return Err(ShelfAnswer::Absent);
        };
        if bytes.len() as u64 > limit {
            return Err(ShelfAnswer::TooLong { taken: limit + 1 });
        }
        Ok(Vec::from_slice(self.alloc, bytes)?)
    }
}

/// Returns the index of the first file of a name.
fn number_of(files: &[(String, Vec<u8>)], name: &str) -> Option<usize>
    ensures { result ≡ position (has_name name.now) files.now }
{
    files.iter().position(|stored| name == stored.0.as_str())
}
