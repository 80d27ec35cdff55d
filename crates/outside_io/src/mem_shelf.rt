//! A shelf in memory.

ghost use Rattle.std.specs.Prelude.{◌≡◌, ◌≤◌, ◌↔◌, Some, Ok, Err, IfOk, IsTrue, IsErrOf, if◌then◌else◌, length, reverse};
ghost use Rattle.std.specs.Option.{option_copied};
ghost use Rattle.outside_io.specs.Calls.{no_calls, next_fails, after_call};
ghost use Rattle.outside_io.specs.Files.{file};
ghost use Rattle.outside_io.specs.Shelf.{Answers, GivesPart, TakesAtMost};
ghost use Rattle.outside_io.specs.{MemShelf.Stores, StoredFiles.files_of};

use crate::failing_calls::{FailingCalls, kept};
use crate::shelf::{Shelf, ShelfAnswer};
use crate::stored_files::StoredFiles;
use std::alloc::Global;
use std::marker::Model;
use std::thread::Threads;
use worker_pieces::Workers;

/// Keeps files in memory, under whatever names. Fails at chosen calls; a write that fails keeps the first half of the
/// bytes, rounded down. A clause sees the files, and of reads and of writes which calls fail and how many did.
#[derive(Drop)]
pub struct MemShelf {
    files: StoredFiles,
    reads: FailingCalls,
    writes: FailingCalls,
}

impl Model for MemShelf {
    ghost use Rattle.outside_io.specs.MemShelf.{ShelfState, shelf_code};

    ghost Value = { ShelfState };

    ghost coded = { shelf_code };

    ghost view = { λ shelf. record { files = shelf.files; reads = shelf.reads; writes = shelf.writes } };
}

impl MemShelf {
    /// Returns a shelf with these files, of which the later counts where a name is there twice. The reads and
    /// writes of these numbers, each counted from 1, fail.
    pub fn new(
        alloc: Global,
        files: Vec<(String, Vec<u8>)>,
        fail_reads: Vec<u64>,
        fail_writes: Vec<u64>,
    ) -> MemShelf
        ensures files { result.files ≡ files_of (reverse files.items) }
        ensures reads { result.reads ≡ no_calls fail_reads.items }
        ensures writes { result.writes ≡ no_calls fail_writes.items }
    {
        MemShelf {
            files: StoredFiles::new(alloc, files),
            reads: FailingCalls::new(fail_reads),
            writes: FailingCalls::new(fail_writes),
        }
    }

    /// Returns the bytes of a file.
    pub fn get(&self, name: &str) -> Option<&[u8]>
        ensures { option_copied result ≡ file self.now.files name.now }
    {
        self.files.get(name)
    }
}

impl Shelf for MemShelf {
    ghost files = { λ shelf. Some shelf.files };

    ghost read_faults = { λ shelf. shelf.reads.faults };

    ghost write_faults = { λ shelf. shelf.writes.faults };

    fn read(&mut self, name: &str, limit: u64) -> Result<Vec<u8>, ShelfAnswer>
        ensures gives { Answers (file self.old.files name.now) limit result }
        ensures within { TakesAtMost limit result }
        ensures later { self.old.reads.faults ≤ self.new.reads.faults }

        // It fails at the chosen calls and at no others, and changes nothing but their count.
        ensures chosen { IsErrOf result ShelfAnswer.Failed ↔ IsTrue (next_fails self.old.reads) }
        ensures after { self.new ≡ record self.old { reads = after_call self.old.reads } }
    {
        if self.reads.fails() {
            return Err(ShelfAnswer::Failed);
        }
        self.files.read(name, limit)
    }

    fn read_part<R: Threads + Sync>(
        &mut self,
        name: &str,
        start: u64,
        into: &mut [u8],
        _workers: Workers<'_, R>,
    ) -> Result<usize, ShelfAnswer>
        ensures gives { GivesPart (file self.old.files name.now) start (length into.old) into.new result }
        ensures within { IfOk result (λ count. count ≤ length into.new) }
        ensures length { length into.new ≡ length into.old }
        ensures later { self.old.reads.faults ≤ self.new.reads.faults }

        // It fails at the chosen calls and at no others, and changes nothing but their count.
        ensures chosen { IsErrOf result ShelfAnswer.Failed ↔ IsTrue (next_fails self.old.reads) }
        ensures after { self.new ≡ record self.old { reads = after_call self.old.reads } }
    {
        if self.reads.fails() {
            return Err(ShelfAnswer::Failed);
        }
        self.files.read_part(name, start, into)
    }

    fn write(&mut self, name: &str, bytes: &[u8]) -> Result<(), ShelfAnswer>
        ensures { Stores name.now bytes.now result self.old self.new }
    {
        let fails = self.writes.fails();
        self.files.put(name, kept(fails, bytes))?;
        write_answer(fails)
    }
}

/// Returns what a write answers that had its memory.
fn write_answer(fails: bool) -> Result<(), ShelfAnswer>
    ensures { result ≡ (if fails then Err ShelfAnswer.Failed else Ok tt) }
{
    if fails {
        Err(ShelfAnswer::Failed)
    } else {
        Ok(())
    }
}
