//! The files of the current folder as a shelf.

ghost use Rattle.std.specs.Prelude.{◌≡◌, ◌<◌, ◌≤◌, ◌⊎◌, None, Err, IfErr, IfOk, IsTrue, Ok, length, vec_len};
ghost use Rattle.std.specs.Thread.{IsSync};
ghost use Rattle.outside_io.specs.Bands.{BandsLeave, has_failed as have_failed};
ghost use Rattle.outside_io.specs.Shelf.{TakesAtMost, WriteLeaves, has_failed};
ghost use Rattle.outside_io.specs.declared.bands.BandsAnswer.TheVariants.{Refused};
ghost use Rattle.outside_io.specs.{Faults.faults_after, FileName.is_file_name, FolderShelf.ShelfFaults};

use crate::bands::{Bands, BandsAnswer};
use crate::file_parts::read_at;
use crate::new_files::{write_each_whole, write_whole};
use crate::open_files::{MAX_INTERRUPTIONS, open_file, refusal};
use crate::shelf::{Shelf, ShelfAnswer};
use std::alloc::Global;
use std::fs::{File, Files, OpenFile};
use std::io;
use std::io::{ErrorKind, Read};
use std::marker::Model;
use std::thread::Threads;
use worker_pieces::Workers;

/// How many bytes a turn reads of a file of the length that the system says. So many stay in the processor's nearer
/// caches from when new memory is made zero until they are read into it.
const READ_BYTES: usize = 128 << 10;

/// The files of the current folder. It doesn't expose what they hold: a clause sees how many reads failed, and how many writes.
#[derive(Drop)]
pub struct FolderShelf<R: Files + AllocGlobal + Drop> {
    rt: R,
    read_faults: u64,
    write_faults: u64,
}

impl<R: Files + AllocGlobal + Drop> Model for FolderShelf<R> {
    ghost Value = { ShelfFaults };

    ghost view = { λ shelf. record { reads = shelf.read_faults; writes = shelf.write_faults } };
}

impl<R: Files + AllocGlobal + Drop> FolderShelf<R> {
    /// Returns the current folder of this runtime, of which no read and no write has failed yet.
    pub fn new(rt: R) -> FolderShelf<R>
        ensures { result ≡ record { reads = 0; writes = 0 } }
    {
        FolderShelf {
            rt,
            read_faults: 0,
            write_faults: 0,
        }
    }
}

impl<R: Files<File = File> + AllocGlobal + Drop> Shelf for FolderShelf<R> {
    ghost files = { λ _. None };

    ghost read_faults = { λ faults. faults.reads };

    ghost write_faults = { λ faults. faults.writes };

    fn read(&mut self, name: &str, limit: u64) -> Result<Vec<u8>, ShelfAnswer>
        requires { IsTrue (is_file_name name.now) }
        ensures within { TakesAtMost limit result }
        ensures later { self.old.reads ≤ self.new.reads }

        // A read that failed is counted, and no other.
        ensures counted { self.new ≡ record self.old { reads = faults_after (has_failed result) self.old.reads } }
    {
        let answer = read_file(&self.rt, name, limit);
        count_failed(&mut self.read_faults, &answer);
        answer
    }

    fn read_part<T: Threads + Sync>(
        &mut self,
        name: &str,
        start: u64,
        into: &mut [u8],
        workers: Workers<'_, T>,
    ) -> Result<usize, ShelfAnswer>
        requires name { IsTrue (is_file_name name.now) }
        requires threads { IsSync T.row }
        ensures within { IfOk result (λ count. count ≤ length into.new) }
        ensures length { length into.new ≡ length into.old }
        ensures later { self.old.reads ≤ self.new.reads }

        // A read that failed is counted, and no other.
        ensures counted { self.new ≡ record self.old { reads = faults_after (has_failed result) self.old.reads } }
    {
        let answer = read_file_part(&self.rt, name, start, into, workers);
        count_failed(&mut self.read_faults, &answer);
        answer
    }

    fn write(&mut self, name: &str, bytes: &[u8]) -> Result<(), ShelfAnswer>
        requires { IsTrue (is_file_name name.now) }
        ensures leaves { WriteLeaves None name.now bytes.now result None }
        ensures later { self.old.writes ≤ self.new.writes }

        // A write that failed is counted, and no other.
        ensures counted { self.new ≡ record self.old { writes = faults_after (has_failed result) self.old.writes } }
    {
        let answer = write_answer(write_whole(&self.rt, name, bytes));
        count_failed(&mut self.write_faults, &answer);
        answer
    }

    fn write_bands<B: Bands>(
        &mut self,
        _alloc: Global,
        name: &str,
        bands: &mut B,
    ) -> Result<(), BandsAnswer<B::Refused>>
        requires { IsTrue (is_file_name name.now) }
        ensures leaves { BandsLeave (B.may_give bands.old) None name.now result None }
        ensures refused { (why : B.Refused) → result ≡ Err (Refused why) → B.refuses bands.new why }
        ensures later { self.old.writes ≤ self.new.writes }

        // A write that failed is counted, and no other.
        ensures counted { self.new ≡ record self.old { writes = faults_after (have_failed result) self.old.writes } }
    {
        let answer = write_each_whole(&self.rt, name, bands);
        if let Err(BandsAnswer::Failed) = answer {
            self.write_faults = self.write_faults.saturating_add(1);
        }
        answer
    }
}

/// Counts an answer that the device failed.
fn count_failed<T>(faults: &mut u64, answer: &Result<T, ShelfAnswer>)
    ensures later { faults.old ≤ faults.new }
    ensures counted { faults.new ≡ faults_after (has_failed answer.now) faults.old }
{
    if let Err(ShelfAnswer::Failed) = answer {
        *faults = faults.saturating_add(1);
    }
}

/// Returns what a shelf answers to a write that ended so.
fn write_answer(done: io::Result<()>) -> Result<(), ShelfAnswer>
    ensures { (result ≡ Ok tt) ⊎ ((result ≡ Err ShelfAnswer.Failed) ⊎ (result ≡ Err ShelfAnswer.NoMemory)) }
{
    done.map_err(refusal)
}

/// Reads the bytes of a file of the current folder from a position on, as many as the slice has room for.
fn read_file_part<R: Files<File = File>, T: Threads + Sync>(
    rt: &R,
    name: &str,
    start: u64,
    into: &mut [u8],
    workers: Workers<'_, T>,
) -> Result<usize, ShelfAnswer>
    ensures within { IfOk result (λ count. count ≤ length into.new) }
    ensures length { length into.new ≡ length into.old }
{
    let file = open_file(rt, name)?;
    read_at(&file, start, into, workers)
}

/// Reads a file of the current folder.
fn read_file<R: Files + AllocGlobal>(rt: &R, name: &str, limit: u64) -> Result<Vec<u8>, ShelfAnswer>
    ensures within { TakesAtMost limit result }
{
    let file = open_file(rt, name)?;
    let most = limit.saturating_add(1);
    let bytes = read_prefix(rt.alloc(), file, most).map_err(refusal)?;
    let taken = bytes.len() as u64;
    if taken > limit {
        Err(ShelfAnswer::TooLong { taken })
    } else {
        Ok(bytes)
    }
}

/// Reads a file from its beginning, at most `most` bytes of it.
fn read_prefix<F: Read + OpenFile + Drop>(
    alloc: Global,
    mut file: F,
    most: u64,
) -> io::Result<Vec<u8>>
    ensures { IfOk result (λ bytes. vec_len bytes ≤ most) }
{
    let room = file.metadata()?.len().saturating_add(1).min(most);
    let mut bytes = Vec::with_capacity(alloc, room as usize)?;
    let filled = fill(&mut file, &mut bytes, most as usize)?;
    bytes.truncate(filled);
    Ok(bytes)
}

/// Reads a file into the first of `bytes`, to the file's end or until `most` bytes are read, and
/// returns how many were. `bytes` grows turn by turn, and past its capacity where the file is longer than that.
/// Each turn but the last takes at least one byte.
fn fill<F: Read>(file: &mut F, bytes: &mut Vec<u8>, most: usize) -> io::Result<usize>
    requires { vec_len bytes.old ≤ most }
    ensures filled { IfOk result (λ filled. filled ≤ vec_len bytes.new) }
    ensures most { vec_len bytes.new ≤ most }
{
    let mut filled = 0;
    while filled < most {
        if filled >= bytes.len() {
            let len = grown_length(filled, bytes.capacity(), most);
            bytes.resize(len, 0)?;
        }
        let count = read_some(file, &mut bytes[filled..])?;
        if count == 0 {
            return Ok(filled);
        }
        filled += count;
    }
    Ok(filled)
}

/// Returns how long a vector of this capacity is to be once so many of its bytes are filled: within the capacity
/// by `READ_BYTES` at most, and past it twice as long.
fn grown_length(filled: usize, capacity: usize, most: usize) -> usize
    requires { filled < most }
    ensures more { filled < result }
    ensures most { result ≤ most }
{
    let grown = if filled < capacity {
        filled.saturating_add(READ_BYTES).min(capacity)
    } else {
        filled.saturating_mul(2).max(1)
    };
    grown.min(most)
}

/// Reads once, and again where a signal interrupted it, at most `MAX_INTERRUPTIONS` times.
fn read_some<F: Read>(file: &mut F, into: &mut [u8]) -> io::Result<usize>
    ensures read { IfOk result (λ count. count ≤ length into.old) }
    ensures length { length into.new ≡ length into.old }
{
    for _ in 0..MAX_INTERRUPTIONS {
        match file.read(into) {
            Err(error) if error.kind() == ErrorKind::Interrupted => {}
            answer => return answer,
        }
    }
    Err(io::Error::from(ErrorKind::Interrupted))
}
