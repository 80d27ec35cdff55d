//! A swap disk in a file.

ghost use Rattle.std.specs.Prelude.{◌≡◌, ◌+◌, ◌/◌, ◌%◌, ◌<◌, ◌≤◌, ◌^◌, [], None, length};
ghost use Rattle.outside_io.specs.{Faults.faults_after, Swap.has_failed};

use crate::file_parts::fill_at;
use crate::stored_blocks::BLOCK_BYTES;
use crate::swap::{SwapAnswer, SwapDisk};
use std::fs::{File, Files, OpenFile};
use std::io::ErrorKind;
use std::marker::Model;
use std::os::unix::fs::FileExt;
use std::{fs, io};

/// The name of the file in the current folder.
const FILE_NAME: &str = ".tilegraph-swap";

/// How often the file is made at most, where another of its name is there each time.
const MAX_TRIES: u32 = 64;

/// The blocks of a file `.tilegraph-swap` of the current folder, which is made afresh at the first
/// block call, and is as long as the blocks that were written. It doesn't expose what they hold: a clause sees how many
/// they are, and how many calls failed.
#[derive(Drop)]
pub struct FileSwap<R: Files + Drop> {
    rt: R,
    blocks: u32,
    file: Option<R::File>,
    faults: u64,
}

impl<R: Files + Drop> Model for FileSwap<R> {
    ghost use Rattle.std.specs.Prelude.{◌≤◌, ◌^◌};
    ghost use Rattle.outside_io.specs.FileSwap.{FileSwapState};

    ghost Value = { FileSwapState };

    ghost view = { λ swap. record { block_count = swap.blocks; faults = swap.faults } };

    ghost invariant = { λ swap. swap.blocks ≤ 2 ^ 20 };
}

impl<R: Files + Drop> FileSwap<R> {
    /// Returns a disk of this many blocks. Its file isn't made yet.
    pub fn new(rt: R, blocks: u32) -> FileSwap<R>
        requires { blocks ≤ 2 ^ 20 }
        ensures { result ≡ record { block_count = blocks; faults = 0 } }
    {
        FileSwap {
            rt,
            blocks,
            file: None,
            faults: 0,
        }
    }

    /// Counts an I/O error, where there was one.
    fn answer(&mut self, done: io::Result<()>) -> Result<(), SwapAnswer>
        ensures later { self.old.faults ≤ self.new.faults }
        ensures counted { self.new ≡ record self.old { faults = faults_after (has_failed result) self.old.faults } }
    {
        match done {
            Ok(()) => Ok(()),
            Err(error) if error.kind() == ErrorKind::OutOfMemory => Err(SwapAnswer::NoMemory),
            Err(_) => {
                self.faults = self.faults.saturating_add(1);
                Err(SwapAnswer::Failed)
            }
        }
    }
}

impl<R: Files + Drop> FileSwap<R>
where
    R::File: FileExt,
{
    /// Reads the file's bytes from block `first` on, as many as the slice has room for.
    fn read_at(&mut self, first: u32, into: &mut [u8]) -> Result<(), SwapAnswer>
        ensures later { self.old.faults ≤ self.new.faults }
        ensures counted { self.new ≡ record self.old { faults = faults_after (has_failed result) self.old.faults } }
    {
        let done = self
            .file
            .get_or_try_insert_with(|| make_file(&self.rt))
            .and_then(|file| read_blocks_at(file, first, into));
        self.answer(done)
    }

    /// Writes these bytes to the file, from block `first` on.
    fn write_at(&mut self, first: u32, bytes: &[u8]) -> Result<(), SwapAnswer>
        ensures later { self.old.faults ≤ self.new.faults }
        ensures counted { self.new ≡ record self.old { faults = faults_after (has_failed result) self.old.faults } }
    {
        let done = self
            .file
            .get_or_try_insert_with(|| make_file(&self.rt))
            .and_then(|file| file.write_all_at(bytes, offset(first)));
        self.answer(done)
    }
}

impl<R: Files + Drop> SwapDisk for FileSwap<R>
where
    R::File: FileExt,
{
    ghost blocks = { λ _. None };

    ghost faults = { λ swap. swap.faults };

    ghost block_count = { λ swap. swap.block_count };

    ghost loans = { λ _. [] };

    ghost exposes_all = { λ _. tt };

    fn size(&self) -> u32 {
        self.blocks
    }

    fn read_block(&mut self, n: u32, into: &mut [u8]) -> Result<(), SwapAnswer>
        requires known { n < self.old.block_count }
        requires whole { length into.old ≡ 4096 }
        ensures later { self.old.faults ≤ self.new.faults }

        // A call that failed is counted, and no other.
        ensures counted { self.new ≡ record self.old { faults = faults_after (has_failed result) self.old.faults } }
    {
        self.read_at(n, into)
    }

    fn write_block(&mut self, n: u32, bytes: &[u8]) -> Result<(), SwapAnswer>
        requires known { n < self.old.block_count }
        requires whole { length bytes.now ≡ 4096 }
        ensures later { self.old.faults ≤ self.new.faults }

        // A call that failed is counted, and no other.
        ensures counted { self.new ≡ record self.old { faults = faults_after (has_failed result) self.old.faults } }
    {
        self.write_at(n, bytes)
    }

    fn read_blocks(&mut self, first: u32, into: &mut [u8]) -> Result<(), SwapAnswer>
        requires known { first + length into.old / 4096 ≤ self.old.block_count }
        requires bound { first + length into.old / 4096 ≤ 2 ^ 20 }
        requires whole { length into.old % 4096 ≡ 0 }
        ensures later { self.old.faults ≤ self.new.faults }

        // A call that failed is counted once, however many blocks it has, and no other.
        ensures counted { self.new ≡ record self.old { faults = faults_after (has_failed result) self.old.faults } }
    {
        self.read_at(first, into)
    }

    fn write_blocks(&mut self, first: u32, bytes: &[u8]) -> Result<(), SwapAnswer>
        requires known { first + length bytes.now / 4096 ≤ self.old.block_count }
        requires bound { first + length bytes.now / 4096 ≤ 2 ^ 20 }
        requires whole { length bytes.now % 4096 ≡ 0 }
        ensures later { self.old.faults ≤ self.new.faults }

        // A call that failed is counted once, however many blocks it has, and no other.
        ensures counted { self.new ≡ record self.old { faults = faults_after (has_failed result) self.old.faults } }
    {
        self.write_at(first, bytes)
    }
}

/// Returns where block `n` begins in the file.
fn offset(n: u32) -> u64 {
    u64::from(n) * BLOCK_BYTES as u64
}

/// Reads blocks of the file, from block `first` on. The file ends where the last block that was written does, and those
/// after it are zeros, as those in between that no call wrote.
fn read_blocks_at<F: FileExt>(file: &F, first: u32, into: &mut [u8]) -> io::Result<()> {
    let filled = fill_at(file, offset(first), into)?;
    into[filled..].fill(0);
    Ok(())
}

/// Makes the file of the blocks afresh, without a block. Its name is taken away at once, so that nothing is left of
/// it when the program ends, however it ends.
///
/// A file of that name may be in use by another run, or be a link to another file: it is never written to, but its name
/// is taken away, so that a new file may have it. No two runs have one file, since each made its own.
fn make_file<R: Files>(rt: &R) -> io::Result<R::File> {
    for _ in 0..MAX_TRIES {
        match File::create_new(rt, FILE_NAME) {
            Ok(file) => {
                remove_name(rt)?;
                return Ok(file);
            }
            // What can't be removed is met again.
            Err(error) if error.kind() == ErrorKind::AlreadyExists => {
                let _ = remove_name(rt);
            }
            Err(error) => return Err(error),
        }
    }
    Err(io::Error::from(ErrorKind::AlreadyExists))
}

/// Takes the name of the file away, where it is still there: another run that makes its own file may have done so.
fn remove_name<R: Files>(rt: &R) -> io::Result<()> {
    match fs::remove_file(rt, FILE_NAME) {
        Err(error) if error.kind() == ErrorKind::NotFound => Ok(()),
        answer => answer,
    }
}
