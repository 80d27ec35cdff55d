//! Files of a folder that are read in several turns, or by several threads.

ghost use Rattle.std.specs.Prelude.{IsTrue};
ghost use Rattle.outside_io.specs.FileName.{is_file_name};

use crate::check::check;
use outside_io::{FolderShelf, Shelf, ShelfAnswer};
use std::alloc::Global;
use std::fs;
use std::process::Abort;
use std::thread::Threads;
use worker_pieces::Workers;

/// Returns so many bytes, which no turn repeats: the numbers from 0 to 250 again and again.
fn long_bytes(rt: &impl Abort, alloc: Global, len: u64) -> Vec<u8> {
    let mut bytes = Vec::new(alloc);
    for index in 0..len {
        bytes.push((index % 251) as u8).expect(rt, "memory");
    }
    bytes
}

/// How long files are that are read in several turns of 128 KiB, or in turns that are full.
const LONG_FILES: [u64; 3] = [131_072, 262_144, 300_001];

/// Writes a file of so many bytes, and reads it, and where it has one byte too many.
fn check_turns<S: Shelf>(rt: &impl Abort, shelf: &mut S, name: &str, bytes: &[u8], len: u64)
    requires { IsTrue (is_file_name name.now) }
{
    assert!(rt; shelf.write(name, bytes) == Ok(()), "{len} bytes");
    let whole = shelf.read(name, len).expect(rt, "the file");
    assert!(rt; whole.as_slice() == bytes, "{len} bytes");
    let long = shelf.read(name, len.saturating_sub(1)).err();
    check(rt, len, long, Some(ShelfAnswer::TooLong { taken: len }));
}

#[test]
fn files_of_several_turns(rt: HostRuntime) {
    let mut shelf = FolderShelf::new(&rt);
    let name = "folder_shelf.long";
    for len in &LONG_FILES {
        let bytes = long_bytes(&rt, rt.alloc(), *len);
        check_turns(&rt, &mut shelf, name, &bytes, *len);
    }
    fs::remove_file(&rt, name).expect(&rt, "the file");
}

/// How many bytes the long file has: as many as several threads read.
const LONG: usize = 3_000_001;

/// Where a part of it begins.
const BEGUN: usize = 1_000_003;

/// Numbers of threads.
const COUNTS: [u32; 4] = [1, 2, 3, 16];

/// Reads a file of these bytes from a position on, past its end, by so many workers.
fn check_rest<S: Shelf>(
    rt: &(impl Abort + Threads + Sync),
    shelf: &mut S,
    name: &str,
    bytes: &[u8],
    begun: usize,
    into: &mut [u8],
    count: u32,
)
    requires { IsTrue (is_file_name name.now) }
{
    let read = shelf.read_part(name, begun as u64, into, Workers::new(rt, count));
    check(rt, (count, begun), read, Ok(LONG.saturating_sub(begun)));
    let left = bytes.get(begun..).expect(rt, "a long file");
    assert!(rt; into.starts_with(left), "{count} workers from {begun} on");
}

/// Writes a file, and reads it whole and from its middle, by each number of workers.
fn check_long<S: Shelf>(
    rt: &(impl Abort + Threads + Sync),
    shelf: &mut S,
    name: &str,
    bytes: &[u8],
    into: &mut [u8],
)
    requires { IsTrue (is_file_name name.now) }
{
    assert!(rt; shelf.write(name, bytes) == Ok(()));
    for count in &COUNTS {
        check_rest(rt, shelf, name, bytes, 0, into, *count);
        check_rest(rt, shelf, name, bytes, BEGUN, into, *count);
    }
}

#[test]
fn pieces_of_a_part_are_read_by_several_threads(rt: HostRuntime) {
    let name = "file_parts.long";
    let bytes = long_bytes(&rt, rt.alloc(), LONG as u64);
    let mut into = vec![in rt.alloc(); 0; LONG + 7].expect(&rt, "memory");
    check_long(&rt, &mut FolderShelf::new(&rt), name, &bytes, &mut into);
    fs::remove_file(&rt, name).expect(&rt, "the file");
}
