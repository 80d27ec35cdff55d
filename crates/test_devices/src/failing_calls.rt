//! For each kind of call of the devices in memory a few calls, of which none fails, and then each in turn.

use crate::check::check;
use crate::disk_steps::{read, write};
use crate::shelf_steps::{Read, bytes_of};
use outside_io::{
    MemShelf, MemSink, MemSwap, Shelf, ShelfAnswer, Sink, SinkAnswer, SwapAnswer, SwapDisk,
};
use std::alloc::Global;
use std::process::Abort;

/// Returns the number of the call that fails, counted from 1.
fn chosen(rt: &impl Abort, alloc: Global, call: u64) -> Vec<u64> {
    vec![in alloc; call].expect(rt, "memory")
}

/// The bytes of the files `one` and `two`.
const ONE: &[u8] = &[1];

const TWO: &[u8] = &[2, 2];

/// Returns a shelf of these two files, of which the reads and writes of these numbers fail.
fn shelf(rt: &impl Abort, alloc: Global, fail_read: u64, fail_write: u64) -> MemShelf {
    let mut files = Vec::new(alloc);
    for (name, bytes) in [("one", ONE), ("two", TWO)] {
        let name = name.to_string(alloc).expect(rt, "memory");
        let bytes = bytes.to_vec(alloc).expect(rt, "memory");
        files.push((name, bytes)).expect(rt, "memory");
    }
    let reads = chosen(rt, alloc, fail_read);
    let writes = chosen(rt, alloc, fail_write);
    MemShelf::new(alloc, files, reads, writes)
}

/// Returns what a call answers, by its index, where the one of a number counted from 1 fails.
fn answer_of<T: Copy, E: Copy>(
    index: usize,
    failing: u64,
    answer: Result<T, E>,
    failed: E,
) -> Result<T, E> {
    if (index as u64).saturating_add(1) == failing {
        Err(failed)
    } else {
        answer
    }
}

/// Checks the bytes of a file of a shelf, of which a call fails.
fn check_file(rt: &impl Abort, shelf: &MemShelf, name: &str, wanted: &[u8], failing: u64) {
    check(rt, (name, failing), shelf.get(name), Some(wanted));
}

/// Four reads, and what each returns where it doesn't fail.
const READS: [(&str, u64, Read<'_>); 4] = [
    ("one", 1, Ok(ONE)),
    ("none", 9, Err(ShelfAnswer::Absent)),
    ("two", 1, Err(ShelfAnswer::TooLong { taken: 2 })),
    ("two", 9, Ok(TWO)),
];

/// Makes the reads on a shelf, of which one fails.
fn read_each<S: Shelf>(rt: &impl Abort, shelf: &mut S, failing: u64) {
    for (index, (name, limit, wanted)) in READS.iter().enumerate() {
        assert!(rt; outside_io::is_file_name(name.as_bytes()));
        let answer = shelf.read(name, *limit);
        let wanted = answer_of(index, failing, *wanted, ShelfAnswer::Failed);
        check(rt, (index, failing), bytes_of(&answer), wanted);
    }
}

#[test]
fn each_read_of_a_shelf_fails_in_turn(rt: HostRuntime) {
    for failing in 0..=5 {
        let mut shelf = shelf(&rt, rt.alloc(), failing, 0);
        read_each(&rt, &mut shelf, failing);
        check_file(&rt, &shelf, "one", ONE, failing);
        check_file(&rt, &shelf, "two", TWO, failing);
    }
}

/// Writes a new file, writes it again, empties an old file, and writes a second new one.
const WRITES: [(&str, &[u8]); 4] = [
    ("new", &[3, 4, 5]),
    ("new", &[6, 7, 8, 9]),
    ("two", &[]),
    ("last", &[5]),
];

/// The write that fails, and what the files `new`, `two` and `last` then have.
const WRITTEN: [(u64, &[u8], &[u8], &[u8]); 6] = [
    (0, &[6, 7, 8, 9], &[], &[5]),
    (1, &[6, 7, 8, 9], &[], &[5]),
    (2, &[6, 7], &[], &[5]),
    (3, &[6, 7, 8, 9], &[], &[5]),
    (4, &[6, 7, 8, 9], &[], &[]),
    (5, &[6, 7, 8, 9], &[], &[5]),
];

/// Makes the writes on a shelf, of which one fails.
fn write_each<S: Shelf>(rt: &impl Abort, shelf: &mut S, failing: u64) {
    for (index, (name, bytes)) in WRITES.iter().enumerate() {
        assert!(rt; outside_io::is_file_name(name.as_bytes()));
        let wanted = answer_of(index, failing, Ok(()), ShelfAnswer::Failed);
        check(rt, (index, failing), shelf.write(name, bytes), wanted);
    }
}

#[test]
fn each_write_of_a_shelf_fails_in_turn(rt: HostRuntime) {
    for (failing, new, two, last) in &WRITTEN {
        let mut shelf = shelf(&rt, rt.alloc(), 0, *failing);
        write_each(&rt, &mut shelf, *failing);
        check_file(&rt, &shelf, "one", ONE, *failing);
        check_file(&rt, &shelf, "new", new, *failing);
        check_file(&rt, &shelf, "two", two, *failing);
        check_file(&rt, &shelf, "last", last, *failing);
    }
}

/// The pieces that are put.
const PIECES: [&[u8]; 4] = [b"ab", b"cde", b"", b"fghi"];

/// The put that fails, and what the sink then has.
const PUT: [(u64, &[u8]); 6] = [
    (0, b"abcdefghi"),
    (1, b"acdefghi"),
    (2, b"abcfghi"),
    (3, b"abcdefghi"),
    (4, b"abcdefg"),
    (5, b"abcdefghi"),
];

/// Puts the pieces into a sink, of which one fails.
fn put_each<S: Sink>(rt: &impl Abort, sink: &mut S, failing: u64) {
    for (index, piece) in PIECES.iter().enumerate() {
        let wanted = answer_of(index, failing, Ok(()), SinkAnswer::Failed);
        check(rt, (index, failing), sink.put(piece), wanted);
    }
}

#[test]
fn each_put_of_a_sink_fails_in_turn(rt: HostRuntime) {
    for (failing, written) in &PUT {
        let chosen = chosen(&rt, rt.alloc(), *failing);
        let mut sink = MemSink::new(rt.alloc(), chosen);
        put_each(&rt, &mut sink, *failing);
        check(&rt, failing, sink.bytes(), *written);
    }
}

/// The block that is written, and the byte that fills it.
const BLOCK_WRITES: [(u32, u8); 3] = [(0, 7), (1, 8), (0, 9)];

/// The write that fails, and the bytes that then fill both blocks. A write that fails fills its
/// block with EE.
const BLOCKS: [(u64, u8, u8); 5] = [(0, 9, 8), (1, 9, 8), (2, 9, 0xEE), (3, 0xEE, 8), (4, 9, 8)];

/// Returns a disk of so many blocks, of which the reads and writes of these numbers fail.
fn disk(rt: &impl Abort, alloc: Global, blocks: u32, fail_read: u64, fail_write: u64) -> MemSwap {
    let reads = chosen(rt, alloc, fail_read);
    let writes = chosen(rt, alloc, fail_write);
    MemSwap::new(alloc, blocks.min(1 << 20), reads, writes).expect(rt, "memory")
}

/// Writes the blocks of a disk, of which one write fails, and checks both.
fn write_blocks<D: SwapDisk>(rt: &impl Abort, disk: &mut D, failing: u64, both: [u8; 2]) {
    for (index, (block, fill)) in BLOCK_WRITES.iter().enumerate() {
        let wanted = answer_of(index, failing, Ok(()), SwapAnswer::Failed);
        check(rt, (index, failing), write(rt, disk, *block, *fill), wanted);
    }
    let [first, second] = both;
    check(rt, "size", disk.size(), 2);
    check(rt, (0, failing), read(rt, disk, 0), Ok(first));
    check(rt, (1, failing), read(rt, disk, 1), Ok(second));
}

#[test]
fn each_write_of_a_swap_disk_fails_in_turn(rt: HostRuntime) {
    for (failing, first, second) in &BLOCKS {
        let mut disk = disk(&rt, rt.alloc(), 2, 0, *failing);
        write_blocks(&rt, &mut disk, *failing, [*first, *second]);
    }
}

/// Writes a block and reads it three times, of which one read fails.
fn read_blocks<D: SwapDisk>(rt: &impl Abort, disk: &mut D, failing: u64) {
    check(rt, "size", disk.size(), 1);
    check(rt, "write", write(rt, disk, 0, 7), Ok(()));
    for index in 0..3 {
        let wanted = answer_of(index, failing, Ok(7), SwapAnswer::Failed);
        check(rt, (index, failing), read(rt, disk, 0), wanted);
    }
}

#[test]
fn each_read_of_a_swap_disk_fails_in_turn(rt: HostRuntime) {
    for failing in 0..=4u64 {
        let mut disk = disk(&rt, rt.alloc(), 1, failing, 0);
        read_blocks(&rt, &mut disk, failing);
    }
}
