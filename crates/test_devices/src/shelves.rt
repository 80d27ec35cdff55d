//! Files of shelves, in memory and in a folder, that are written and read whole and in parts.

use crate::check::check;
use crate::plain_shelf::PlainShelf;
use crate::shelf_steps::Step::{self, Read, ReadPart, Write, WriteBands};
use crate::shelf_steps::make;
use outside_io::BandsAnswer::{self, Refused};
use outside_io::ShelfAnswer::{Absent, Failed, TooLong};
use outside_io::{FolderShelf, MemShelf, Shelf, SureShelf};
use std::alloc::Global;
use std::fs;
use std::fs::Files;
use std::os::unix::fs::symlink;
use std::process::Abort;
use std::thread::Threads;

/// A file that is written three times.
const FIVE: [Step; 9] = [
    Read(5, Err(Absent)),
    Write(&[1, 2, 3, 4, 5], Ok(())),
    Read(4, Err(TooLong { taken: 5 })),
    Read(5, Ok(&[1, 2, 3, 4, 5])),
    Read(u64::MAX, Ok(&[1, 2, 3, 4, 5])),
    Write(&[6], Ok(())),
    Read(5, Ok(&[6])),
    Write(&[], Ok(())),
    Read(0, Ok(&[])),
];

#[test]
fn the_current_folder(rt: HostRuntime) {
    let name = "folder_shelf.five";
    make(&rt, &mut FolderShelf::new(&rt), name, &FIVE);
    fs::remove_file(&rt, name).expect(&rt, "the file");
}

/// A file that is written once.
const ONCE: [Step; 3] = [
    Write(&[1, 2, 3, 4, 5], Ok(())),
    Read(4, Err(TooLong { taken: 5 })),
    Read(5, Ok(&[1, 2, 3, 4, 5])),
];

#[test]
fn a_sure_shelf(rt: HostRuntime) {
    let mut shelf = SureShelf::new(rt.alloc(), Vec::new(rt.alloc()));
    make(&rt, &mut shelf, "five", &ONCE);
    make(&rt, &mut shelf, "none", &[Read(4, Err(Absent))]);
}

/// A file that is a folder.
const FOLDER: [Step; 3] = [
    Read(5, Err(Failed)),
    Write(&[1], Err(Failed)),
    WriteBands(&[1], None, Err(BandsAnswer::Failed)),
];

#[test]
fn a_folder_is_no_file(rt: HostRuntime) {
    let name = "folder_shelf.folder";
    fs::create_dir(&rt, name).expect(&rt, "a folder");
    make(&rt, &mut FolderShelf::new(&rt), name, &FOLDER);
    fs::remove_dir(&rt, name).expect(&rt, "the folder");
}

#[test]
fn a_file_of_unknown_length(rt: HostRuntime) {
    let mut shelf = FolderShelf::new(&rt);
    let name = "folder_shelf.link";
    // The system says that this file has no bytes, and then gives some.
    symlink(&rt, "/proc/self/status", name).expect(&rt, "a link");
    make(
        &rt,
        &mut shelf,
        name,
        &[Read(9, Err(TooLong { taken: 10 }))],
    );
    let status = shelf.read(name, 1 << 20).expect(&rt, "the file");
    assert!(rt; status.starts_with(b"Name:"));
    fs::remove_file(&rt, name).expect(&rt, "the file");
}

/// A part of a file that isn't there.
const NO_PART: [Step; 1] = [ReadPart(0, 2, Err(Absent))];

/// A file that is written in bands, over an older one, and read from a position on into room for so many bytes.
const PARTS: [Step; 12] = [
    Write(b"abcdefghijkl", Ok(())),
    WriteBands(b"", None, Ok(())),
    Read(9, Ok(b"")),
    WriteBands(b"abcdefgh", None, Ok(())),
    Read(9, Ok(b"abcdefgh")),
    ReadPart(0, 8, Ok(b"abcdefgh")),
    ReadPart(0, 3, Ok(b"abc")),
    ReadPart(2, 4, Ok(b"cdef")),
    ReadPart(5, 8, Ok(b"fgh")),
    ReadPart(7, 0, Ok(b"")),
    ReadPart(8, 2, Ok(b"")),
    ReadPart(1 << 40, 2, Ok(b"")),
];

/// Bands of which the first, or the last, can't be made: the file is as it was.
const REFUSED: [Step; 5] = [
    Write(b"abcdefgh", Ok(())),
    WriteBands(b"ijklmn", Some(6), Err(Refused(6))),
    Read(9, Ok(b"abcdefgh")),
    WriteBands(b"ijklmno", Some(1), Err(Refused(1))),
    Read(9, Ok(b"abcdefgh")),
];

/// A first file, of which no band can be made.
const NEVER: [Step; 2] = [
    WriteBands(b"ijklmn", Some(3), Err(Refused(3))),
    Read(9, Err(Absent)),
];

/// Makes the lists of steps on files that come in bands and are read in parts.
fn make_parts<S: Shelf>(
    rt: &(impl Abort + Threads + Sync + AllocGlobal),
    shelf: &mut S,
    name: &str,
) {
    make(rt, shelf, name, &NO_PART);
    make(rt, shelf, name, &NEVER);
    make(rt, shelf, name, &PARTS);
    make(rt, shelf, name, &REFUSED);
}

/// Returns an empty shelf in memory of which no call fails.
fn empty_shelf(alloc: Global) -> MemShelf {
    MemShelf::new(alloc, Vec::new(alloc), Vec::new(alloc), Vec::new(alloc))
}

#[test]
fn parts_of_files_in_memory(rt: HostRuntime) {
    let alloc = rt.alloc();
    make_parts(&rt, &mut SureShelf::new(alloc, Vec::new(alloc)), "eight");
    make_parts(&rt, &mut empty_shelf(alloc), "eight");
}

#[test]
fn a_shelf_that_only_reads_and_writes(rt: HostRuntime) {
    let mut shelf = PlainShelf {
        shelf: empty_shelf(rt.alloc()),
    };
    make_parts(&rt, &mut shelf, "eight");
}

/// Calls of which the second write and the second read fail.
const CHOSEN: [Step; 6] = [
    WriteBands(b"abcdefgh", None, Ok(())),
    WriteBands(b"ijklmnopqrs", None, Err(BandsAnswer::Failed)),
    ReadPart(1, 16, Ok(b"jklm")),
    ReadPart(1, 16, Err(Failed)),
    WriteBands(b"tuv", None, Ok(())),
    ReadPart(1, 16, Ok(b"uv")),
];

#[test]
fn calls_on_parts_fail_where_they_are_chosen(rt: HostRuntime) {
    let alloc = rt.alloc();
    let reads = vec![in alloc; 2].expect(&rt, "memory");
    let writes = vec![in alloc; 2].expect(&rt, "memory");
    let mut shelf = MemShelf::new(alloc, Vec::new(alloc), reads, writes);
    make(&rt, &mut shelf, "new", &CHOSEN);
}

/// Checks that a folder has no file of this name, or has it.
fn check_there(rt: &(impl Abort + Files), name: &str, wanted: bool) {
    let found = fs::exists(rt, name).expect(rt, "the folder is read");
    check(rt, "a new file", found, wanted);
}

#[test]
fn parts_of_files(rt: HostRuntime) {
    let name = "new_files.eight";
    make_parts(&rt, &mut FolderShelf::new(&rt), name);
    check_there(&rt, ".new_files.eight.part-0", false);
    fs::remove_file(&rt, name).expect(&rt, "the file");
}

#[test]
fn another_runs_new_file_is_left(rt: HostRuntime) {
    let (name, others) = ("new_files.busy", ".new_files.busy.part-0");
    fs::write(&rt, others, b"another's").expect(&rt, "a file");
    make_parts(&rt, &mut FolderShelf::new(&rt), name);
    check_there(&rt, ".new_files.busy.part-1", false);
    let left = fs::read(&rt, others).expect(&rt, "the other's file");
    assert!(rt; left.as_slice() == b"another's".as_slice());
    fs::remove_file(&rt, others).expect(&rt, "the other's file");
    fs::remove_file(&rt, name).expect(&rt, "the file");
}

/// A file for which there are 64 new ones.
const CROWDED: [Step; 4] = [
    Write(b"abc", Err(Failed)),
    WriteBands(b"abc", None, Err(BandsAnswer::Failed)),
    Read(9, Err(Absent)),
    ReadPart(0, 9, Err(Absent)),
];

#[test]
fn a_new_file_is_tried_sixty_four_times(rt: HostRuntime) {
    for number in 0..64 {
        let other = format!(in rt.alloc(); ".new_files.full.part-{number}").expect(&rt, "memory");
        fs::write(&rt, other.as_str(), b"").expect(&rt, "a file");
    }
    make(&rt, &mut FolderShelf::new(&rt), "new_files.full", &CROWDED);
    for number in 0..64 {
        let other = format!(in rt.alloc(); ".new_files.full.part-{number}").expect(&rt, "memory");
        fs::remove_file(&rt, other.as_str()).expect(&rt, "the other's file");
    }
}

#[test]
fn a_link_is_replaced(rt: HostRuntime) {
    let (name, other) = ("new_files.link", "new_files.other");
    fs::write(&rt, other, b"another's").expect(&rt, "a file");
    symlink(&rt, other, name).expect(&rt, "a link");
    make(&rt, &mut FolderShelf::new(&rt), name, &PARTS);
    let left = fs::read(&rt, other).expect(&rt, "the other file");
    assert!(rt; left.as_slice() == b"another's".as_slice());
    fs::remove_file(&rt, name).expect(&rt, "the file");
    fs::remove_file(&rt, other).expect(&rt, "the other file");
}

/// A file that is a device.
const DEVICE: [Step; 2] = [Read(5, Err(Failed)), ReadPart(0, 5, Err(Failed))];

#[test]
fn a_device_is_no_file(rt: HostRuntime) {
    let name = "folder_shelf.device";
    symlink(&rt, "/dev/zero", name).expect(&rt, "a link");
    make(&rt, &mut FolderShelf::new(&rt), name, &DEVICE);
    fs::remove_file(&rt, name).expect(&rt, "the link");
}
