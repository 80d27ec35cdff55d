//! Runs over a shelf, a swap and a sink in memory.

use crate::contents::Kept;
use crate::examples::refusals::REPORT;
use crate::examples::{Case, Example, example_of};
use outside_io::{MemShelf, MemSink, MemSwap, OpenGate};
use script_run::run;
use std::alloc::Global;
use std::fmt::Debug;
use std::process::Abort;
use std::str::from_utf8;
use std::thread::Threads;

/// The bytes of `in.raw`.
pub const RASTER: &[u8] = b"\x00\x40\x80\xff";

/// The words of most runs.
pub const PLAIN: &str = "run script.txt";

/// How many blocks the swap has, and the number of the call of each kind that fails, counted from 1; at 0 none fails.
#[derive(Clone, Copy)]
pub struct Devices {
    pub blocks: u32,
    pub read: u64,
    pub write: u64,
    pub put: u64,
    pub swap_read: u64,
    pub swap_write: u64,
}

/// Devices that don't fail.
pub const SOUND: Devices = Devices {
    blocks: 64,
    read: 0,
    write: 0,
    put: 0,
    swap_read: 0,
    swap_write: 0,
};

/// The status of a run, and all that went to its sink.
#[derive(Drop)]
pub struct Ended {
    pub status: u8,
    pub text: Vec<u8>,
}

/// Returns the number of a call that fails.
fn failing(rt: &impl Abort, alloc: Global, call: u64) -> Vec<u64> {
    vec![in alloc; call].expect(rt, "memory")
}

/// Returns a shelf with these files.
pub fn shelf_of(
    rt: &impl Abort,
    alloc: Global,
    files: &[(&str, &[u8])],
    devices: Devices,
) -> MemShelf {
    let mut kept = Vec::new(alloc);
    for (name, bytes) in files {
        let name = name.to_string(alloc).expect(rt, "memory");
        let bytes = bytes.to_vec(alloc).expect(rt, "memory");
        kept.push((name, bytes)).expect(rt, "memory");
    }
    let reads = failing(rt, alloc, devices.read);
    let writes = failing(rt, alloc, devices.write);
    MemShelf::new(alloc, kept, reads, writes)
}

/// Returns the words of a line.
fn words_of(rt: &impl Abort, alloc: Global, line: &str) -> Vec<String> {
    let mut words = Vec::new(alloc);
    for word in line.split_whitespace() {
        let word = word.to_string(alloc).expect(rt, "memory");
        words.push(word).expect(rt, "memory");
    }
    words
}

/// Runs the words of a line over a shelf, and a swap and a sink of its own.
pub fn run_over(
    rt: &(impl Abort + Threads + Sync),
    alloc: Global,
    line: &str,
    shelf: &mut MemShelf,
    devices: Devices,
) -> Ended {
    let words = words_of(rt, alloc, line);
    run_words(rt, alloc, &words, shelf, devices)
}

/// Runs words over a shelf, and a swap and a sink of its own.
pub fn run_words(
    rt: &(impl Abort + Threads + Sync),
    alloc: Global,
    words: &[String],
    shelf: &mut MemShelf,
    devices: Devices,
) -> Ended {
    let reads = failing(rt, alloc, devices.swap_read);
    let writes = failing(rt, alloc, devices.swap_write);
    let blocks = devices.blocks.min(1 << 20);
    let mut swap = MemSwap::new(alloc, blocks, reads, writes).expect(rt, "memory");
    let mut sink = MemSink::new(alloc, failing(rt, alloc, devices.put));
    let status = run(rt, alloc, words, shelf, &mut swap, &mut sink, &OpenGate);
    let text = sink.bytes().to_vec(alloc).expect(rt, "memory");
    Ended { status, text }
}

/// Checks that what a row gives is what it should, and tells the row and both where it isn't.
pub fn check_row<T: PartialEq + Debug>(rt: &impl Abort, row: &str, found: &T, wanted: &T) {
    assert!(rt;
        found == wanted,
        "{row}: found {found:?}, wanted {wanted:?}"
    );
}

/// Checks the status and the text of the run of a row.
pub fn check_ended(rt: &impl Abort, row: &str, ended: &Ended, status: u8, text: &str) {
    check_row(rt, row, &from_utf8(&ended.text).unwrap_or("no text"), &text);
    check_row(rt, row, &ended.status, &status);
}

/// Runs the words of a line over these files, and checks status and text. Returns the shelf.
pub fn check_run(
    rt: &(impl Abort + Threads + Sync),
    alloc: Global,
    line: &str,
    files: &[(&str, &[u8])],
    devices: Devices,
    wanted: (u8, &str),
) -> MemShelf {
    let mut shelf = shelf_of(rt, alloc, files, devices);
    let ended = run_over(rt, alloc, line, &mut shelf, devices);
    check_ended(rt, line, &ended, wanted.0, wanted.1);
    shelf
}

/// Runs the words of a line over a folder with a script and `in.raw`, and checks status and text, for a row.
pub fn check_text(
    rt: &(impl Abort + Threads + Sync),
    alloc: Global,
    row: &str,
    line: &str,
    script: &[u8],
    status: u8,
    text: &str,
) {
    let files = [("script.txt", script), ("in.raw", RASTER)];
    let mut shelf = shelf_of(rt, alloc, &files, SOUND);
    let ended = run_over(rt, alloc, line, &mut shelf, SOUND);
    check_ended(rt, row, &ended, status, text);
}

/// Runs a script, and checks that it is refused with its text, or carried out where that is the report.
pub fn check_script(rt: &(impl Abort + Threads + Sync), alloc: Global, script: &[u8], text: &str) {
    let status = if text == REPORT { 0 } else { 2 };
    let row = from_utf8(script.get(..200).unwrap_or(script)).unwrap_or("no text");
    check_text(rt, alloc, row, PLAIN, script, status, text);
}

/// Returns the folder that an example is run over.
pub fn folder_of(rt: &impl Abort, alloc: Global, example: &Example, devices: Devices) -> MemShelf {
    let files = [
        ("script.txt", example.script.as_bytes()),
        ("in.raw", RASTER),
    ];
    shelf_of(rt, alloc, &files, devices)
}

/// Returns the bytes of the file whose name is the last word of a line.
fn file_of<'a>(shelf: &'a MemShelf, line: &str) -> Option<&'a [u8]> {
    let mut found = None;
    for word in line.split_whitespace() {
        found = shelf.get(word);
    }
    found
}

/// Checks that the first files of an example are there, and how much of the one after them, and no other.
pub fn check_files(
    rt: &impl Abort,
    alloc: Global,
    example: &Example,
    shelf: &MemShelf,
    whole: usize,
    next: Kept,
) {
    for (index, file) in example.files.iter().enumerate() {
        let kept = if index < whole {
            Kept::Whole
        } else if index == whole {
            next
        } else {
            Kept::Nothing
        };
        let found = file_of(shelf, file.line);
        file.content.check(rt, alloc, file.line, found, kept);
    }
}

/// Checks that a run did all that its example says.
pub fn check_end(
    rt: &impl Abort,
    alloc: Global,
    example: &Example,
    ended: &Ended,
    shelf: &MemShelf,
) {
    check_ended(rt, &example.script, ended, example.status, &example.text);
    check_files(rt, alloc, example, shelf, example.written, Kept::Nothing);
}

/// Runs a case by the words of a line over devices that don't fail, and checks what it leaves.
pub fn check_case_over(
    rt: &(impl Abort + Threads + Sync),
    alloc: Global,
    line: &str,
    case: &Case,
    devices: Devices,
) {
    let example = example_of(rt, alloc, case);
    let mut shelf = folder_of(rt, alloc, &example, devices);
    let ended = run_over(rt, alloc, line, &mut shelf, devices);
    check_end(rt, alloc, &example, &ended, &shelf);
}

/// Runs a case by the words of a line, and checks what it leaves.
pub fn check_case(rt: &(impl Abort + Threads + Sync), alloc: Global, line: &str, case: &Case) {
    check_case_over(rt, alloc, line, case, SOUND);
}

/// Runs cases by the words of a line, and checks what each leaves.
pub fn check_cases(rt: &(impl Abort + Threads + Sync), alloc: Global, line: &str, cases: &[Case]) {
    for case in cases {
        check_case(rt, alloc, line, case);
    }
}
