//! The program: `tilegraph run SCRIPT`, in the folder of the script and its files.
#![tactic(auto)]

mod messages;

use crate::messages::message_of;
use model_runs::{End, status_of};
use outside_io::{FileSwap, FolderShelf, OpenGate, StdSink};
use script_run::{WRONG_WORDS, run};
use std::fs::File;
use std::io::ErrorKind;
use std::process::ExitCode;
use std::thread::Threads;
use std::{env, io};

/// How many blocks the swap has: 4 GiB, of which a run uses what its tiles need.
const SWAP_BLOCKS: u32 = 1 << 20;

/// What is opened in the place of a standard input, output or error that is closed.
const EMPTY_FILE: &str = "/dev/null";

/// What is opened where there is no such file.
const ROOT_FOLDER: &str = "/";

fn main(rt: HostRuntime) -> ExitCode {
    let _standard = standard_descriptors(&rt);
    let status = match status(&rt, &rt) {
        Ok(status) => status,
        // Words that are no text are no command line.
        Err(error) if error.kind() == ErrorKind::InvalidData => WRONG_WORDS,
        Err(_) => status_of(Err(End::NoMemory)),
    };
    // Where standard error takes no text, the status still says it.
    let _ = rt.eprint(message_of(status));
    ExitCode::from(status)
}

/// Opens three files that nobody reads, to be kept to the end, so that descriptors 0 to 2 are taken.
///
/// A file that is opened gets the lowest descriptor that is free. Where the program is started with standard output
/// closed, the swap file would get its descriptor, and the texts of the run would go into the swap's first block. These
/// files can't be written to, so that a text fails there, which is an I/O error of the output.
fn standard_descriptors(rt: &HostRuntime) -> [io::Result<File>; 3] {
    [open_unread(rt), open_unread(rt), open_unread(rt)]
}

/// Opens a file that nobody reads.
fn open_unread(rt: &HostRuntime) -> io::Result<File> {
    File::open(rt, EMPTY_FILE).or_else(|_| File::open(rt, ROOT_FOLDER))
}

/// Runs the words of the command line over the current folder, a swap file in it and standard output.
fn status(threads: &(impl Threads + Sync), rt: &HostRuntime) -> io::Result<u8> {
    let alloc = rt.alloc();
    let words: Vec<String> = env::args(rt)?.skip(1).collect(alloc)?;
    let mut shelf = FolderShelf::new(rt.clone()?);
    let mut swap = FileSwap::new(rt.clone()?, SWAP_BLOCKS);
    let mut sink = StdSink::new(rt.clone()?);
    Ok(run(
        threads, alloc, &words, &mut shelf, &mut swap, &mut sink, &OpenGate,
    ))
}
