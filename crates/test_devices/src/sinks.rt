//! Sinks in memory and of the system, and names and texts.

use crate::check::check;
use outside_io::{
    NoMemory, ShelfAnswer, Sink, SinkAnswer, StdSink, SureSink, SwapAnswer, is_file_name,
};
use std::alloc::Global;
use std::fmt::Display;
use std::io;
use std::io::ErrorKind;
use std::process::Abort;

/// Words, and whether they name files.
const NAMES: [(&[u8], bool); 10] = [
    (b"", false),
    (b"out.raw", true),
    (b"_A9-z.", true),
    (b"9", true),
    (b".hidden", false),
    (b"-option", false),
    (b"folder/out.raw", false),
    (b"two words", false),
    (&[b'n'; 64], true),
    (&[b'n'; 65], false),
];

#[test]
fn names_of_files(rt: HostRuntime) {
    for (row, (name, wanted)) in NAMES.iter().enumerate() {
        check(&rt, row, is_file_name(name), *wanted);
    }
}

#[test]
fn a_sure_sink(rt: HostRuntime) {
    let mut sink = SureSink::new(rt.alloc());
    assert!(rt; sink.put(b"one").is_ok() && sink.put(b"two").is_ok());
    check(&rt, "sink", sink.bytes(), b"onetwo".as_slice());
}

/// Checks the text of an answer.
fn check_text<T: Display>(rt: &impl Abort, alloc: Global, answer: &T, wanted: &str) {
    let text = answer.to_string(alloc).expect(rt, "memory");
    check(rt, "text", text.as_str(), wanted);
}

#[test]
fn texts_of_the_answers(rt: HostRuntime) {
    let alloc = rt.alloc();
    let too_long = ShelfAnswer::TooLong { taken: 5 };
    check_text(&rt, alloc, &ShelfAnswer::Failed, "the shelf failed");
    check_text(&rt, alloc, &ShelfAnswer::Absent, "there is no such file");
    check_text(
        &rt,
        alloc,
        &too_long,
        "the file is too long: 5 bytes were taken",
    );
    check_text(&rt, alloc, &SwapAnswer::Failed, "the swap disk failed");
    check_text(&rt, alloc, &SinkAnswer::Failed, "the sink failed");
    check_text(&rt, alloc, &NoMemory, "no memory was left");
}

/// A standard output that is closed.
struct Closed;

impl Print for Closed {
    fn print<T: Display + Drop>(&self, _value: T) -> io::Result<()> {
        Err(io::Error::from(ErrorKind::BrokenPipe))
    }

    fn println<T: Display + Drop>(&self, _value: T) -> io::Result<()> {
        Err(io::Error::from(ErrorKind::BrokenPipe))
    }

    fn write_all(&self, _bytes: &[u8]) -> io::Result<()> {
        Err(io::Error::from(ErrorKind::BrokenPipe))
    }
}

#[test]
fn standard_output(rt: HostRuntime) {
    let answer = StdSink::new(&rt).put(b"a piece\n");
    check(&rt, "open", answer, Ok(()));
    let answer = StdSink::new(&Closed).put(b"a piece\n");
    check(&rt, "closed", answer, Err(SinkAnswer::Failed));
}
