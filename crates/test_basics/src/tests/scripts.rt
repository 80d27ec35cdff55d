//! Scripts that are refused, read and printed.

use crate::tests::check::check;
use crate::tests::script_cases::{FIRST_RUN, PRINTED, REFUSED};
use model_operations::IntOp;
use pixel_formats::Format;
use plane_rect::{Name, Rect};
use script_read::{Command, Line, OpWords, ScriptAnswer, is_script, print_script, read_script};
use std::alloc::Global;
use std::process::Abort;
use test_nodes::rect;

/// Returns the script of a case, with line feeds for `/`.
fn script_of(rt: &impl Abort, alloc: Global, case: &str) -> Vec<u8> {
    let bytes = case.bytes();
    let bytes = bytes.map(|byte| if byte == b'/' { b'\n' } else { byte });
    bytes.collect(alloc).expect(rt, "memory")
}

/// Returns the line and the cause that are reported of a text, or `0 Script` where it is a script.
fn reported(alloc: Global, text: &[u8]) -> (u32, &'static str) {
    match read_script(alloc, text) {
        Ok(_) => (0, "Script"),
        Err(ScriptAnswer::Refused { line, cause }) => (line, cause.word()),
        Err(ScriptAnswer::NoMemory) => (0, "NoMemory"),
    }
}

/// Returns the text that a script is printed as.
fn printed(rt: &impl Abort, alloc: Global, script: &[u8]) -> Vec<u8> {
    let lines = read_script(alloc, script).expect(rt, "a script");
    print_script(alloc, &lines).expect(rt, "memory")
}

/// Checks a script of `REFUSED`.
fn check_refused(rt: &impl Abort, alloc: Global, row: &str) {
    let (line, rest) = row.split_once(' ').expect(rt, "a line");
    let (cause, case) = rest.split_once(' ').expect(rt, "a cause");
    let line = line.parse::<u32>().expect(rt, "a number");
    let (found_line, found_cause) = reported(alloc, &script_of(rt, alloc, case));
    check(rt, row, found_cause, cause);
    check(rt, row, found_line, line);
}

#[test]
fn the_first_line_is_reported_with_its_lowest_cause(rt: HostRuntime) {
    for row in REFUSED.lines() {
        check_refused(&rt, rt.alloc(), row);
    }
}

/// Checks a script of `PRINTED`, and what is printed of its print.
fn check_printed(rt: &impl Abort, alloc: Global, row: &str) {
    let (print, case) = row.split_once('=').expect(rt, "a print");
    let wanted = script_of(rt, alloc, print);
    let text = printed(rt, alloc, &script_of(rt, alloc, case));
    check(rt, row, text.as_slice(), wanted.as_slice());
    let again = printed(rt, alloc, &text);
    check(rt, row, again.as_slice(), wanted.as_slice());
}

#[test]
fn scripts_are_printed_in_one_spelling(rt: HostRuntime) {
    for row in PRINTED.lines() {
        check_printed(&rt, rt.alloc(), row);
    }
}

/// Returns whether a command of the first run, by its index, has these fields.
fn is_in_first_run(index: usize, command: &Command, a: Name, square: Rect) -> bool {
    match (index, command) {
        (0, Command::Buffer { name, format, rect }) => {
            *name == a && *format == Format::Y8 && *rect == square
        }
        (1, Command::Load { name, rect, file }) => {
            *name == a && *rect == square && file.as_str() == "in.raw"
        }
        (
            2,
            Command::Node {
                op: OpWords::Source { buffer },
                inputs,
                ..
            },
        ) => { *buffer == a && inputs.as_slice().is_empty() }
        (
            3,
            Command::Node {
                op: OpWords::Compute { op: IntOp::Invert },
                inputs,
                ..
            },
        ) => { inputs.as_slice().len() == 1 }
        (4, Command::Commit) => true,
        (5, Command::Render { level: 0, rect, .. }) => *rect == square,
        _ => false,
    }
}

#[test]
fn the_first_run_has_six_commands(rt: HostRuntime) {
    let lines = read_script(rt.alloc(), FIRST_RUN.as_bytes()).expect(&rt, "a script");
    check(&rt, "commands", lines.len(), 6);
    check(&rt, "last", lines.last().map(|line| line.number), Some(6));
    let a = Name::parse(b"a").expect(&rt, "a name");
    for (index, line) in lines.iter().enumerate() {
        let is_right = is_in_first_run(index, &line.command, a, rect([0, 0, 2, 2]));
        assert!(rt; is_right, "command {index}");
    }
    let text = print_script(rt.alloc(), &lines).expect(&rt, "memory");
    check(&rt, "print", text.as_slice(), FIRST_RUN.as_bytes());
}

/// Texts, before the line and the cause that are reported.
const TEXTS: [(&[u8], u32, &str); 13] = [
    (b"", 0, "Script"),
    (b"commit\r\nundo\r\n", 0, "Script"),
    (b"\r\n", 0, "Script"),
    (b"commit\r", 1, "NotAscii"),
    (b"com\rmit\n", 1, "NotAscii"),
    (b"commit\r\r\n", 1, "NotAscii"),
    (b"commit\n# \x80", 2, "NotAscii"),
    (b"frob \x80", 1, "NotAscii"),
    (b"\x7f", 1, "NotAscii"),
    (b"\x1f", 1, "NotAscii"),
    (b"commit\0", 1, "NotAscii"),
    (b"#\t~!", 0, "Script"),
    (b"commit\x0b", 1, "NotAscii"),
];

#[test]
fn bytes_and_ends_of_lines(rt: HostRuntime) {
    for (row, (text, line, cause)) in TEXTS.iter().enumerate() {
        check(&rt, row, reported(rt.alloc(), text), (*line, *cause));
    }
}

/// A byte that is repeated, how often, and what comes after it, before the line and the cause that are reported.
const LONG: [(u8, usize, &[u8], u32, &str); 8] = [
    (b'#', 1024, b"", 0, "Script"),
    (b'#', 1024, b"\r\n", 0, "Script"),
    (b'#', 1025, b"", 1, "LineTooLong"),
    (b'#', 1025, b"\x80", 1, "NotAscii"),
    (b'\n', 9_999, b"commit", 0, "Script"),
    (b'\n', 9_999, b"commit\n", 0, "Script"),
    (b'\n', 9_999, b"commit\n\n", 10_001, "TooManyLines"),
    (b'\n', 9_999, b"commit\n\nfrob", 10_001, "TooManyLines"),
];

/// Returns a byte so many times, and what comes after it.
fn long_text(rt: &impl Abort, alloc: Global, byte: u8, count: usize, end: &[u8]) -> Vec<u8> {
    let mut text = vec![in alloc; byte; count].expect(rt, "memory");
    text.extend_from_slice(end).expect(rt, "memory");
    text
}

#[test]
fn long_lines_and_many(rt: HostRuntime) {
    let alloc = rt.alloc();
    for (row, (byte, count, end, line, cause)) in LONG.iter().enumerate() {
        let text = long_text(&rt, alloc, *byte, *count, end);
        check(&rt, row, reported(alloc, &text), (*line, *cause));
    }
    let lines = long_text(&rt, alloc, b'\n', 9_999, b"commit");
    check(&rt, "print", printed(&rt, alloc, &lines).len(), 10_006);
}

/// The numbers of lines of commits, and whether these make a script.
const NUMBERS: [(&[u32], bool); 5] = [
    (&[], true),
    (&[1, 10_000], true),
    (&[0], false),
    (&[10_001], false),
    (&[2, 2], false),
];

/// Returns a commit in each of these lines.
fn commits(rt: &impl Abort, alloc: Global, numbers: &[u32]) -> Vec<Line> {
    let mut lines = Vec::new(alloc);
    for number in numbers {
        let (number, command) = (*number, Command::Commit);
        lines.push(Line { number, command }).expect(rt, "memory");
    }
    lines
}

#[test]
fn lines_that_are_no_script(rt: HostRuntime) {
    for (numbers, wanted) in &NUMBERS {
        let lines = commits(&rt, rt.alloc(), numbers);
        check(&rt, numbers, is_script(&lines), *wanted);
    }
    let end = Line {
        number: 1,
        command: Command::EndWatch,
    };
    assert!(rt; !is_script(&[end]));
}
