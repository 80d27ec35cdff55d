//! Examples: the lines of a script, each beside what it leaves.

pub mod buffers;
pub mod edits;
pub mod faults;
pub mod graphs;
pub mod long_samples;
pub mod pictures;
pub mod refusals;

use crate::contents::Content;
use std::alloc::Global;
use std::process::Abort;

/// A line of a script, with its end.
#[derive(Clone, Copy)]
pub enum Line {
    /// A line that prints nothing and writes no file.
    Does(&'static str),
    /// A line that writes the file of its last word: what it prints, and what the file must hold.
    Writes(&'static str, &'static str, Content),
}

/// How a run ends.
#[derive(Clone, Copy)]
pub enum End {
    /// Carries all lines out, with status 0 and this report.
    Report(&'static str),
    /// Refuses a line after so many files, with status 2 and this text. No later file is there.
    Refused(usize, &'static str),
}

/// The lines of a script, in parts, and how its run over a folder with `in.raw` ends.
#[derive(Clone, Copy)]
pub struct Case {
    pub lines: &'static [&'static [Line]],
    pub end: End,
}

/// A file that a line writes, whose name is the line's last word, and after which the line prints a text.
#[derive(Clone, Copy)]
pub struct File {
    pub line: &'static str,
    pub text: &'static str,
    pub content: Content,
}

/// The script of a case, the status and the text of its run, and the files that it writes in their order, of which so
/// many are there at its end.
#[derive(Drop)]
pub struct Example {
    pub script: String,
    pub status: u8,
    pub text: String,
    pub files: Vec<File>,
    pub written: usize,
}

/// Returns the status of an end, how many files there are at most, and the last text.
fn parts_of(end: End) -> (u8, usize, &'static str) {
    match end {
        End::Report(text) => (0, usize::MAX, text),
        End::Refused(written, text) => (2, written, text),
    }
}

/// Returns a case as it is run.
pub fn example_of(rt: &impl Abort, alloc: Global, case: &Case) -> Example {
    let (status, written, last) = parts_of(case.end);
    let mut script = String::new(alloc);
    let mut files = Vec::new(alloc);
    for lines in case.lines {
        push_lines(rt, &mut script, &mut files, lines);
    }
    let text = text_of(rt, alloc, &files, written, last);
    Example {
        script,
        status,
        text,
        files,
        written,
    }
}

/// Appends lines to a script, and what they write to its files.
fn push_lines(rt: &impl Abort, script: &mut String, files: &mut Vec<File>, lines: &[Line]) {
    for line in lines {
        push_line(rt, script, files, *line);
    }
}

/// Appends a line to a script, and what it writes to its files.
fn push_line(rt: &impl Abort, script: &mut String, files: &mut Vec<File>, line: Line) {
    match line {
        Line::Does(words) => script.push_str(words).expect(rt, "memory"),
        Line::Writes(line, text, content) => {
            script.push_str(line).expect(rt, "memory");
            let file = File {
                line,
                text,
                content,
            };
            files.push(file).expect(rt, "memory");
        }
    }
}

/// Returns the texts of the first files, and the last text.
fn text_of(rt: &impl Abort, alloc: Global, files: &[File], written: usize, last: &str) -> String {
    let mut text = String::new(alloc);
    for file in files.iter().take(written) {
        text.push_str(file.text).expect(rt, "memory");
    }
    text.push_str(last).expect(rt, "memory");
    text
}
