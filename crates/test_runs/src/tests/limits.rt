//! Scripts at the limits of the language.

use crate::examples::refusals::REPORT;
use crate::runs::check_script;
use std::alloc::Global;
use std::process::Abort;
use std::thread::Threads;

/// Returns texts, one after another.
fn joined(rt: &impl Abort, alloc: Global, texts: &[&str]) -> String {
    let mut script = String::new(alloc);
    for text in texts {
        script.push_str(text).expect(rt, "memory");
    }
    script
}

/// Returns a text some times.
fn repeated(rt: &impl Abort, alloc: Global, text: &str, times: u32) -> String {
    let mut script = String::new(alloc);
    for _time in 0..times {
        script.push_str(text).expect(rt, "memory");
    }
    script
}

/// Returns lines of the same words, each with its number between them.
fn numbered(rt: &impl Abort, alloc: Global, before: &str, count: u32, after: &str) -> String {
    let mut script = String::new(alloc);
    for number in 0..count {
        let line = format!(in alloc; "{before}{number}{after}\n").expect(rt, "memory");
        script.push_str(&line).expect(rt, "memory");
    }
    script
}

/// Returns lines of a pixel, and of so many means, each of the one before it.
fn means(rt: &impl Abort, alloc: Global, count: u32) -> String {
    let mut script = numbered(rt, alloc, "node n", 1, " color Y8 0 0 1 1 5");
    for (number, input) in (1..=count).zip(0..count) {
        let line = format!(in alloc; "node n{number} box 64 NONE n{input}\n").expect(rt, "memory");
        script.push_str(&line).expect(rt, "memory");
    }
    script
}

/// Checks that the texts of a script, one after another, are refused with this text, or carried out where that is the
/// report.
fn check_joined(rt: &(impl Abort + Threads + Sync), alloc: Global, texts: &[&str], text: &str) {
    let script = joined(rt, alloc, texts);
    check_script(rt, alloc, script.as_bytes(), text);
}

/// Checks that a chain of 45 means, which is 5,761 pixels wide and as high, can be made, though a pixel of it needs more
/// tiles than the cache has; and that one more has more pixels than an image may have.
fn check_boxes(rt: &(impl Abort + Threads + Sync), alloc: Global) {
    let most = means(rt, alloc, 45);
    let render = "render n45 0 0 0 1 1 o\n";
    check_joined(rt, alloc, &[&most, "commit\n"], REPORT);
    check_joined(rt, alloc, &[&most, "commit\n", render], "line 48: Strip\n");
    let more = means(rt, alloc, 46);
    check_joined(rt, alloc, &[&more, "commit\n"], "line 48: Bounds\n");
}

/// Checks that there are at most 64 buffers and 256 nodes.
fn check_names(rt: &(impl Abort + Threads + Sync), alloc: Global) {
    let buffers = numbered(rt, alloc, "buffer b", 64, " Y8 0 0 1 1");
    let buffer = "buffer a Y8 0 0 1 1\n";
    check_joined(rt, alloc, &[&buffers], REPORT);
    check_joined(rt, alloc, &[&buffers, buffer], "line 65: TooManyBuffers\n");
    let nodes = numbered(rt, alloc, "node n", 256, " color Y8 0 0 1 1 5");
    check_joined(rt, alloc, &[&nodes, "commit\nnode n0 invert n0\n"], REPORT);
    let more = numbered(rt, alloc, "node n", 257, " color Y8 0 0 1 1 5");
    check_joined(rt, alloc, &[&more, "commit\n"], "line 258: TooManyNodes\n");
}

/// Checks that after 65 commits 64 states can be undone, and as many redone.
fn check_history(rt: &(impl Abort + Threads + Sync), alloc: Global) {
    let commits = repeated(rt, alloc, "commit\n", 65);
    let undos = repeated(rt, alloc, "undo\n", 64);
    let undone = joined(rt, alloc, &[&commits, &undos]);
    let redos = repeated(rt, alloc, "redo\n", 65);
    check_joined(rt, alloc, &[&undone], REPORT);
    check_joined(rt, alloc, &[&undone, "undo\n"], "line 130: NothingToUndo\n");
    check_joined(rt, alloc, &[&undone, &redos], "line 194: NothingToRedo\n");
}

#[test]
fn images_names_and_histories_have_limits(rt: HostRuntime) {
    check_boxes(&rt, rt.alloc());
    check_names(&rt, rt.alloc());
    check_history(&rt, rt.alloc());
}

/// Checks that a comment of 1,023 bytes and its end, 1,024 times, is as long as a script may be.
#[test]
fn scripts_have_limits(rt: HostRuntime) {
    let alloc = rt.alloc();
    let line = repeated(&rt, alloc, "#", 1_023);
    let comment = joined(&rt, alloc, &[&line, "\n"]);
    let comments = repeated(&rt, alloc, &comment, 1_024);
    let lines = repeated(&rt, alloc, "\n", 10_000);
    for (texts, text) in [
        ([comments.as_str(), ""], REPORT),
        ([&comments, "\n"], "line 0: TooLong\n"),
        ([&line, "#"], REPORT),
        ([&line, "##"], "line 1: LineTooLong\n"),
        ([&lines, ""], REPORT),
        ([&lines, "\n"], "line 10001: TooManyLines\n"),
    ] {
        check_joined(&rt, alloc, &texts, text);
    }
}
