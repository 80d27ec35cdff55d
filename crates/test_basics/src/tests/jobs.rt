//! The job of 0, beside what was worked out by hand.

use crate::tests::check::check;
use made_jobs::make_script;
use std::process::Abort;

/// Lines of the script, each after its index.
const LINES: [(usize, &[u8]); 3] = [
    (9, b"render i 0 0 0 512 384 r0.raw"),
    (10, b"fill a 60 71 18 11 98 159 87"),
    (87, b"render i 0 0 0 512 384 r27.raw"),
];

/// Checks some lines of the script.
fn check_lines(rt: &impl Abort, lines: &[&[u8]]) {
    // A line feed ends the last of 88 lines.
    check(rt, "lines", lines.len(), 89);
    for (index, wanted) in &LINES {
        check(rt, index, lines.get(*index).copied(), Some(*wanted));
    }
    let line = lines.get(13).copied().expect(rt, "a line");
    assert!(rt; line.starts_with(b"fill a 163 129 21 12 "));
}

#[test]
fn the_script_and_the_raster(rt: HostRuntime) {
    let job = make_script(rt.alloc(), 0).expect(&rt, "memory");
    check(&rt, "raster", job.raster.len(), 589_824);
    let lines = job.script.split(|byte| *byte == b'\n');
    let lines: Vec<&[u8]> = lines.collect(rt.alloc()).expect(&rt, "memory");
    check_lines(&rt, &lines);
}
