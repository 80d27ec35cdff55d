//! Scripts that are refused.

use crate::examples::refusals::{GRAMMAR, REFUSED_BUFFERS, REFUSED_GRAPHS, UNBUILT};
use crate::runs::{Devices, PLAIN, SOUND, check_run, check_script};
use std::alloc::Global;
use std::process::Abort;
use std::thread::Threads;

/// A script that loads and inverts a raster of four bytes.
const INVERT: &[u8] =
    b"buffer a Y8 0 0 2 2\nload a 0 0 2 2 in.raw\nnode s source a\nnode i invert s\ncommit\nrender i 0 0 0 2 2 out.raw\n";

/// Runs scripts, and checks that each is refused with its text, or carried out where that is the report.
fn check_scripts(rt: &(impl Abort + Threads + Sync), alloc: Global, scripts: &[(&[u8], &str)]) {
    for (script, text) in scripts {
        check_script(rt, alloc, script, text);
    }
}

#[test]
fn the_first_line_that_is_wrong_is_refused(rt: HostRuntime) {
    check_scripts(&rt, rt.alloc(), &GRAMMAR);
    check_scripts(&rt, rt.alloc(), &REFUSED_BUFFERS);
    check_scripts(&rt, rt.alloc(), &REFUSED_GRAPHS);
    check_scripts(&rt, rt.alloc(), &UNBUILT);
}

/// Checks that rasters of too few and too many bytes are refused.
fn check_sizes(rt: &(impl Abort + Threads + Sync), alloc: Global) {
    for raster in [b"".as_slice(), b"\x00\x40\x80", b"\x00\x40\x80\xff\x00"] {
        let files = [("script.txt", INVERT), ("in.raw", raster)];
        let wanted = (2, "line 2: WrongSize\n");
        let shelf = check_run(rt, alloc, PLAIN, &files, SOUND, wanted);
        assert!(rt; shelf.get("out.raw").is_none());
    }
}

/// Words of runs without a file, the put that fails, and the status and the text then.
const ABSENT: [(&str, u64, u8, &str); 4] = [
    (PLAIN, 0, 2, "line 2: Absent\n"),
    (PLAIN, 1, 6, "line 2:"),
    ("run absent.txt", 0, 2, "line 0: Absent\n"),
    ("run absent.txt", 1, 6, "line 0:"),
];

/// Checks that where the text of a refusal isn't put whole, the status is that of the output.
#[test]
fn rasters_of_a_wrong_size_and_absent_files_are_refused(rt: HostRuntime) {
    let alloc = rt.alloc();
    check_sizes(&rt, alloc);
    for (line, put, status, text) in &ABSENT {
        let files = [("script.txt", INVERT)];
        let devices = Devices { put: *put, ..SOUND };
        check_run(&rt, alloc, line, &files, devices, (*status, text));
    }
}
