//! The examples of buffers and of nodes.

mod bands;
mod faults;
mod jobs;
mod limits;
mod photographs;
mod refusals;
mod words;

use crate::examples::Case;
use crate::examples::buffers::{BUFFERS, EDGES};
use crate::examples::edits::EDITED;
use crate::examples::faults::{EDITING_JOB, EDITING_JOB_IN_7, EDITING_JOB_IN_8};
use crate::examples::graphs::{RENDERED, STRIP_TOO_WIDE, WIDEST_STRIP};
use crate::examples::long_samples::LONG_SAMPLES;
use crate::examples::pictures::FOUR_BANDS;
use crate::runs::{Devices, PLAIN, SOUND, check_case, check_case_over, check_cases};

/// Words that ask for the same run of a small script, with few tiles in memory and with many.
const SAME_RUNS: [&str; 3] = [
    PLAIN,
    "run --swap-blocks 896 script.txt --resident 1 --cache 65536",
    "run script.txt --resident=27 --swap-blocks=1",
];

#[test]
fn buffers_are_edited_and_grabbed(rt: HostRuntime) {
    for line in &SAME_RUNS {
        check_cases(&rt, rt.alloc(), line, &BUFFERS);
        check_cases(&rt, rt.alloc(), line, &EDGES);
    }
}

#[test]
fn nodes_are_rendered_edited_and_undone(rt: HostRuntime) {
    for line in &SAME_RUNS {
        check_cases(&rt, rt.alloc(), line, &RENDERED);
        check_cases(&rt, rt.alloc(), line, &EDITED);
        check_case(&rt, rt.alloc(), line, &EDITING_JOB);
    }
}

/// Words of runs over a swap of 256 blocks, of which a tile of RGBA32 takes sixteen.
const SWAPPED: [&str; 3] = [
    PLAIN,
    "run script.txt --resident 1",
    "run --workers 1 --resident 2 --swap-blocks 200 script.txt",
];

#[test]
fn samples_of_four_bytes_are_rendered_and_swapped(rt: HostRuntime) {
    let devices = Devices {
        blocks: 256,
        ..SOUND
    };
    for line in &SWAPPED {
        for case in &LONG_SAMPLES {
            check_case_over(&rt, rt.alloc(), line, case, devices);
        }
    }
}

#[test]
fn large_rectangles_are_rendered(rt: HostRuntime) {
    check_case(&rt, rt.alloc(), PLAIN, &FOUR_BANDS);
}

/// Words of runs, and what they leave.
const CACHED: [(&str, &Case); 4] = [
    ("run script.txt --cache 8", &EDITING_JOB_IN_8),
    ("run script.txt --cache 7", &EDITING_JOB_IN_7),
    ("run script.txt --cache=65", &WIDEST_STRIP),
    ("run script.txt --cache=64", &STRIP_TOO_WIDE),
];

#[test]
fn the_cache_decides_on_strips_and_the_report_alone(rt: HostRuntime) {
    for (line, case) in &CACHED {
        check_case(&rt, rt.alloc(), line, case);
    }
}
