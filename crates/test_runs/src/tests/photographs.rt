//! A job of usual size.

use crate::contents::{Content, Kept};
use crate::runs::{Devices, PLAIN, SOUND, check_run};
use std::alloc::Global;
use std::process::Abort;
use std::thread::Threads;

/// A photograph is cropped, made brighter and softer, and composited under its caption.
const SCRIPT: &[u8] = b"# caption a photograph\n\
    buffer photo RGB8 0 0 1024 768\n\
    load photo 0 0 1024 768 photo.raw\n\
    buffer caption YA8 40 680 400 60\n\
    load caption 40 680 400 60 caption.raw\n\
    node p source photo\n\
    node c crop 16 16 992 736 p\n\
    node g gain 5 4 c\n\
    node b box 5 CLAMP g\n\
    node a convert RGBA8 b\n\
    node t source caption\n\
    node u convert RGBA8 t\n\
    node o over u a\n\
    commit\n\
    render o 0 16 16 992 736 out.raw\n\
    render o 2 4 4 248 184 small.raw\n";

const TEXT: &str = "render 15 commit 1 bytes 2920448\n\
    render 16 commit 1 bytes 182528\n\
    report applied 974 reused 2382\n";

/// What the files must hold, computed apart from whole images.
const FILES: [(&str, Content); 2] = [
    ("out.raw", Content::Hashed(2_920_448, 0xdbca_42a3_072b_9b82)),
    ("small.raw", Content::Hashed(182_528, 0x6730_546e_fe1f_f3e8)),
];

/// The same job by other numbers of workers and of tiles in memory.
const LINES: [&str; 8] = [
    "run script.txt --workers 1 --resident 1",
    "run script.txt --workers 2 --resident 1",
    "run script.txt --workers 7 --resident 1",
    "run script.txt --workers 1 --resident 4096",
    "run script.txt --workers 2 --resident 4096",
    "run script.txt --workers 7 --resident 4096",
    "run script.txt --workers 3",
    "run script.txt --workers 16",
];

/// Returns so many bytes that look random: the highest ones of x → 1664525 x + 1013904223 mod 2^32.
fn noise(rt: &impl Abort, alloc: Global, seed: u32, count: u32) -> Vec<u8> {
    let mut bytes = Vec::new(alloc);
    let mut state = seed;
    for _index in 0..count {
        state = state.wrapping_mul(1_664_525).wrapping_add(1_013_904_223);
        bytes.push((state >> 24) as u8).expect(rt, "memory");
    }
    bytes
}

/// Runs a line over the photograph and its caption, and checks text and files.
fn check_photograph(
    rt: &(impl Abort + Threads + Sync),
    alloc: Global,
    line: &str,
    devices: Devices,
) {
    let photo = noise(rt, alloc, 1, 1024 * 768 * 3);
    let caption = noise(rt, alloc, 2, 400 * 60 * 2);
    let files = [
        ("script.txt", SCRIPT),
        ("photo.raw", photo.as_slice()),
        ("caption.raw", caption.as_slice()),
    ];
    let shelf = check_run(rt, alloc, line, &files, devices, (0, TEXT));
    for (name, content) in &FILES {
        content.check(rt, alloc, line, shelf.get(name), Kept::Whole);
    }
}

#[test]
fn a_photograph_is_captioned(rt: HostRuntime) {
    check_photograph(&rt, rt.alloc(), PLAIN, SOUND);
}

#[test]
fn workers_and_resident_tiles_change_no_byte(rt: HostRuntime) {
    let devices = Devices {
        blocks: 40_960,
        ..SOUND
    };
    for line in &LINES {
        check_photograph(&rt, rt.alloc(), line, devices);
    }
}
