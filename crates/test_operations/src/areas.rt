//! The operations on squares at a corner of an image and of the plane, under each policy, and operations
//! on whole tiles and on parts of several tiles.

use crate::shown::{Fields, applied, bytes_of, check, op_of, window};
use pixel_formats::Format;
use std::alloc::Global;
use std::process::Abort;

/// Three columns and two rows of gray pixels with alpha.
const IMAGE: [u8; 12] = [5, 200, 90, 255, 0, 0, 33, 40, 250, 251, 128, 7];

/// A part of the result under each policy, from its upper left corner on.
const PARTS: [Fields; 4] = [[-1, -1, 1, 1], [0, 0, 2, 1], [0, 0, 2, 1], [0, 0, 2, 1]];

/// Operations under each policy, and the raw bytes of these parts as decimal numbers. They were computed from the formulas
/// by a program of its own.
const CORNERS: [([&str; 4], [&str; 4]); 6] = [
    (
        [
            "box 1 NONE a",
            "box 1 CLAMP a",
            "box 1 BLACK a",
            "box 1 WHITE a",
        ],
        ["1 22", "57 182 67 134", "42 225 56 169", "184 225 141 169"],
    ),
    (
        [
            "box 20 NONE a",
            "box 20 CLAMP a",
            "box 20 BLACK a",
            "box 20 WHITE a",
        ],
        ["0 0", "43 70 44 67", "0 255 0 255", "254 255 254 255"],
    ),
    (
        [
            "dilate 1 NONE a",
            "dilate 1 CLAMP a",
            "dilate 1 BLACK a",
            "dilate 1 WHITE a",
        ],
        [
            "5 200",
            "250 255 250 255",
            "250 255 250 255",
            "255 255 255 255",
        ],
    ),
    (
        [
            "dilate 20 NONE a",
            "dilate 20 CLAMP a",
            "dilate 20 BLACK a",
            "dilate 20 WHITE a",
        ],
        [
            "250 255",
            "250 255 250 255",
            "250 255 250 255",
            "255 255 255 255",
        ],
    ),
    (
        [
            "erode 1 NONE a",
            "erode 1 CLAMP a",
            "erode 1 BLACK a",
            "erode 1 WHITE a",
        ],
        ["0 0", "5 40 0 0", "0 40 0 0", "5 40 0 0"],
    ),
    (
        [
            "erode 20 NONE a",
            "erode 20 CLAMP a",
            "erode 20 BLACK a",
            "erode 20 WHITE a",
        ],
        ["0 0", "0 0 0 0", "0 0 0 0", "0 0 0 0"],
    ),
];

#[test]
fn squares_at_a_corner(rt: HostRuntime) {
    let alloc = rt.alloc();
    let windows = [window(&rt, alloc, [0, 0, 3, 2], Format::YA8, &IMAGE)];
    for (number, (words, results)) in CORNERS.iter().enumerate() {
        for part in 0..4 {
            let op = op_of(&rt, alloc, words[part]);
            let raw = bytes_of(&rt, alloc, results[part]);
            let row = number.wrapping_mul(4).wrapping_add(part);
            check(&rt, alloc, row, &op, &windows, PARTS[part], &raw);
        }
    }
}

/// Means at the corner of the plane, under three policies.
const MEANS: [(&str, u8); 3] = [
    ("box 1 CLAMP a", 9),
    ("box 1 BLACK a", 1),
    ("box 1 WHITE a", 228),
];

#[test]
fn squares_at_the_corner_of_the_plane(rt: HostRuntime) {
    let alloc = rt.alloc();
    let corner = [-16_777_216, -16_777_216, 1, 1];
    let windows = [window(&rt, alloc, corner, Format::Y8, &[9])];
    for (row, (words, mean)) in MEANS.iter().enumerate() {
        let op = op_of(&rt, alloc, words);
        check(&rt, alloc, row, &op, &windows, corner, &[*mean]);
    }
    let outside = op_of(&rt, alloc, "dilate 1 NONE a");
    assert!(rt; applied(&rt, alloc, &outside, &windows, corner).is_none());
}

/// Operations on three columns and two rows of the largest samples of RGBA32, a pixel of the results, and its raw bytes as
/// decimal numbers. All positions of a large square in the image are six, one for its corner; 16,641 largest samples add
/// up to more than 2^46.
const LARGEST: [(&str, Fields, &str); 7] = [
    (
        "box 64 CLAMP a",
        [0, 0, 1, 1],
        "255 255 255 255 255 255 255 255 255 255 255 255 255 255 255 255",
    ),
    (
        "box 64 WHITE a",
        [2, 1, 1, 1],
        "255 255 255 255 255 255 255 255 255 255 255 255 255 255 255 255",
    ),
    (
        "box 64 BLACK a",
        [0, 0, 1, 1],
        "29 161 23 0 29 161 23 0 29 161 23 0 255 255 255 255",
    ),
    (
        "box 64 NONE a",
        [0, 0, 1, 1],
        "29 161 23 0 29 161 23 0 29 161 23 0 29 161 23 0",
    ),
    (
        "box 64 NONE a",
        [-64, -64, 1, 1],
        "48 240 3 0 48 240 3 0 48 240 3 0 48 240 3 0",
    ),
    (
        "dilate 64 BLACK a",
        [0, 0, 1, 1],
        "255 255 255 255 255 255 255 255 255 255 255 255 255 255 255 255",
    ),
    (
        "erode 64 BLACK a",
        [0, 0, 1, 1],
        "0 0 0 0 0 0 0 0 0 0 0 0 255 255 255 255",
    ),
];

#[test]
fn squares_of_the_largest_samples(rt: HostRuntime) {
    let alloc = rt.alloc();
    let windows = [window(&rt, alloc, [0, 0, 3, 2], Format::RGBA32, &[255; 96])];
    for (row, (words, part, result)) in LARGEST.iter().enumerate() {
        let op = op_of(&rt, alloc, words);
        let raw = bytes_of(&rt, alloc, result);
        check(&rt, alloc, row, &op, &windows, *part, &raw);
    }
}

/// Returns bytes of 0 to 250, again and again.
fn repeated(rt: &impl Abort, alloc: Global, count: u32) -> Vec<u8> {
    let mut bytes = Vec::new(alloc);
    for number in 0..count {
        bytes.push((number % 251) as u8).expect(rt, "memory");
    }
    bytes
}

/// Operations on a row of 200 pixels of 0 to 199, which is in four tiles, and three pixels of the results from a column on,
/// which are in one tile.
const ACROSS: [(&str, i64, [u8; 3]); 4] = [
    ("flip h a", 64, [135, 134, 133]),
    ("translate 30 0 a", 93, [63, 64, 65]),
    ("crop 126 0 9 9 a", 128, [128, 129, 130]),
    ("dilate 64 CLAMP a", 64, [128, 129, 130]),
];

#[test]
fn parts_of_several_tiles(rt: HostRuntime) {
    let alloc = rt.alloc();
    let bytes = repeated(&rt, alloc, 200);
    let windows = [window(&rt, alloc, [0, 0, 200, 1], Format::Y8, &bytes)];
    for (row, (words, x, raw)) in ACROSS.iter().enumerate() {
        let op = op_of(&rt, alloc, words);
        check(&rt, alloc, row, &op, &windows, [*x, 0, 3, 1], raw);
    }
}

#[test]
fn whole_tile(rt: HostRuntime) {
    let alloc = rt.alloc();
    let mut bytes = repeated(&rt, alloc, 4096);
    let windows = [window(&rt, alloc, [0, 0, 64, 64], Format::Y8, &bytes)];
    for byte in &mut bytes {
        *byte = 255 - *byte;
    }
    let op = op_of(&rt, alloc, "invert a");
    check(&rt, alloc, 0, &op, &windows, [0, 0, 64, 64], &bytes);
}
