//! The operations on two pixels of each format, on parts of tiles, and where they are refused.

use crate::cases::{
    ABOVE, CHECKERED, COMPOSITED, CONVERTED, DILATED, ERODED, FIRST, FORMATS, GAINED, INVERTED,
    MASKED, MEANS, PIXEL, Rows, SECOND, SUMS,
};
use crate::shown::{Fields, applied, bytes_of, check, op_of, row_of, window};
use int_ops::{IntKit, IntOp};
use op_contracts::{OpKit, Window};
use pixel_formats::{Format, PixelSamples};
use std::alloc::Global;
use std::process::Abort;
use test_nodes::rect;

/// Where the two pixels are.
const PAIR: Fields = [0, 0, 2, 1];

/// Operations of one image that compute samples, with their results.
const CHANGES: [(&str, &Rows); 6] = [
    ("invert a", &INVERTED),
    ("threshold 100 a", &ABOVE),
    ("gain 5 4 a", &GAINED),
    ("box 1 CLAMP a", &MEANS),
    ("dilate 1 BLACK a", &DILATED),
    ("erode 1 WHITE a", &ERODED),
];

/// Operations of one image that move pixels, with the rectangles of their results and the pixels there, by their numbers.
const MOVES: [(&str, Fields, &[usize]); 4] = [
    ("translate 9 -3 a", [9, -3, 2, 1], &[0, 1]),
    ("crop 1 -1 9 9 a", [1, 0, 1, 1], &[1]),
    ("flip h a", PAIR, &[1, 0]),
    ("flip v a", PAIR, &[0, 1]),
];

/// Returns the image of a format of a table, by the number of the format.
fn image_at(rt: &impl Abort, alloc: Global, rows: &Rows, index: usize) -> Window {
    assert!(rt; index < 12);
    row_of(rt, alloc, FORMATS[index], rows[index])
}

/// Checks what an operation gives of two pixels of windows, whose format has the row's number modulo 12. Without a result the
/// windows are not taken.
fn check_pair(
    rt: &impl Abort,
    alloc: Global,
    row: usize,
    op: &IntOp,
    windows: &[Window],
    results: &Rows,
) {
    let wanted = results[row % 12];
    if wanted.is_empty() {
        assert!(rt; applied(rt, alloc, op, windows, PAIR).is_none());
    } else {
        let raw = bytes_of(rt, alloc, wanted);
        check(rt, alloc, row, op, windows, PAIR, &raw);
    }
}

#[test]
fn changes_of_samples(rt: HostRuntime) {
    let alloc = rt.alloc();
    for (number, (words, results)) in CHANGES.iter().enumerate() {
        let op = op_of(&rt, alloc, words);
        check_copy(&rt, alloc, &op);
        for index in 0..12 {
            let row = number.wrapping_mul(12).wrapping_add(index);
            let windows = [image_at(&rt, alloc, &FIRST, index)];
            check_pair(&rt, alloc, row, &op, &windows, results);
        }
    }
}

/// Returns the image of these pixels of an image.
fn picked(rt: &impl Abort, alloc: Global, width: usize, image: &[u8], pixels: &[usize]) -> Vec<u8> {
    let mut bytes = Vec::new(alloc);
    for pixel in pixels {
        let taken = image.get(pixel.saturating_mul(width)..).unwrap_or(&[]);
        let pixel = taken.get(..width).expect(rt, "a pixel");
        bytes.extend_from_slice(pixel).expect(rt, "memory");
    }
    bytes
}

/// Checks the pixels of what an operation of the first image of each format gives over a rectangle.
fn check_move(rt: &impl Abort, alloc: Global, op: &IntOp, out: Fields, pixels: &[usize]) {
    for index in 0..12 {
        let windows = [image_at(rt, alloc, &FIRST, index)];
        let image = bytes_of(rt, alloc, FIRST[index]);
        let width = FORMATS[index].pixel_bytes() as usize;
        let raw = picked(rt, alloc, width, &image, pixels);
        check(rt, alloc, index, op, &windows, out, &raw);
    }
}

#[test]
fn moves_of_pixels(rt: HostRuntime) {
    for (words, out, pixels) in &MOVES {
        let op = op_of(&rt, rt.alloc(), words);
        check_copy(&rt, rt.alloc(), &op);
        check_move(&rt, rt.alloc(), &op, *out, pixels);
    }
}

#[test]
fn conversions(rt: HostRuntime) {
    for from in 0..12 {
        let windows = [image_at(&rt, rt.alloc(), &FIRST, from)];
        for to in 0..12 {
            let op = IntOp::Convert {
                format: FORMATS[to],
            };
            check_pair(
                &rt,
                rt.alloc(),
                12 * from + to,
                &op,
                &windows,
                &CONVERTED[from],
            );
        }
    }
}

/// Returns a mask of two pixels for images of a format.
fn mask_of(rt: &impl Abort, alloc: Global, format: Format) -> Window {
    match format.depth() {
        1 => row_of(rt, alloc, Format::Y8, "128 255"),
        2 => row_of(rt, alloc, Format::Y16, "0 128 244 1"),
        4 => row_of(rt, alloc, Format::Y32, "0 0 0 128 0 202 154 59"),
        _ => panic!(rt; "a depth"),
    }
}

/// Checks the sum of both images of each format, the first over the second, and the first under a mask.
#[test]
fn two_images(rt: HostRuntime) {
    let alloc = rt.alloc();
    for index in 0..12 {
        let images = [
            image_at(&rt, alloc, &FIRST, index),
            image_at(&rt, alloc, &SECOND, index),
        ];
        check_pair(&rt, alloc, index, &IntOp::Add, &images, &SUMS);
        check_pair(&rt, alloc, index, &IntOp::Over, &images, &COMPOSITED);
        let masked = [
            image_at(&rt, alloc, &FIRST, index),
            mask_of(&rt, alloc, FORMATS[index]),
        ];
        check_pair(&rt, alloc, index, &IntOp::Mask, &masked, &MASKED);
    }
}

/// Returns one color over two pixels.
fn color_of(rt: &impl Abort, alloc: Global, format: Format, pixel: &[u32]) -> IntOp {
    let samples = pixel.to_vec(alloc).expect(rt, "memory");
    IntOp::Color {
        format,
        rect: rect([-1, 0, 2, 1]),
        samples: PixelSamples::new(samples),
    }
}

/// Returns squares of two pixels a side of 9 and 77, over the same two pixels.
fn checker_of(format: Format) -> IntOp {
    IntOp::Checker {
        format,
        rect: rect([-1, 0, 2, 1]),
        size: 2,
        v1: 9,
        v2: 77,
    }
}

/// Checks the two pixels that an operation without an input gives, which are in two tiles.
fn check_of_none(
    rt: &impl Abort,
    alloc: Global,
    row: usize,
    op: &IntOp,
    left: &[u8],
    right: &[u8],
) {
    check(rt, alloc, row, op, &[], [-1, 0, 1, 1], left);
    check(rt, alloc, row, op, &[], [0, 0, 1, 1], right);
}

#[test]
fn colors_and_checkerboards(rt: HostRuntime) {
    let alloc = rt.alloc();
    for index in 0..12 {
        let format = FORMATS[index];
        let image = bytes_of(&rt, alloc, FIRST[index]);
        let (pixel, _) = image.as_slice().split_at(image.len() / 2);
        let color = color_of(&rt, alloc, format, PIXEL[index]);
        check_of_none(&rt, alloc, index, &color, pixel, pixel);
        let image = bytes_of(&rt, alloc, CHECKERED[index]);
        let (left, right) = image.as_slice().split_at(image.len() / 2);
        check_of_none(&rt, alloc, index, &checker_of(format), left, right);
    }
}

/// Checks that a copy of an operation is the same operation.
fn check_copy(rt: &impl Abort, alloc: Global, op: &IntOp) {
    let copy = IntKit.copy_op(alloc, op).expect(rt, "memory");
    assert!(rt; IntKit.same(op, &copy));
}

#[test]
fn other_numbers_are_another_operation(rt: HostRuntime) {
    let gain = IntOp::Gain { num: 5, den: 4 };
    let other = IntOp::Gain { num: 4, den: 5 };
    assert!(rt; !IntKit.same(&gain, &other));
}

#[test]
fn sums_and_masks_of_other_boxes(rt: HostRuntime) {
    let alloc = rt.alloc();
    let pair = [
        window(&rt, alloc, [0, 0, 2, 1], Format::Y8, &[1, 2]),
        window(&rt, alloc, [1, 0, 3, 1], Format::Y8, &[255, 128, 7]),
    ];
    check(
        &rt,
        alloc,
        0,
        &IntOp::Add,
        &pair,
        [0, 0, 4, 1],
        &[1, 255, 128, 7],
    );
    check(&rt, alloc, 1, &IntOp::Mask, &pair, [1, 0, 1, 1], &[2]);
    assert!(rt; applied(&rt, alloc, &IntOp::Mask, &pair, [0, 0, 2, 1]).is_none());
}

/// Checks an operation of an image over no pixel.
fn check_empty(rt: &impl Abort, alloc: Global, row: usize, words: &str, image: &[Window]) {
    let op = op_of(rt, alloc, words);
    check(rt, alloc, row, &op, image, [0, 0, 0, 0], &[]);
}

#[test]
fn results_that_are_empty(rt: HostRuntime) {
    let alloc = rt.alloc();
    let image = [row_of(&rt, alloc, Format::RGB8, "1 2 3")];
    check_empty(&rt, alloc, 0, "crop 5 5 1 1 a", &image);
    let empty = [row_of(&rt, alloc, Format::Y16, "")];
    for (row, (words, _)) in CHANGES.iter().enumerate() {
        check_empty(&rt, alloc, row, words, &empty);
    }
    for (row, (words, _, _)) in MOVES.iter().enumerate() {
        check_empty(&rt, alloc, row, words, &empty);
    }
}
