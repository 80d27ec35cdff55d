//! Parts and reads of rows of each length near that of a block, beside plain lists of bytes.

use crate::check::check;
use crate::patches::patch_of;
use crate::reads::POLICIES;
use patch_abyss::{Abyss, Patch, fetch};
use pixel_formats::Format;
use std::alloc::Global;
use std::process::Abort;
use test_nodes::rect;

/// How many bytes a row has: one block of each size by which rows are copied, one byte less and one
/// more, and rows that are long.
const LENGTHS: [u16; 19] = [
    1, 3, 4, 5, 15, 16, 17, 31, 63, 64, 65, 127, 128, 129, 200, 255, 256, 257, 300,
];

/// Returns the bytes 0, 1, 2 and so on to 250, periodically.
fn counted(rt: &impl Abort, alloc: Global, count: u16) -> Vec<u8> {
    let mut bytes = Vec::new(alloc);
    for position in 0..count {
        bytes.push((position % 251) as u8).expect(rt, "memory");
    }
    bytes
}

/// Checks a part of so many bytes of each of two rows of 400.
fn check_part(rt: &impl Abort, alloc: Global, image: &Patch, bytes: &[u8], length: u16) {
    let part = image.part(alloc, rect([20, 0, i64::from(length), 2]));
    let part = part.expect(rt, "memory");
    let count = usize::from(length);
    check(rt, length, part.raw_bytes().len(), 2 * count);
    let (first, second) = (bytes.get(20..20 + count), bytes.get(420..420 + count));
    check(rt, length, part.raw_bytes().get(..count), first);
    check(rt, length, part.raw_bytes().get(count..), second);
}

#[test]
fn parts_of_each_length(rt: HostRuntime) {
    let bytes = counted(&rt, rt.alloc(), 800);
    let image = patch_of(&rt, rt.alloc(), [0, 0, 400, 2], Format::Y8, &bytes);
    for length in &LENGTHS {
        check_part(&rt, rt.alloc(), &image, &bytes, *length);
    }
}

/// Returns the sample that a row of 40 samples from the origin on gives under a policy.
fn plain_sample(abyss: Abyss, row: &[u8], x: i64) -> u8 {
    let position = match abyss {
        Abyss::Clamp => x.clamp(0, 39),
        Abyss::Loop => x.rem_euclid(40),
        _ => x,
    };
    let outside = if abyss == Abyss::White { 255 } else { 0 };
    usize::try_from(position)
        .ok()
        .and_then(|position| row.get(position).copied())
        .unwrap_or(outside)
}

/// Returns so many samples from x = -30 on.
fn plain_row(rt: &impl Abort, alloc: Global, abyss: Abyss, row: &[u8], length: u16) -> Vec<u8> {
    let mut samples = Vec::new(alloc);
    for index in 0..length {
        let sample = plain_sample(abyss, row, i64::from(index) - 30);
        samples.push(sample).expect(rt, "memory");
    }
    samples
}

/// Checks a read of so many samples of a row under a policy.
fn check_read(
    rt: &impl Abort,
    alloc: Global,
    image: &Patch,
    row: &[u8],
    length: u16,
    abyss: Abyss,
) {
    let over = rect([-30, 0, i64::from(length), 1]);
    let read = fetch(alloc, image, abyss, over).expect(rt, "memory");
    let wanted = plain_row(rt, alloc, abyss, row, length);
    check(rt, (abyss, length), read.raw_bytes(), wanted.as_slice());
}

#[test]
fn reads_of_each_length(rt: HostRuntime) {
    let row = counted(&rt, rt.alloc(), 40);
    let image = patch_of(&rt, rt.alloc(), [0, 0, 40, 1], Format::Y8, &row);
    for length in &LENGTHS {
        for abyss in &POLICIES {
            check_read(&rt, rt.alloc(), &image, &row, *length, *abyss);
        }
    }
}
