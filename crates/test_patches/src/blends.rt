//! Rows of each format that are mixed with others by a mask, beside the mixture's formula.

use crate::check::check;
use pixel_formats::Format;
use sample_rows::row_blend;
use std::process::Abort;

/// How many bytes the rows have, of which a row of pixels is a prefix.
const ROOM: usize = 528;

/// The bytes of a row before it is written.
const OLD: u8 = 7;

/// One pixel, one less and one more than what the kernel takes at once, and twice as many and one.
const COUNTS: [usize; 5] = [1, 15, 16, 17, 33];

/// How many weights there are: 0, 1, half of the largest sample, one less than it, and itself.
const WEIGHTS: usize = 5;

const FORMATS: [Format; 12] = [
    Format::Y8,
    Format::YA8,
    Format::RGB8,
    Format::RGBA8,
    Format::Y16,
    Format::YA16,
    Format::RGB16,
    Format::RGBA16,
    Format::Y32,
    Format::YA32,
    Format::RGB32,
    Format::RGBA32,
];

/// Returns the largest sample of so many bytes.
fn largest(depth: usize) -> u64 {
    match depth {
        1 => 255,
        2 => 65_535,
        _ => 4_294_967_295,
    }
}

/// Returns the weight of a pixel, where the first pixel has weight number `shift`.
fn weight(depth: usize, pixel: usize, shift: usize) -> u64 {
    let most = largest(depth);
    match pixel.wrapping_add(shift) % WEIGHTS {
        0 => 0,
        1 => 1,
        2 => most / 2,
        3 => most.wrapping_sub(1),
        _ => most,
    }
}

/// Returns a byte of a row, and 0 past its end.
fn byte(row: &[u8; ROOM], at: usize) -> u64 {
    match row.get(at) {
        Some(byte) => u64::from(*byte),
        None => 0,
    }
}

/// Returns the sample of so many bytes at an index of a row, the least significant first.
fn sample(row: &[u8; ROOM], depth: usize, index: usize) -> u64 {
    let at = index.wrapping_mul(depth);
    let mut value = 0u64;
    for k in 0..depth {
        let later = at.wrapping_add(depth).wrapping_sub(k.wrapping_add(1));
        value = value.wrapping_mul(256).wrapping_add(byte(row, later));
    }
    value
}

/// Returns the byte at an index of a sample, from the least significant one on.
fn byte_of(sample: u64, index: usize) -> u8 {
    let part = match index {
        0 => sample,
        1 => sample / 256,
        2 => sample / 65_536,
        _ => sample / 16_777_216,
    };
    (part % 256) as u8
}

/// Returns the mixture of two samples by a weight, rounded to the nearest.
fn mixture(depth: usize, base: u64, made: u64, weight: u64) -> u64 {
    let most = largest(depth).max(1);
    let left = most.wrapping_sub(weight);
    let sum = base
        .wrapping_mul(left)
        .wrapping_add(made.wrapping_mul(weight));
    sum.wrapping_add(most / 2) / most
}

/// Returns a row that begins with 0 and in which each byte is `step` above the one before it,
/// modulo 256.
fn row(step: u8) -> [u8; ROOM] {
    let mut row = [0u8; ROOM];
    let mut value = 0u8;
    for byte in &mut row {
        *byte = value;
        value = value.wrapping_add(step);
    }
    row
}

/// Returns the row of weights of a depth.
fn mask_row(depth: usize, shift: usize) -> [u8; ROOM] {
    let depth = depth.max(1);
    let mut row = [0u8; ROOM];
    for index in 0..ROOM {
        row[index] = byte_of(weight(depth, index / depth, shift), index % depth);
    }
    row
}

/// Returns what two rows become, as far as so many bytes are written.
fn wanted_row(
    f: Format,
    base: &[u8; ROOM],
    made: &[u8; ROOM],
    shift: usize,
    written: usize,
) -> [u8; ROOM] {
    let depth = (f.depth() as usize).max(1);
    let channels = (f.channels() as usize).max(1);
    let mut row = [OLD; ROOM];
    for index in 0..ROOM {
        if index < written {
            let at = index / depth;
            let share = weight(depth, at / channels, shift);
            let mixed = mixture(
                depth,
                sample(base, depth, at),
                sample(made, depth, at),
                share,
            );
            row[index] = byte_of(mixed, index % depth);
        }
    }
    row
}

/// Mixes rows, whose lengths suit.
fn blend(rt: &impl Abort, f: Format, base: &[u8], made: &[u8], mask: &[u8], dst: &mut [u8]) {
    let pixel = f.pixel_bytes() as usize;
    assert!(rt; pixel > 0 && base.len() % pixel == 0);
    assert!(rt; made.len() == base.len() && dst.len() == base.len());
    assert!(rt; (base.len() / pixel).checked_mul(f.depth() as usize) == Some(mask.len()));
    row_blend(f, base, made, mask, dst);
}

/// Checks what a row of so many pixels becomes.
fn check_row(
    rt: &impl Abort,
    f: Format,
    count: usize,
    shift: usize,
    base: &[u8; ROOM],
    made: &[u8; ROOM],
) {
    let written = count.saturating_mul(f.pixel_bytes() as usize);
    let weights = count.saturating_mul(f.depth() as usize);
    assert!(rt; written <= ROOM && weights <= ROOM);
    let mask = mask_row(f.depth() as usize, shift);
    let mut dst = [OLD; ROOM];
    blend(
        rt,
        f,
        &base[..written],
        &made[..written],
        &mask[..weights],
        &mut dst[..written],
    );
    let wanted = wanted_row(f, base, made, shift, written);
    check(rt, (f.word(), count, shift), dst, wanted);
}

#[test]
fn mixtures_of_each_format(rt: HostRuntime) {
    let base = row(37);
    let made = row(91);
    for format in &FORMATS {
        for count in &COUNTS {
            for shift in 0..WEIGHTS {
                check_row(&rt, *format, *count, shift, &base, &made);
            }
        }
    }
}
