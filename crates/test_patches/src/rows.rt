//! Small rows through each kernel, with results that were worked out by hand.

ghost use Rattle.std.specs.Prelude.{◌≡◌, length};

use crate::check::check;
use pixel_formats::Format;
use sample_rows::{
    convert_row, row_add, row_average4, row_gain, row_invert, row_mask, row_max, row_min, row_over,
    row_threshold,
};
use std::process::Abort;

/// The names of the formats of 32 bits.
const LONG_FORMATS: [(&str, Format); 4] = [
    ("Y32", Format::Y32),
    ("YA32", Format::YA32),
    ("RGB32", Format::RGB32),
    ("RGBA32", Format::RGBA32),
];

#[test]
fn names(rt: HostRuntime) {
    check(&rt, "name", Format::parse(b"RGBA16"), Some(Format::RGBA16));
    check(&rt, "no name", Format::parse(b"rgba16"), None);
    check(&rt, "word", Format::YA8.word(), "YA8");
    for (name, format) in &LONG_FORMATS {
        check(&rt, name, Format::parse(name.as_bytes()), Some(*format));
    }
    check(&rt, "no depth", Format::parse(b"Y64"), None);
}

/// What is done to a row.
#[derive(Clone, Copy, Debug)]
enum Change {
    /// It is converted to this format.
    Convert(Format),
    Invert,
    /// It is multiplied by a fraction.
    Gain(u32, u32),
    Threshold(u32),
}

/// A change, a format, a row, and what it becomes.
const CHANGES: [(Change, Format, &[u8], &[u8]); 29] = [
    (
        Change::Convert(Format::Y16),
        Format::Y8,
        &[128],
        &[0x80, 0x80],
    ),
    (
        Change::Convert(Format::Y8),
        Format::Y16,
        &[0x80, 0x80],
        &[128],
    ),
    (
        Change::Convert(Format::Y8),
        Format::RGB8,
        &[10, 20, 31],
        &[20],
    ),
    (Change::Convert(Format::Y8), Format::YA8, &[7, 9], &[7]),
    (
        Change::Convert(Format::RGBA8),
        Format::YA8,
        &[7, 9],
        &[7, 7, 7, 9],
    ),
    (
        Change::Convert(Format::YA16),
        Format::RGB16,
        &[0, 1, 0, 2, 0, 3],
        &[0, 2, 255, 255],
    ),
    (Change::Gain(5, 4), Format::Y8, &[100, 250], &[125, 255]),
    (Change::Gain(3, 200_000), Format::Y8, &[100, 250], &[0, 0]),
    (Change::Threshold(100), Format::Y8, &[99, 100], &[0, 255]),
    (
        Change::Invert,
        Format::YA8,
        &[30, 100, 120, 100],
        &[70, 100, 0, 100],
    ),
    (
        Change::Threshold(31),
        Format::YA8,
        &[30, 100, 120, 100],
        &[0, 100, 100, 100],
    ),
    // 258 of 513, and its inverse 255 under the same alpha.
    (Change::Invert, Format::YA16, &[2, 1, 1, 2], &[255, 0, 1, 2]),
    (
        Change::Convert(Format::Y32),
        Format::Y8,
        &[128],
        &[128, 128, 128, 128],
    ),
    (
        Change::Convert(Format::Y32),
        Format::Y16,
        &[2, 1],
        &[2, 1, 2, 1],
    ),
    // 2,155,905,152 is 128; 8,421,504 is a little less than a half of 1, and 8,421,505 a little more.
    (
        Change::Convert(Format::Y8),
        Format::Y32,
        &[128, 128, 128, 128, 128, 128, 128, 0, 129, 128, 128, 0],
        &[128, 0, 1],
    ),
    // 32,768 is a little less than a half of 1, and 32,769 a little more.
    (
        Change::Convert(Format::Y16),
        Format::Y32,
        &[0, 128, 0, 0, 1, 128, 0, 0, 255, 255, 255, 255],
        &[0, 0, 1, 0, 255, 255],
    ),
    // Three samples, of which one is less than the largest by one: their sum exceeds 32 bits.
    (
        Change::Convert(Format::Y32),
        Format::RGB32,
        &[255, 255, 255, 255, 255, 255, 255, 255, 254, 255, 255, 255],
        &[255, 255, 255, 255],
    ),
    (
        Change::Convert(Format::YA32),
        Format::RGB32,
        &[1, 0, 0, 0, 2, 0, 0, 0, 4, 0, 0, 0],
        &[2, 0, 0, 0, 255, 255, 255, 255],
    ),
    (
        Change::Convert(Format::RGBA32),
        Format::YA8,
        &[7, 9],
        &[7, 7, 7, 7, 7, 7, 7, 7, 7, 7, 7, 7, 9, 9, 9, 9],
    ),
    (
        Change::Convert(Format::Y8),
        Format::RGBA32,
        &[10, 10, 10, 10, 20, 20, 20, 20, 31, 31, 31, 31, 0, 0, 0, 0],
        &[20],
    ),
    // 100 and 4,000,000,000.
    (
        Change::Gain(5, 4),
        Format::Y32,
        &[100, 0, 0, 0, 0, 40, 107, 238],
        &[125, 0, 0, 0, 255, 255, 255, 255],
    ),
    // The largest sample is 65,537 times 65,535.
    (
        Change::Gain(1, 65_535),
        Format::Y32,
        &[255, 255, 255, 255],
        &[1, 0, 1, 0],
    ),
    (
        Change::Gain(65_535, 1),
        Format::Y32,
        &[1, 0, 1, 0, 0, 0, 1, 0],
        &[255, 255, 255, 255, 0, 0, 255, 255],
    ),
    (
        Change::Gain(3, 200_000),
        Format::Y32,
        &[0, 40, 107, 238],
        &[96, 234, 0, 0],
    ),
    (
        Change::Threshold(65_536),
        Format::Y32,
        &[255, 255, 0, 0, 0, 0, 1, 0],
        &[0, 0, 0, 0, 255, 255, 255, 255],
    ),
    (
        Change::Threshold(u32::MAX),
        Format::Y32,
        &[254, 255, 255, 255, 255, 255, 255, 255],
        &[0, 0, 0, 0, 255, 255, 255, 255],
    ),
    (
        Change::Threshold(31),
        Format::YA32,
        &[30, 0, 0, 0, 0, 0, 1, 0, 120, 0, 0, 0, 0, 0, 1, 0],
        &[0, 0, 0, 0, 0, 0, 1, 0, 0, 0, 1, 0, 0, 0, 1, 0],
    ),
    (
        Change::Invert,
        Format::Y32,
        &[2, 1, 0, 0],
        &[253, 254, 255, 255],
    ),
    // 258 under 16,909,060, and 16,909,061 above it.
    (
        Change::Invert,
        Format::YA32,
        &[2, 1, 0, 0, 4, 3, 2, 1, 5, 3, 2, 1, 4, 3, 2, 1],
        &[2, 2, 2, 1, 4, 3, 2, 1, 0, 0, 0, 0, 4, 3, 2, 1],
    ),
];

/// Converts a row into a slice of as many pixels.
fn convert(rt: &impl Abort, from: Format, src: &[u8], to: Format, dst: &mut [u8]) {
    let (pixel, wide) = (from.pixel_bytes() as usize, to.pixel_bytes() as usize);
    assert!(rt; pixel > 0 && src.len() % pixel == 0);
    assert!(rt; (src.len() / pixel).checked_mul(wide) == Some(dst.len()));
    convert_row(from, src, to, dst);
}

/// Changes a row into a slice.
fn make_change(rt: &impl Abort, change: Change, f: Format, src: &[u8], dst: &mut [u8])
    ensures { length dst.new ≡ length dst.old }
{
    if let Change::Convert(to) = change {
        return convert(rt, f, src, to, dst);
    }
    let pixel = f.pixel_bytes() as usize;
    assert!(rt; pixel > 0 && src.len() % pixel == 0 && dst.len() == src.len());
    match change {
        Change::Convert(_) => {}
        Change::Invert => row_invert(f, src, dst),
        Change::Gain(num, den) => {
            assert!(rt; den > 0);
            row_gain(f, num, den, src, dst);
        }
        Change::Threshold(at) => row_threshold(f, at, src, dst),
    }
}

#[test]
fn changes(rt: HostRuntime) {
    let mut room = [0u8; 16];
    for (row, (what, f, src, wanted)) in CHANGES.iter().enumerate() {
        let dst = room
            .get_mut(..wanted.len())
            .expect(&rt, "at most sixteen bytes");
        make_change(&rt, *what, *f, src, dst);
        check(&rt, row, &*dst, *wanted);
    }
}

/// What is made of two rows.
#[derive(Clone, Copy, Debug)]
enum Pair {
    Add,
    Min,
    Max,
    /// The first scaled by the second.
    Mask,
    /// The first over the second.
    Over,
    /// Half a row of the means of four.
    Average,
}

/// What is made, a format, two rows, and the row that they make.
const PAIRS: [(Pair, Format, &[u8], &[u8], &[u8]); 14] = [
    (Pair::Add, Format::Y8, &[200, 3], &[100, 4], &[255, 7]),
    (Pair::Min, Format::Y8, &[200, 3], &[100, 4], &[100, 3]),
    (Pair::Max, Format::Y8, &[200, 3], &[100, 4], &[200, 4]),
    // As numbers of two bytes, 513 is above 258.
    (Pair::Max, Format::Y16, &[2, 1], &[1, 2], &[1, 2]),
    (
        Pair::Mask,
        Format::Y8,
        &[200, 200],
        &[128, 255],
        &[100, 200],
    ),
    // The upper pixel leaves 155 parts in 255 of the lower one, which are 61 of 100 and 122 of 200.
    (
        Pair::Over,
        Format::YA8,
        &[50, 100],
        &[100, 200],
        &[111, 222],
    ),
    (
        Pair::Average,
        Format::Y8,
        &[1, 2, 9, 9],
        &[3, 4, 9, 8],
        &[3, 9],
    ),
    // 300 below 16,777,216, and a sum above the largest sample.
    (
        Pair::Add,
        Format::Y32,
        &[200, 0, 0, 0, 255, 255, 255, 255],
        &[100, 0, 0, 1, 1, 0, 0, 0],
        &[44, 1, 0, 1, 255, 255, 255, 255],
    ),
    // As numbers of four bytes, 16,777,216 is above 16,777,215, and 2^31 above 2^31 - 1.
    (
        Pair::Min,
        Format::Y32,
        &[0, 0, 0, 1, 0, 0, 0, 128],
        &[255, 255, 255, 0, 255, 255, 255, 127],
        &[255, 255, 255, 0, 255, 255, 255, 127],
    ),
    (
        Pair::Max,
        Format::Y32,
        &[0, 0, 0, 1, 0, 0, 0, 128],
        &[255, 255, 255, 0, 255, 255, 255, 127],
        &[0, 0, 0, 1, 0, 0, 0, 128],
    ),
    // 2^31 - 1 is a little less than a half of the largest sample, and 2^31 a little more.
    (
        Pair::Mask,
        Format::Y32,
        &[1, 0, 0, 0, 1, 0, 0, 0, 3, 0, 0, 0, 255, 255, 255, 255],
        &[255, 255, 255, 127, 0, 0, 0, 128, 0, 0, 0, 128, 0, 0, 0, 128],
        &[0, 0, 0, 0, 1, 0, 0, 0, 2, 0, 0, 0, 0, 0, 0, 128],
    ),
    // The upper pixel leaves 2^31 - 1 parts of the lower one, which are 50 of 100.
    (
        Pair::Over,
        Format::YA32,
        &[50, 0, 0, 0, 0, 0, 0, 128],
        &[100, 0, 0, 0, 255, 255, 255, 255],
        &[100, 0, 0, 0, 255, 255, 255, 255],
    ),
    // A color above its alpha, and the largest lower one.
    (
        Pair::Over,
        Format::YA32,
        &[255, 255, 255, 255, 0, 0, 0, 128],
        &[255, 255, 255, 255, 255, 255, 255, 255],
        &[255, 255, 255, 255, 255, 255, 255, 255],
    ),
    (
        Pair::Average,
        Format::Y32,
        &[
            255, 255, 255, 255, 255, 255, 255, 255, 1, 0, 0, 0, 2, 0, 0, 0,
        ],
        &[
            255, 255, 255, 255, 255, 255, 255, 255, 3, 0, 0, 0, 4, 0, 0, 0,
        ],
        &[255, 255, 255, 255, 3, 0, 0, 0],
    ),
];

/// Makes a row of two that are as long.
fn combine(rt: &impl Abort, pair: Pair, f: Format, a: &[u8], b: &[u8], dst: &mut [u8]) {
    let pixel = f.pixel_bytes() as usize;
    assert!(rt; pixel > 0 && a.len() % pixel == 0 && b.len() == a.len() && dst.len() == a.len());
    match pair {
        Pair::Add => row_add(f, a, b, dst),
        Pair::Min => row_min(f, a, b, dst),
        Pair::Max => row_max(f, a, b, dst),
        Pair::Mask => {
            assert!(rt; (a.len() / pixel).checked_mul(f.depth() as usize) == Some(b.len()));
            row_mask(f, a, b, dst);
        }
        Pair::Over => {
            assert!(rt; f.has_alpha());
            row_over(f, a, b, dst);
        }
        Pair::Average => {}
    }
}

/// Makes half a row of the means of four samples each of two rows.
fn average(rt: &impl Abort, f: Format, up: &[u8], down: &[u8], dst: &mut [u8]) {
    let pixel = f.pixel_bytes() as usize;
    assert!(rt; pixel > 0 && dst.len() % pixel == 0 && dst.len() <= 16);
    assert!(rt; up.len() == 2 * dst.len() && down.len() == 2 * dst.len());
    row_average4(f, up, down, dst);
}

#[test]
fn pairs(rt: HostRuntime) {
    let mut room = [0u8; 16];
    for (row, (pair, f, a, b, wanted)) in PAIRS.iter().enumerate() {
        let dst = room
            .get_mut(..wanted.len())
            .expect(&rt, "at most sixteen bytes");
        match pair {
            Pair::Average => average(&rt, *f, a, b, dst),
            _ => combine(&rt, *pair, *f, a, b, dst),
        }
        check(&rt, row, &*dst, *wanted);
    }
}
