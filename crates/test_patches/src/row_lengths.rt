//! Rows of each length near that of a block, through a kernel for each shape of loop.

ghost use Rattle.std.specs.Prelude.{◌<◌, ◌≤◌};

use crate::check::check;
use pixel_formats::Format;
use sample_rows::{convert_row, row_add, row_average4, row_invert, row_mask, row_over};
use std::process::Abort;

/// How many bytes the rows have that are read and written, of which a kernel uses a prefix.
const ROOM: usize = 400;

/// The largest sample of four bytes.
const LARGEST: usize = 4_294_967_295;

/// The bytes of a row before it is written.
const OLD: u8 = 7;

/// None, one, and one less and one more than what kernels take at once: four pixels, eight,
/// sixteen and thirty-two.
const COUNTS: [usize; 14] = [0, 1, 3, 4, 5, 7, 8, 9, 15, 16, 17, 31, 32, 33];

/// The shapes of loops.
const SHAPES: [Shape; 16] = [
    Shape::Samples,
    Shape::PixelsWithAlpha,
    Shape::Pairs,
    Shape::PairsWithAlpha,
    Shape::Widening,
    Shape::Narrowing,
    Shape::Halving,
    Shape::HalvingColors,
    Shape::Masked,
    Shape::Layouts,
    Shape::LongSamples,
    Shape::LongPairs,
    Shape::LongHalving,
    Shape::LongMasked,
    Shape::Spreading,
    Shape::Gathering,
];

/// A shape of loop, by one kernel that has it.
#[derive(Clone, Copy, Debug)]
enum Shape {
    /// Inverting Y8.
    Samples,
    /// Inverting RGBA8.
    PixelsWithAlpha,
    /// Adding Y8.
    Pairs,
    /// Compositing YA8 over YA8.
    PairsWithAlpha,
    /// Y8 to Y16.
    Widening,
    /// Y16 to Y8.
    Narrowing,
    /// The means of four of Y8.
    Halving,
    /// The means of four of RGB8.
    HalvingColors,
    /// Masking RGB8.
    Masked,
    /// RGBA8 to Y8.
    Layouts,
    /// Inverting Y32.
    LongSamples,
    /// Adding Y32.
    LongPairs,
    /// The means of four of Y32.
    LongHalving,
    /// Masking Y32.
    LongMasked,
    /// Y8 to Y32.
    Spreading,
    /// Y32 to Y8.
    Gathering,
}

impl Shape {
    /// Returns how many bytes of so many pixels are written.
    fn written(self, n: usize) -> usize
        requires { n ≤ 33 }
    {
        match self {
            Shape::Samples | Shape::Pairs | Shape::Narrowing | Shape::Halving => n,
            Shape::Layouts | Shape::Gathering => n,
            Shape::PairsWithAlpha | Shape::Widening => n * 2,
            Shape::HalvingColors | Shape::Masked => n * 3,
            Shape::PixelsWithAlpha | Shape::LongSamples | Shape::LongPairs => n * 4,
            Shape::LongHalving | Shape::LongMasked | Shape::Spreading => n * 4,
        }
    }

    /// Writes a row of so many pixels.
    fn write(self, n: usize, first: &[u8; ROOM], second: &[u8; ROOM], dst: &mut [u8; ROOM])
        requires { n ≤ 33 }
    {
        match self {
            Shape::Samples => row_invert(Format::Y8, &first[..n], &mut dst[..n]),
            Shape::PixelsWithAlpha => {
                row_invert(Format::RGBA8, &first[..n * 4], &mut dst[..n * 4]);
            }
            Shape::Pairs => row_add(Format::Y8, &first[..n], &second[..n], &mut dst[..n]),
            Shape::PairsWithAlpha => row_over(
                Format::YA8,
                &first[..n * 2],
                &second[..n * 2],
                &mut dst[..n * 2],
            ),
            Shape::Widening => convert_row(Format::Y8, &first[..n], Format::Y16, &mut dst[..n * 2]),
            Shape::Narrowing => {
                convert_row(Format::Y16, &first[..n * 2], Format::Y8, &mut dst[..n]);
            }
            Shape::Halving => row_average4(
                Format::Y8,
                &first[..n * 2],
                &second[..n * 2],
                &mut dst[..n],
            ),
            Shape::HalvingColors => row_average4(
                Format::RGB8,
                &first[..n * 6],
                &second[..n * 6],
                &mut dst[..n * 3],
            ),
            Shape::Masked => row_mask(
                Format::RGB8,
                &first[..n * 3],
                &second[..n],
                &mut dst[..n * 3],
            ),
            Shape::Layouts => convert_row(
                Format::RGBA8,
                &first[..n * 4],
                Format::Y8,
                &mut dst[..n],
            ),
            _ => self.write_long(n, first, second, dst),
        }
    }

    /// Writes a row of so many pixels, which are read or written as samples of four bytes.
    fn write_long(self, n: usize, first: &[u8; ROOM], second: &[u8; ROOM], dst: &mut [u8; ROOM])
        requires { n ≤ 33 }
    {
        let (long, halved) = (Format::Y32, n * 8);
        let n4 = n * 4;
        match self {
            Shape::LongSamples => row_invert(long, &first[..n4], &mut dst[..n4]),
            Shape::LongPairs => row_add(long, &first[..n4], &second[..n4], &mut dst[..n4]),
            Shape::LongHalving => {
                row_average4(long, &first[..halved], &second[..halved], &mut dst[..n4]);
            }
            Shape::LongMasked => row_mask(long, &first[..n4], &second[..n4], &mut dst[..n4]),
            Shape::Spreading => convert_row(Format::Y8, &first[..n], long, &mut dst[..n4]),
            Shape::Gathering => convert_row(long, &first[..n4], Format::Y8, &mut dst[..n]),
            _ => {}
        }
    }

    /// Returns the byte at an index, by the kernel's formula.
    fn expected(self, index: usize) -> usize
        requires { index < 400 }
    {
        let s = first(index);
        match self {
            Shape::Samples => 255 - s,
            Shape::PixelsWithAlpha if index % 4 == 3 => s,
            Shape::PixelsWithAlpha => first(index / 4 * 4 + 3).saturating_sub(s),
            Shape::Pairs => (s + second(index)).min(255),
            Shape::PairsWithAlpha => {
                let left = 255 - first(index / 2 * 2 + 1);
                (s + (second(index) * left + 127) / 255).min(255)
            }
            // 257 times a byte is the byte twice.
            Shape::Widening => first(index / 2),
            Shape::Narrowing => {
                let wide = first(index * 2) + 256 * first(index * 2 + 1);
                (wide * 255 + 32_767) / 65_535
            }
            Shape::Halving => {
                let up = first(index * 2) + first(index * 2 + 1);
                let down = second(index * 2) + second(index * 2 + 1);
                (up + down + 2) / 4
            }
            Shape::HalvingColors => {
                let left = index / 3 * 6 + index % 3;
                let up = first(left) + first(left + 3);
                let down = second(left) + second(left + 3);
                (up + down + 2) / 4
            }
            Shape::Masked => (s * second(index / 3) + 127) / 255,
            Shape::Layouts => {
                let colors = first(index * 4) + first(index * 4 + 1) + first(index * 4 + 2);
                (colors + 1) / 3
            }
            Shape::Spreading => first(index / 4),
            Shape::Gathering => (first_sample(index) * 255 + LARGEST / 2) / LARGEST,
            _ => byte_of(self.expected_sample(index / 4), index % 4),
        }
    }

    /// Returns the sample of four bytes at an index, by the kernel's formula.
    fn expected_sample(self, index: usize) -> usize
        requires { index < 100 }
    {
        let (s, t) = (first_sample(index), second_sample(index));
        match self {
            Shape::LongPairs => (s + t).min(LARGEST),
            Shape::LongHalving => {
                let up = first_sample(index * 2) + first_sample(index * 2 + 1);
                let down = second_sample(index * 2) + second_sample(index * 2 + 1);
                (up + down + 2) / 4
            }
            Shape::LongMasked => s.wrapping_mul(t).wrapping_add(LARGEST / 2) / LARGEST,
            _ => LARGEST - s,
        }
    }
}

/// Returns the byte at an index of a sample, from the least significant one on.
fn byte_of(sample: usize, index: usize) -> usize {
    match index {
        0 => sample % 256,
        1 => sample / 256 % 256,
        2 => sample / 65_536 % 256,
        _ => sample / 16_777_216 % 256,
    }
}

/// Returns the byte at an index of the first row that is read.
fn first(index: usize) -> usize
    requires { index < 1604 }
    ensures { result < 256 }
{
    index * 37 % 256
}

/// Returns the sample of four bytes at an index of the first row that is read.
fn first_sample(index: usize) -> usize
    requires { index < 400 }
    ensures { result < 4294967296 }
{
    let at = index * 4;
    first(at) + 256 * first(at + 1) + 65_536 * first(at + 2) + 16_777_216 * first(at + 3)
}

/// Returns the sample of four bytes at an index of the second.
fn second_sample(index: usize) -> usize
    requires { index < 400 }
    ensures { result < 4294967296 }
{
    let at = index * 4;
    second(at) + 256 * second(at + 1) + 65_536 * second(at + 2) + 16_777_216 * second(at + 3)
}

/// Returns the byte at an index of the second.
fn second(index: usize) -> usize
    requires { index < 1604 }
    ensures { result < 256 }
{
    index * 91 % 256
}

/// Returns a row that begins with 0 and in which each byte is `step` above the one before it,
/// modulo 256.
fn row(step: u8) -> [u8; ROOM] {
    let mut row = [0u8; ROOM];
    let mut value = 0u8;
    for byte in &mut row {
        *byte = value;
        value = value.wrapping_add(step);
    }
    row
}

/// Returns the row that so many pixels become.
fn wanted_row(rt: &impl Abort, shape: Shape, count: usize) -> [u8; ROOM] {
    assert!(rt; count <= 33);
    let mut row = [OLD; ROOM];
    let written = shape.written(count);
    for index in 0..ROOM {
        if index < written {
            row[index] = u8::try_from(shape.expected(index)).expect(rt, "a byte");
        }
    }
    row
}

/// Checks what a row of so many pixels becomes.
fn check_row(rt: &impl Abort, shape: Shape, count: usize, first: &[u8; ROOM], second: &[u8; ROOM]) {
    assert!(rt; count <= 33);
    let mut dst = [OLD; ROOM];
    shape.write(count, first, second, &mut dst);
    check(rt, (shape, count), dst, wanted_row(rt, shape, count));
}

#[test]
fn lengths(rt: HostRuntime) {
    let first = row(37);
    let second = row(91);
    for shape in &SHAPES {
        for count in &COUNTS {
            check_row(&rt, *shape, *count, &first, &second);
        }
    }
}
