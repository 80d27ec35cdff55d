//! Small images, and what is read of them under each policy.
//!
//! The pixels were found by a program of its own, position by position: outside an image by the remainder of
//! x and y under `Loop`, and by the nearest x and y under `Clamp`.

use pixel_formats::Format;

/// An image: its rectangle as x, y, width and height, its raw bytes, and those of a black pixel.
#[derive(Clone, Copy)]
pub struct Image {
    pub bounds: [i64; 4],
    pub format: Format,
    pub black: &'static [u8],
    pub bytes: &'static [u8],
}

/// What is read over a rectangle: under `None`, `Black` and `White`, under `Clamp`, and under `Loop`. A digit
/// is the image's pixel of this number, from 1 on, and a dot is a pixel that the policy has outside.
pub type Drawn = ([i64; 4], [&'static str; 3]);

/// Two rows, 1 2 3 above 4 5 6, from x = 1 and y = -1 on.
const SIX: Image = Image {
    bounds: [1, -1, 3, 2],
    format: Format::Y8,
    black: &[0],
    bytes: &[1, 2, 3, 4, 5, 6],
};

/// One position.
const ONE: Image = Image {
    bounds: [-3, 5, 1, 1],
    format: Format::Y8,
    black: &[0],
    bytes: &[9],
};

/// No position.
const NOWHERE: Image = Image {
    bounds: [0, 0, 0, 0],
    format: Format::Y8,
    black: &[0],
    bytes: &[],
};

/// No position, of a format with alpha.
const NOWHERE_WITH_ALPHA: Image = Image {
    bounds: [0, 0, 0, 0],
    format: Format::RGBA16,
    black: &[0, 0, 0, 0, 0, 0, 255, 255],
    bytes: &[],
};

/// No position, of the widest format.
const NOWHERE_OF_32_BITS: Image = Image {
    bounds: [0, 0, 0, 0],
    format: Format::RGBA32,
    black: &[0, 0, 0, 0, 0, 0, 0, 0, 0, 0, 0, 0, 255, 255, 255, 255],
    bytes: &[],
};

/// Images that are read.
pub const READ: [(Image, Drawn); 16] = [
    (SIX, ([-4, -5, 2, 2], ["....", "1111", "2356"])),
    (SIX, ([6, 3, 2, 2], ["....", "6666", "3164"])),
    (SIX, ([0, -2, 2, 2], ["...1", "1111", "6431"])),
    (SIX, ([3, 0, 2, 2], ["6...", "6666", "6431"])),
    (
        SIX,
        (
            [0, -3, 5, 6],
            [
                "...........123..456...........",
                "112331123311233445664456644566",
                "312316456431231645643123164564",
            ],
        ),
    ),
    (
        SIX,
        ([-16_777_216, -16_777_216, 2, 2], ["....", "1111", "5623"]),
    ),
    (
        SIX,
        ([16_777_214, 16_777_214, 2, 2], ["....", "6666", "5623"]),
    ),
    (SIX, ([-16_777_216, 0, 3, 1], ["...", "444", "564"])),
    (SIX, ([2, -1, 2, 2], ["2356", "2356", "2356"])),
    (SIX, ([1, -1, 3, 2], ["123456", "123456", "123456"])),
    (SIX, ([0, 0, 0, 0], ["", "", ""])),
    (
        SIX,
        ([-1, -1, 9, 1], ["..123....", "111233333", "231231231"]),
    ),
    (
        ONE,
        ([-4, 4, 3, 3], ["....1....", "111111111", "111111111"]),
    ),
    (NOWHERE, ([7, -7, 1, 1], [".", ".", "."])),
    (NOWHERE_WITH_ALPHA, ([7, -7, 1, 1], [".", ".", "."])),
    (NOWHERE_OF_32_BITS, ([7, -7, 1, 1], [".", ".", "."])),
];

/// Two pixels from the origin on, in each format: a black pixel, and their bytes.
pub const TWO: [(Format, &[u8], &[u8]); 12] = [
    (Format::Y8, &[0], &[10, 20]),
    (Format::YA8, &[0, 255], &[17, 34, 51, 68]),
    (Format::RGB8, &[0, 0, 0], &[17, 34, 51, 68, 85, 102]),
    (
        Format::RGBA8,
        &[0, 0, 0, 255],
        &[17, 34, 51, 68, 85, 102, 119, 136],
    ),
    (Format::Y16, &[0, 0], &[17, 1, 34, 2]),
    (
        Format::YA16,
        &[0, 0, 255, 255],
        &[17, 1, 34, 2, 51, 3, 68, 4],
    ),
    (
        Format::RGB16,
        &[0, 0, 0, 0, 0, 0],
        &[17, 1, 34, 2, 51, 3, 68, 4, 85, 5, 102, 6],
    ),
    (
        Format::RGBA16,
        &[0, 0, 0, 0, 0, 0, 255, 255],
        &[17, 1, 34, 2, 51, 3, 68, 4, 85, 5, 102, 6, 119, 7, 136, 8],
    ),
    (
        Format::Y32,
        &[0, 0, 0, 0],
        &[17, 1, 10, 200, 34, 2, 11, 201],
    ),
    (
        Format::YA32,
        &[0, 0, 0, 0, 255, 255, 255, 255],
        &[
            17, 1, 10, 200, 34, 2, 11, 201, 51, 3, 12, 202, 68, 4, 13, 203,
        ],
    ),
    (
        Format::RGB32,
        &[0, 0, 0, 0, 0, 0, 0, 0, 0, 0, 0, 0],
        &[
            17, 1, 10, 200, 34, 2, 11, 201, 51, 3, 12, 202, 68, 4, 13, 203, 85, 5, 14, 204, 102, 6,
            15, 205,
        ],
    ),
    (
        Format::RGBA32,
        &[0, 0, 0, 0, 0, 0, 0, 0, 0, 0, 0, 0, 255, 255, 255, 255],
        &[
            17, 1, 10, 200, 34, 2, 11, 201, 51, 3, 12, 202, 68, 4, 13, 203, 85, 5, 14, 204, 102, 6,
            15, 205, 119, 7, 16, 206, 136, 8, 17, 207,
        ],
    ),
];

/// The two pixels with one position more on either side.
pub const AROUND_TWO: Drawn = ([-1, 0, 4, 1], [".12.", "1122", "2121"]);
