//! Patches of levels, of one strip and of two.

ghost use Rattle.std.specs.Prelude.{◌≡◌};
ghost use Rattle.pixel_formats.specs.declared.format.Format.TheVariants.{Y8};

use crate::strips::patches::{even, gray};
use crate::values::{Fields, check_row};
use pixel_formats::Format;
use std::alloc::Global;
use std::process::Abort;
use strip_patches::LevelPatch;
use test_nodes::rect;

/// Gray pixels of a rectangle, one after another or of one gray everywhere.
#[derive(Clone, Copy)]
enum Strip {
    Of(Fields, &'static [u8]),
    Even(Fields, u8),
}

/// A rectangle and its level, the strips that it is made of, and the level's pixels.
type Example = (Fields, u32, &'static [Strip], &'static [u8]);

/// Eight pixels.
const PIXELS: Strip = Strip::Of([0, 0, 4, 2], &[1, 2, 3, 4, 10, 20, 30, 40]);

/// At level 0 the patch is the strip, and at level 1 the mean of four, rounded to the nearest. Of two strips across the row
/// 64 the rows of level 1 follow one another, and one pixel of level 7 is averaged of both. A request of no position has no
/// strip, and its patch no pixel.
const EXAMPLES: [Example; 5] = [
    ([0, 0, 4, 2], 0, &[PIXELS], &[1, 2, 3, 4, 10, 20, 30, 40]),
    ([0, 0, 2, 1], 1, &[PIXELS], &[8, 19]),
    (
        [0, 31, 1, 2],
        1,
        &[
            Strip::Of([0, 62, 2, 2], &[1, 2, 3, 4]),
            Strip::Of([0, 64, 2, 2], &[5, 6, 7, 8]),
        ],
        &[3, 7],
    ),
    (
        [0, 0, 1, 1],
        7,
        &[
            Strip::Even([0, 0, 128, 64], 10),
            Strip::Even([0, 64, 128, 64], 31),
        ],
        &[21],
    ),
    ([0, 0, 0, 0], 8, &[], &[]),
];

/// Returns the patch of a rectangle of a level to which no strip was added.
fn request(rt: &impl Abort, alloc: Global, fields: Fields, level: u32) -> LevelPatch
    ensures { result.patch.format ≡ Y8 }
{
    let rect = rect(fields);
    assert!(rt; level <= 8 && rect.scaled(level).is_some());
    LevelPatch::new(alloc, rect, level, Format::Y8).expect(rt, "memory")
}

/// Adds a strip.
fn add(rt: &impl Abort, alloc: Global, made: &mut LevelPatch, strip: &Strip)
    requires { made.old.patch.format ≡ Y8 }
    ensures { made.new.patch.format ≡ Y8 }
{
    let patch = match strip {
        Strip::Of(fields, pixels) => gray(rt, alloc, *fields, pixels),
        Strip::Even(fields, pixel) => even(rt, alloc, *fields, *pixel),
    };
    made.add(alloc, patch).expect(rt, "memory");
}

/// Checks the rectangle and the pixels of a level that is made of strips.
fn check_level(rt: &impl Abort, alloc: Global, row: usize, example: &Example) {
    let (fields, level, strips, pixels) = *example;
    let mut made = request(rt, alloc, fields, level);
    for strip in strips {
        add(rt, alloc, &mut made, strip);
    }
    let patch = made.finish(alloc).expect(rt, "memory");
    assert!(rt; patch.rect() == rect(fields));
    check_row(rt, row, &patch.raw_bytes(), &pixels);
}

#[test]
fn levels_are_made_of_strips(rt: HostRuntime) {
    for (row, example) in EXAMPLES.iter().enumerate() {
        check_level(&rt, rt.alloc(), row, example);
    }
}
