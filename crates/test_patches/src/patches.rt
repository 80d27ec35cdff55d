//! Expected values are worked out by hand from the doc comments, but for those of the tables.

ghost use Rattle.std.specs.Prelude.{◌≡◌};
ghost use Rattle.pixel_formats.specs.declared.format.Format.TheVariants.{Y8};

use crate::check::check;
use crate::halved_cases::HALVED;
use patch_abyss::{Patch, PatchRefused, halve};
use pixel_formats::Format;
use plane_rect::TileAt;
use std::alloc::Global;
use std::process::Abort;
use test_nodes::rect;
use tile_cow::Tile;

/// Returns the patch of a rectangle, which has these raw bytes.
pub fn patch_of(
    rt: &impl Abort,
    alloc: Global,
    fields: [i64; 4],
    format: Format,
    bytes: &[u8],
) -> Patch
    ensures { result.format ≡ format }
{
    Patch::from_raw(alloc, rect(fields), format, bytes).expect(rt, "as many bytes")
}

/// Returns the patch of rows 1 2 and 3 4 from x = y = -1 on.
fn one_to_four(rt: &impl Abort, alloc: Global) -> Patch
    ensures { result.format ≡ Y8 }
{
    patch_of(rt, alloc, [-1, -1, 2, 2], Format::Y8, &[1, 2, 3, 4])
}

/// Bytes of which a rectangle of 18 has too many or too few.
const WRONG: [&[u8]; 3] = [&[0; 17], &[0; 19], &[]];

#[test]
fn from_raw_refuses_a_wrong_length(rt: HostRuntime) {
    for bytes in &WRONG {
        let patch = Patch::from_raw(rt.alloc(), rect([0, 0, 3, 2]), Format::RGB8, bytes);
        let found = bytes.len() as u64;
        let refused = PatchRefused::WrongSize { found, wanted: 18 };
        check(&rt, found, patch.err(), Some(refused));
    }
}

/// A position, and the sample there.
const SAMPLES: [(i32, i32, u32); 8] = [
    (-1, -1, 1),
    (0, -1, 2),
    (-1, 0, 3),
    (0, 0, 4),
    (1, 0, 0),
    (0, -2, 0),
    (i32::MIN, 0, 0),
    (0, i32::MAX, 0),
];

#[test]
fn samples_by_x_and_y(rt: HostRuntime) {
    let patch = one_to_four(&rt, rt.alloc());
    for (row, (x, y, sample)) in SAMPLES.iter().enumerate() {
        check(&rt, row, patch.at(*x, *y, 0), *sample);
    }
}

#[test]
fn samples_of_four_bytes(rt: HostRuntime) {
    let bytes = [1, 2, 3, 4, 255, 255, 255, 255];
    let patch = patch_of(&rt, rt.alloc(), [0, 0, 1, 1], Format::YA32, &bytes);
    check(&rt, "color", patch.at(0, 0, 0), 67_305_985);
    check(&rt, "alpha", patch.at(0, 0, 1), u32::MAX);
    check(&rt, "outside", patch.at(1, 0, 1), 0);
}

/// A rectangle, and the samples over it.
const PARTS: [([i64; 4], [u8; 4]); 5] = [
    ([-1, -1, 2, 2], [1, 2, 3, 4]),
    ([0, 0, 2, 2], [4, 0, 0, 0]),
    ([-2, -1, 2, 2], [0, 1, 0, 3]),
    ([-2, 0, 4, 1], [0, 3, 4, 0]),
    ([-16_777_216, -16_777_216, 2, 2], [0, 0, 0, 0]),
];

#[test]
fn parts(rt: HostRuntime) {
    let patch = one_to_four(&rt, rt.alloc());
    for (fields, samples) in &PARTS {
        let part = patch.part(rt.alloc(), rect(*fields));
        let part = part.expect(&rt, "memory");
        check(&rt, fields, part.raw_bytes(), samples.as_slice());
    }
}

/// Returns the patch of zeros over a rectangle.
fn zeros(rt: &impl Abort, alloc: Global, fields: [i64; 4], format: Format) -> Patch
    ensures { result.format ≡ format }
{
    Patch::zero(alloc, rect(fields), format).expect(rt, "memory")
}

#[test]
fn blits_the_meet(rt: HostRuntime) {
    let alloc = rt.alloc();
    let mut patch = zeros(&rt, alloc, [0, -1, 3, 2], Format::Y8);
    patch.blit(&one_to_four(&rt, alloc));
    check(
        &rt,
        "meet",
        patch.raw_bytes(),
        [2, 0, 0, 4, 0, 0].as_slice(),
    );
}

/// Returns the bytes of a tile of a patch.
fn tile_of(rt: &impl Abort, alloc: Global, patch: &Patch, at: TileAt) -> Tile {
    patch.tile(alloc, at).expect(rt, "memory")
}

#[test]
fn tiles_of_a_patch(rt: HostRuntime) {
    let patch = one_to_four(&rt, rt.alloc());
    let tile = tile_of(&rt, rt.alloc(), &patch, TileAt::of(-1, 0));
    check(&rt, "bytes", tile.bytes().len(), 4096);
    check(&rt, "at 63", tile.bytes().get(63), Some(&3));
    check(&rt, "at 62", tile.bytes().get(62), Some(&0));
    let after = tile_of(&rt, rt.alloc(), &patch, TileAt::of(16_777_216, 0));
    assert!(rt; after.bytes().iter().all(|byte| *byte == 0));
}

#[test]
fn puts_tiles(rt: HostRuntime) {
    let mut patch = zeros(&rt, rt.alloc(), [63, -1, 2, 2], Format::YA8);
    let tile = Tile::of(rt.alloc(), &[7; 8_192]).expect(&rt, "memory");
    patch.put_tile(TileAt::of(64, 0), &tile);
    check(
        &rt,
        "put",
        patch.raw_bytes(),
        [0, 0, 0, 0, 0, 0, 7, 7].as_slice(),
    );
    let back = tile_of(&rt, rt.alloc(), &patch, TileAt::of(64, 0));
    check(&rt, "bytes", back.bytes().len(), 8_192);
    let sevens = back.bytes().iter().filter(|byte| **byte == 7).count();
    check(&rt, "sevens", sevens, 2);
    assert!(rt; back.bytes().starts_with(&[7, 7, 0]));
}

#[test]
fn tiles_of_the_widest_format(rt: HostRuntime) {
    let bytes = [1, 2, 3, 4, 5, 6, 7, 8, 9, 10, 11, 12, 13, 14, 15, 16];
    let patch = patch_of(&rt, rt.alloc(), [65, 0, 1, 1], Format::RGBA32, &bytes);
    let tile = tile_of(&rt, rt.alloc(), &patch, TileAt::of(64, 0));
    assert!(rt; tile.bytes().len() == 65_536);
    let second = tile.bytes().get(16..32);
    check(&rt, "second pixel", second, Some(bytes.as_slice()));
    let mut back = zeros(&rt, rt.alloc(), [65, 0, 1, 1], Format::RGBA32);
    back.put_tile(TileAt::of(64, 0), &tile);
    check(&rt, "put", back.raw_bytes(), bytes.as_slice());
}

/// Checks the half of an image.
fn check_half(rt: &impl Abort, row: usize, image: &Patch, half: &Patch, fields: [i64; 4]) {
    check(rt, row, half.rect(), rect(fields));
    check(rt, row, half.format(), image.format());
}

#[test]
fn halves(rt: HostRuntime) {
    let alloc = rt.alloc();
    for (row, (format, bounds, bytes, half_bounds, half_bytes)) in HALVED.iter().enumerate() {
        let image = patch_of(&rt, alloc, *bounds, *format, bytes);
        let half = halve(alloc, &image).expect(&rt, "memory");
        check_half(&rt, row, &image, &half, *half_bounds);
        check(&rt, row, half.raw_bytes(), *half_bytes);
    }
}
