//! Pictures that keep tiles, and which ones do.

ghost use Rattle.std.specs.Prelude.{◌≡◌, ◌*◌, ◌<◌, All, IfOk};
ghost use Rattle.pixel_formats.specs.{Format.pixel_bytes, declared.format.Format.TheVariants.Y8};
ghost use Rattle.plane_rect.specs.Tile.{IsWhole};
ghost use Rattle.op_contracts.specs.TileList.{HasLength};

use crate::strips::patches::gray;
use crate::values::{Fields, check_row};
use alloc_basics::NoMemory;
use op_contracts::WindowTiles;
use patch_abyss::Patch;
use pixel_formats::Format;
use plane_rect::Rect;
use std::alloc::Global;
use std::process::Abort;
use strip_patches::{Picture, PictureForm, PictureStrips, TiledPatch};
use test_nodes::rect;

/// The image, of 165,000 pixels.
const IMAGE: Fields = [-40, -10, 1100, 150];

/// The picture, across three rows of 17 tiles: 3 columns right of the image's corner, and 7 rows below it.
const PICTURE: Fields = [-37, -3, 1024, 130];

/// Returns the pixel of a column and a row of the image, counted from its corner.
fn pixel(column: usize, row: usize) -> u8
    requires column { column < 2048 }
    requires row { row < 256 }
{
    ((column * 7 + row * 13) % 251) as u8
}

/// Returns the image.
fn image(rt: &impl Abort, alloc: Global) -> Patch
    ensures { result.format ≡ Y8 }
{
    let mut pixels = Vec::new(alloc);
    for index in 0..165_000 {
        pixels
            .push(pixel(index % 1100, index / 1100))
            .expect(rt, "memory");
    }
    gray(rt, alloc, IMAGE, &pixels)
}

/// Returns the pixels of so many rows of the picture, from a row of the image on.
fn pixels_of(rt: &impl Abort, alloc: Global, first_row: usize, rows: usize) -> Vec<u8> {
    assert!(rt; first_row <= 137 && rows <= 64);
    let mut pixels = Vec::new(alloc);
    for index in 0..rows * 1024 {
        let pixel = pixel(3 + index % 1024, first_row + index / 1024);
        pixels.push(pixel).expect(rt, "memory");
    }
    pixels
}

/// Returns the tiles of the patch that meet a rectangle.
fn tiles_of(alloc: Global, patch: &Patch, rect: Rect) -> Result<WindowTiles, NoMemory>
    ensures in_plane { IfOk result (All (λ entry. IsWhole entry.0)) }
    ensures lengths { IfOk result (All (HasLength (4096 * pixel_bytes patch.now.format))) }
{
    let mut entries = Vec::new(alloc);
    for at in rect.tiles() {
        let tile = patch.tile(alloc, at)?;
        entries.push((at, tile))?;
    }
    Ok(WindowTiles::new(entries))
}

/// The picture's bands, each with its first row in the image and the number of its rows.
const BANDS: [(Fields, usize, usize); 3] = [
    ([-37, -3, 1024, 3], 7, 3),
    ([-37, 0, 1024, 64], 10, 64),
    ([-37, 64, 1024, 63], 74, 63),
];

/// Returns the picture's tiles: of 3 rows, of 64 and of 63.
fn tiled(rt: &impl Abort, alloc: Global) -> Result<TiledPatch, NoMemory> {
    let image = image(rt, alloc);
    let over = rect(PICTURE);
    // It is a rectangle of the plane, as this call says.
    let _area = over.area();
    let mut tiled = TiledPatch::new(alloc, over, Format::Y8);
    tiled.add_tiles(tiles_of(alloc, &image, rect([-37, -3, 1024, 3]))?)?;
    tiled.add_tiles(tiles_of(alloc, &image, rect([-37, 0, 1024, 64]))?)?;
    tiled.add_tiles(tiles_of(alloc, &image, rect([-37, 64, 1024, 63]))?)?;
    Ok(tiled)
}

/// Checks a band of a picture, in memory of so many bytes of 99.
fn check_band(rt: &impl Abort, alloc: Global, tiled: &TiledPatch, index: u32, count: usize) {
    assert!(rt; index < 3 && index < tiled.bands());
    let (fields, first_row, rows) = BANDS[index as usize];
    let memory = vec![in alloc; 99; count].expect(rt, "memory");
    let band = tiled.band(alloc, memory, index).expect(rt, "memory");
    assert!(rt; band.rect() == rect(fields));
    let pixels = pixels_of(rt, alloc, first_row, rows);
    check_row(rt, count, &band.raw_bytes(), &pixels.as_slice());
}

/// Checks the three bands of a picture, each in new memory and in memory of other bytes that is too small for it, just large
/// enough, and larger.
#[test]
fn bands_of_tiles(rt: HostRuntime) {
    let alloc = rt.alloc();
    let tiled = tiled(&rt, alloc).expect(&rt, "memory");
    assert!(rt;
        tiled.rect() == rect(PICTURE) && tiled.format() == Format::Y8 && tiled.bands() == 3
    );
    for count in [0, 1, 3072, 40_000, 65_536, 100_000] {
        for index in 0..3 {
            check_band(&rt, alloc, &tiled, index, count);
        }
    }
}

/// Returns a picture of a rectangle of a level, to which no strip was added, of an image over another rectangle.
fn picture(
    rt: &impl Abort,
    alloc: Global,
    over: Rect,
    level: u32,
    bounds: Rect,
    form: PictureForm,
) -> Picture {
    assert!(rt; level <= 8 && over.scaled(level).is_some());
    let strips = PictureStrips::new(alloc, over, level, Format::Y8, bounds, form);
    let picture = strips
        .expect(rt, "memory")
        .finish(alloc)
        .expect(rt, "memory");
    assert!(rt; picture.rect() == over && picture.format() == Format::Y8);
    picture
}

/// Rectangles of levels, the forms of their pictures, and whether these keep tiles, of an image of 2,000 by 2,000 pixels:
/// pictures that do, and those that lack one of the conditions.
const KEPT: [(Fields, u32, PictureForm, bool); 8] = [
    ([-40, -10, 1024, 64], 0, PictureForm::Tiles, true),
    ([936, 1926, 1024, 64], 0, PictureForm::Tiles, true),
    ([-40, -10, 1023, 64], 0, PictureForm::Tiles, false),
    ([-40, -10, 1024, 63], 0, PictureForm::Tiles, false),
    ([937, 1926, 1024, 64], 0, PictureForm::Tiles, false),
    ([-41, -10, 1024, 64], 0, PictureForm::Tiles, false),
    ([-20, -5, 1024, 64], 1, PictureForm::Tiles, false),
    ([-40, -10, 1024, 64], 0, PictureForm::Patch, false),
];

#[test]
fn pictures_that_keep_tiles(rt: HostRuntime) {
    let bounds = rect([-40, -10, 2000, 2000]);
    for (row, (fields, level, form, keeps)) in KEPT.iter().enumerate() {
        let picture = picture(&rt, rt.alloc(), rect(*fields), *level, bounds, *form);
        check_row(&rt, row, &matches!(picture, Picture::Tiles(_)), keeps);
    }
}

/// Checks the patch of a picture that is one, with no strip added.
#[test]
fn picture_that_is_a_patch(rt: HostRuntime) {
    let over = rect([5, 6, 3, 2]);
    let picture = picture(&rt, rt.alloc(), over, 0, rect(IMAGE), PictureForm::Patch);
    let Picture::Patch(patch) = picture else {
        panic!(rt; "a patch");
    };
    assert!(rt; patch.rect() == over && patch.raw_bytes() == [0; 6].as_slice());
}
