//! Tiles that are put into a patch by bands of rows.

ghost use Rattle.std.specs.Prelude.{◌≡◌, ◌+◌, ◌*◌, ◌<◌, All, length};
ghost use Rattle.pixel_formats.specs.Format.{pixel_bytes};
ghost use Rattle.plane_rect.specs.Tile.{IsWhole, tile_square};
ghost use Rattle.model_images.specs.Image.{Image, IsImage};
ghost use Rattle.model_images.specs.{FromRaw.pixels_from_raw, Paint.painted};
ghost use Rattle.op_contracts.specs.TileList.{HasLength};
ghost use Rattle.strip_patches.specs.Bands.{AreOfImage, HasBands, band_of};

use patch_abyss::Patch;
use plane_rect::{Rect, TILE_SIDE, TileAt};
use tile_cow::Tile;

/// How many rows of each tile are put at a time. Rows of a wide patch are far apart, often by a power of two, so that the
/// nearest cache holds parts of few of them.
const BAND_ROWS: u32 = 8;

/// How many bands a tile has.
const BANDS: u32 = TILE_SIDE / BAND_ROWS;

/// Puts tiles into a patch, as much of each as the patch has positions: the first rows of all tiles, then the next ones.
/// So each position in one of the tiles has the sample of an image of which they are. Takes time in proportion to the
/// tiles' pixels.
pub(crate) fn put_by_bands(patch: &mut Patch, tiles: &[(TileAt, Tile)])
    requires in_plane { All (λ entry. IsWhole entry.0) tiles.now }
    requires lengths { All (HasLength (4096 * pixel_bytes patch.old.format)) tiles.now }
    requires whole { IsImage patch.old }
    ensures rect { patch.new.box ≡ patch.old.box }
    ensures format { patch.new.format ≡ patch.old.format }
    ensures whole { IsImage patch.new }
    ensures image { (image : Image) → image.format ≡ patch.old.format → AreOfImage image tiles.now →
        HasBands image patch.old tiles.now 8 patch.new }
{
    for band in 0..BANDS {
        put_band(patch, tiles, band);
    }
}

/// Puts a band of each tile, where those before it were put.
fn put_band(patch: &mut Patch, tiles: &[(TileAt, Tile)], band: u32)
    requires band { band < 8 }
    requires in_plane { All (λ entry. IsWhole entry.0) tiles.now }
    requires lengths { All (HasLength (4096 * pixel_bytes patch.old.format)) tiles.now }
    requires whole { IsImage patch.old }
    ensures rect { patch.new.box ≡ patch.old.box }
    ensures format { patch.new.format ≡ patch.old.format }
    ensures whole { IsImage patch.new }
    ensures image { (image first : Image) → image.format ≡ patch.old.format → AreOfImage image tiles.now →
        HasBands image first tiles.now band patch.old → HasBands image first tiles.now (band + 1) patch.new }
{
    for entry in tiles {
        put_rows(patch, entry.0, &entry.1, band);
    }
}

/// Puts the rows of a band of a tile.
fn put_rows(patch: &mut Patch, at: TileAt, tile: &Tile, band: u32)
    requires in_plane { IsWhole at }
    requires band { band < 8 }
    requires length { length tile.now ≡ 4096 * pixel_bytes patch.old.format }
    ensures { patch.new ≡ painted patch.old (band_of at band) (pixels_from_raw (tile_square at) patch.old.format tile.now) }
{
    let (column, row) = (
        at.column() * TILE_SIDE,
        at.row() * TILE_SIDE + band * BAND_ROWS,
    );
    let rows = Rect::spanning(column, row, column + TILE_SIDE, row + BAND_ROWS);
    let count = (TILE_SIDE * BAND_ROWS) as usize * patch.format().pixel_bytes() as usize;
    let start = band as usize * count;
    let bytes = tile.bytes();
    patch.paint(&rows, &bytes[start..start + count]);
}
