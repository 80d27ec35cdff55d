//! The four tiles that are averaged for one of the next level.

ghost use Rattle.std.specs.Prelude.{◌≡◌, ◌+◌, ◌<◌, ◌≤◌, ◌*◌, ◌↔◌, IfOk, IsTrue, None, length};
ghost use Rattle.pixel_formats.specs.{Format.pixel_bytes, Row.HasPixels};
ghost use Rattle.model_images.specs.Level.{halved_image, tile_above as above_of, tile_at_level};
ghost use Rattle.model_images.specs.Raw.{tile_bytes};
ghost use Rattle.level_tables.specs.Found.{HasTileLength, HaveTileLength, IsInHalf, image_of_four, tile_below};
ghost use Rattle.level_tables.specs.Means.{HasMeans, left_of, mean_in_row, mean_of_found, right_of};
ghost use Rattle.level_tables.specs.Over.{tile_length};

use crate::tile_bytes::bytes_of;
use alloc_basics::NoMemory;
use pixel_formats::Format;
use plane_rect::{TILE_SIDE, TileAt};
use sample_rows::row_average4;
use std::alloc::Global;
use tile_cow::Tile;

/// How many pixels the side of a tile has.
const SIDE: usize = TILE_SIDE as usize;

/// How many pixels a tile has.
const TILE_PIXELS: usize = SIDE * SIDE;

/// Half of how far the tiles reach from the origin, to each side, in tiles.
pub(crate) const HALF_ORIGIN: u32 = 1 << 17;

/// The four tiles of a level that are averaged for one of the next; none where nothing was put.
#[derive(Drop)]
pub struct FourTiles {
    pub upper_left: Option<Tile>,
    pub upper_right: Option<Tile>,
    pub lower_left: Option<Tile>,
    pub lower_right: Option<Tile>,
}

impl FourTiles {
    /// Returns whether none is there.
    pub(crate) fn is_empty(&self) -> bool
        ensures { IsTrue result ↔ ((self.now.upper_left ≡ None) × (self.now.upper_right ≡ None)
            × (self.now.lower_left ≡ None) × (self.now.lower_right ≡ None)) }
    {
        self.upper_left.is_none()
            && self.upper_right.is_none()
            && self.lower_left.is_none()
            && self.lower_right.is_none()
    }

    /// Returns the tile of the next level at a position: each of its pixels is the mean of four. They are
    /// written into `spare` first, whatever that has, which takes memory only where it is too short.
    ///
    /// # Errors
    ///
    /// `NoMemory` if memory runs out.
    pub(crate) fn average(
        &self,
        alloc: Global,
        format: Format,
        at: TileAt,
        spare: &mut Vec<u8>,
    ) -> Result<Tile, NoMemory>
        requires half { IsInHalf at }
        requires lengths { HaveTileLength format self.now }
        ensures { IfOk result (λ tile. tile ≡ tile_bytes (halved_image (image_of_four format at self.now)) at) }
    {
        spare.resize(TILE_PIXELS * format.pixel_bytes() as usize, 0)?;
        self.average_rows(format, spare);
        let tile = Tile::of(alloc, spare)?;
        bytes_of(&tile);
        Ok(tile)
    }

    /// Writes the raw bytes of the tile of the next level, row by row.
    fn average_rows(&self, format: Format, bytes: &mut [u8])
        requires lengths { HaveTileLength format self.now }
        requires count { length bytes.old ≡ tile_length format }
        ensures len { length bytes.new ≡ length bytes.old }
        ensures rows { HasMeans format self.now 64 bytes.new }
    {
        let count = SIDE * format.pixel_bytes() as usize;
        for row in 0..SIDE {
            let start = row * count;
            self.average_row(format, row, &mut bytes[start..start + count]);
        }
    }

    /// Writes a row of the tile of the next level: its left half is averaged from one tile, and its right
    /// half from another.
    fn average_row(&self, format: Format, row: usize, to: &mut [u8])
        requires lengths { HaveTileLength format self.now }
        requires row { row < 64 }
        requires count { length to.old ≡ 64 * pixel_bytes format }
        ensures len { length to.new ≡ length to.old }
        ensures pixels { HasPixels format to.new (mean_in_row format self.now row) }
    {
        let (left, right) = self.side_by_side(row);
        let half = to.len() / 2;
        average_half(format, left, 2 * row % SIDE, &mut to[..half]);
        average_half(format, right, 2 * row % SIDE, &mut to[half..]);
    }

    /// Returns the left and the right tile that are averaged for a row of the tile of the next level.
    fn side_by_side(&self, row: usize) -> (&Option<Tile>, &Option<Tile>)
        ensures left { result.0.now ≡ left_of self.now row }
        ensures right { result.1.now ≡ right_of self.now row }
    {
        if row < SIDE / 2 {
            (&self.upper_left, &self.upper_right)
        } else {
            (&self.lower_left, &self.lower_right)
        }
    }
}

/// Writes the means of a row of a tile and the row below it, pair by pair; zeros where there is no tile.
fn average_half(format: Format, found: &Option<Tile>, row: usize, to: &mut [u8])
    requires length { HasTileLength format found.now }
    requires row { row + 1 < 64 }
    requires count { length to.old ≡ 32 * pixel_bytes format }
    ensures len { length to.new ≡ length to.old }
    ensures pixels { HasPixels format to.new (mean_of_found format found.now row) }
{
    let Some(tile) = found else {
        to.fill(0);
        return;
    };
    let count = 2 * to.len();
    let (start, end) = (row * count, (row + 1) * count);
    let bytes = tile.bytes();
    row_average4(format, &bytes[start..end], &bytes[end..end + count], to);
}

/// Returns whether a tile of a level may be above some tile of the plane.
pub(crate) fn is_in_half(at: TileAt) -> bool
    ensures { IsTrue result ↔ IsInHalf at }
{
    HALF_ORIGIN <= at.column()
        && at.column() < 3 * HALF_ORIGIN
        && HALF_ORIGIN <= at.row()
        && at.row() < 3 * HALF_ORIGIN
}

/// Returns the tile of the next level for which a tile is averaged.
pub(crate) fn tile_above(at: TileAt) -> TileAt
    ensures { result ≡ above_of at }
{
    TileAt::from_indices(at.column() / 2 + HALF_ORIGIN, at.row() / 2 + HALF_ORIGIN)
}

/// Returns the tile of a level for which a tile of level 0 is averaged.
pub(crate) fn at_level(at: TileAt, level: u32) -> TileAt
    ensures { result ≡ tile_at_level at level }
{
    let mut above = at;
    for _step in 0..level {
        above = tile_above(above);
    }
    above
}

/// Returns one of the four tiles that are averaged for a tile of the next level.
pub(crate) fn tile_below(at: TileAt, right: u32, lower: u32) -> TileAt
    requires half { IsInHalf at }
    requires right { right ≤ 1 }
    requires lower { lower ≤ 1 }
    ensures { result ≡ tile_below at right lower }
{
    TileAt::from_indices(
        2 * (at.column() - HALF_ORIGIN) + right,
        2 * (at.row() - HALF_ORIGIN) + lower,
    )
}
