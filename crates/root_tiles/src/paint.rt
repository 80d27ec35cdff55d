//! What is written over a rectangle.

ghost use Rattle.std.specs.Prelude.{◌≤◌};
ghost use Rattle.plane_rect.specs.Rectangle.{Includes, area};
ghost use Rattle.root_tiles.specs.Paints.{IsPaint, Paints, paint_pixels};

use pixel_formats::Format;
use plane_rect::Rect;
use tile_cow::Tile;

/// What is written over a rectangle.
#[derive(Drop)]
pub(crate) enum Paint<'a> {
    /// The raw bytes of the rectangle, row by row.
    Raw(&'a [u8]),
    /// One pixel everywhere: that of each position of the tile.
    Solid(&'a Tile),
}

impl<'a> Paint<'a> {
    /// Returns raw bytes and the rectangle that they are of, by which a part of the rectangle is painted
    /// that has no more positions than a tile.
    pub fn piece(&self, format: Format, rect: Rect, part: Rect) -> (Rect, &'a [u8])
        requires paint { IsPaint format rect self.now }
        requires inside { Includes rect part }
        requires small { area part ≤ 4096 }
        ensures { Paints format rect part (paint_pixels format rect self.now) result.0 result.1.now }
    {
        match self {
            Paint::Raw(bytes) => (rect, bytes),
            Paint::Solid(tile) => {
                let count = part.area() as usize * format.pixel_bytes() as usize;
                (part, &tile.bytes()[..count])
            }
        }
    }
}
