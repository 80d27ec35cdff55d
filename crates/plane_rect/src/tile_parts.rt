//! Rectangles cut at tiles.

ghost use Rattle.std.specs.Prelude.{◌≡◌, ◌<◌, IfOk};
ghost use Rattle.plane_rect.specs.Tile.{last_tile, tile_square, strip_rectangles, tile_line, meets};
ghost use Rattle.plane_rect.specs.Rectangle.{meet};

use crate::plane::PLANE_SIDE;
use crate::rect::Rect;
use crate::tile::{TILE_SIDE, TileAt};
use alloc_basics::NoMemory;
use std::alloc::Global;

/// Returns the positions of a rectangle that are in a tile.
pub fn tile_part(tile: &TileAt, rect: &Rect) -> Rect
    ensures { result ≡ meet (tile_square tile.now) rect.now }
{
    let (first_column, first_row) = (tile.column() * TILE_SIDE, tile.row() * TILE_SIDE);
    Rect::spanning(
        first_column.max(rect.first_column()),
        first_row.max(rect.first_row()),
        rect.end_column().min(first_column + TILE_SIDE),
        rect.end_row().min(first_row + TILE_SIDE),
    )
}

/// Returns whether some position of a rectangle is in a tile.
pub fn meets(tile: &TileAt, rect: &Rect) -> bool
    ensures { result ≡ meets tile.now rect.now }
{
    !tile_part(tile, rect).is_empty()
}

/// Returns the rectangles of a request's strips: the request cut at the rows of tiles that it meets,
/// from the top.
///
/// # Errors
///
/// `NoMemory` if memory runs out.
pub fn strip_rects(alloc: Global, request: &Rect) -> Result<Vec<Rect>, NoMemory>
    ensures { IfOk result (λ rects. rects.items ≡ strip_rectangles request.now) }
{
    let (first, end) = (
        request.first_row() / TILE_SIDE,
        request.end_row().div_ceil(TILE_SIDE),
    );
    let mut rects = Vec::new(alloc);
    for row in first..end {
        rects.push(request.meet(&tile_line(row)))?;
    }
    Ok(rects)
}

/// Returns all positions of a row of tiles.
fn tile_line(row: u32) -> Rect
    requires { row < last_tile }
    ensures { result ≡ tile_line row }
{
    let first_row = row * TILE_SIDE;
    Rect::spanning(0, first_row, PLANE_SIDE, first_row + TILE_SIDE)
}
