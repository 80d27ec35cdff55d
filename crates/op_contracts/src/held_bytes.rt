//! The raw bytes of what windows show, of which each is written once.

ghost use Rattle.std.specs.Prelude.{◌≡◌, ◌≤◌, IfOk, IfSome, false, map};
ghost use Rattle.plane_rect.specs.Rectangle.{InLimits, Includes, area, is_empty};
ghost use Rattle.plane_rect.specs.Tile.{last_tile};
ghost use Rattle.model_graphs.specs.Windows.{IsWholeWindow, window_image};
ghost use Rattle.patch_abyss.specs.Lines.{HasFirstPixels};
ghost use Rattle.op_contracts.specs.HeldBytes.{HasTiles};

use crate::window::Window;
use alloc_basics::NoMemory;
use patch_abyss::add_line;
use plane_rect::{Rect, TILE_SIDE, TileAt};
use std::alloc::Global;

/// Returns the raw bytes of what a window shows over a part of the input's box, and None where it
/// lacks a tile there. Takes time in proportion to the part's pixels and to the number of tiles.
///
/// # Errors
///
/// `NoMemory` if memory runs out.
pub(crate) fn held_bytes(
    alloc: Global,
    window: &Window,
    part: &Rect,
) -> Result<Option<Vec<u8>>, NoMemory>
    requires whole { IsWholeWindow window.now }
    requires limits { InLimits part.now }
    requires some { false ≡ is_empty part.now }
    requires inside { Includes window.now.bounds part.now }
    ensures { IfOk result (λ held. IfSome held (λ bytes. HasFirstPixels (window_image window.now) part.now (area part.now) bytes.items)) }
{
    let count = part.area() as usize * window.format.pixel_bytes() as usize;
    let mut bytes = Vec::with_capacity(alloc, count)?;
    let end = part.end_row().div_ceil(TILE_SIDE);
    for line in part.first_row() / TILE_SIDE..end {
        let Some(tiles) = line_tiles(alloc, window, part, line)? else {
            return Ok(None);
        };
        add_line(window.format, part, line, &tiles, &mut bytes)?;
    }
    Ok(Some(bytes))
}

/// Returns the tiles of a line of tiles that contain the columns of a part, and None where the window
/// lacks one.
fn line_tiles<'t>(
    alloc: Global,
    window: &'t Window,
    part: &Rect,
    line: u32,
) -> Result<Option<Vec<&'t [u8]>>, NoMemory>
    requires { line ≤ last_tile }
    ensures { IfOk result (λ found. IfSome found (λ tiles. HasTiles window.now part.now line (map (λ tile. tile.now) tiles.items))) }
{
    let mut tiles = Vec::new(alloc);
    let end = part.end_column().div_ceil(TILE_SIDE);
    for column in part.first_column() / TILE_SIDE..end {
        match window.tile_bytes(TileAt::from_indices(column, line)) {
            Some(bytes) => tiles.push(bytes)?,
            None => return Ok(None),
        }
    }
    Ok(Some(tiles))
}
