//! Rows of parts, from the lines of tiles that contain them.

ghost use Rattle.std.specs.Prelude.{◌≡◌, ◌+◌, ◌-◌, ◌*◌, ◌%◌, ◌<◌, ◌≤◌, OnOk, false, length, map, max, min};
ghost use Rattle.pixel_formats.specs.Format.{pixel_bytes};
ghost use Rattle.plane_rect.specs.Rectangle.{Within, end_column, end_row, is_empty, offset};
ghost use Rattle.plane_rect.specs.Tile.{tile_end, tile_of};
ghost use Rattle.model_images.specs.Image.{Image};
ghost use Rattle.patch_abyss.specs.Lines.{AreLineTiles, HasFirstPixels, HasLine};

use alloc_basics::NoMemory;
use pixel_formats::Format;
use plane_rect::{Rect, TILE_SIDE};
use std::ops::Range;

/// Adds the pixels of a part that are in a line of tiles, row by row. The line's tiles are given from that
/// of the part's first column to that of its last. Takes time in proportion to these pixels.
///
/// # Errors
///
/// `NoMemory` if memory runs out.
pub fn add_line(
    format: Format,
    part: &Rect,
    line: u32,
    tiles: &[&[u8]],
    bytes: &mut Vec<u8>,
) -> Result<(), NoMemory>
    requires some { false ≡ is_empty part.now }
    requires first { tile_of part.now.first_row ≤ line }
    requires end { line < tile_end (end_row part.now) }
    requires tiles { AreLineTiles format part.now (map (λ tile. tile.now) tiles.now) }
    ensures count { OnOk result (length bytes.new.items ≡ length bytes.old.items
        + (min (64 * line + 64) (end_row part.now) - max (64 * line) part.now.first_row) * (part.now.width * pixel_bytes format)) }
    ensures pixels { OnOk result ((image : Image) → image.format ≡ format → HasLine image part.now line (map (λ tile. tile.now) tiles.now)
        → HasFirstPixels image part.now (offset part.now part.now.first_column (max (64 * line) part.now.first_row)) bytes.old.items
        → HasFirstPixels image part.now (offset part.now part.now.first_column (min (64 * line + 64) (end_row part.now))) bytes.new.items) }
{
    let last = part.end_row();
    let corner = line * TILE_SIDE;
    let first = corner.max(part.first_row());
    let end = (corner + TILE_SIDE).min(last);
    for row in first..end {
        add_row(format, part, row, tiles, bytes)?;
    }
    Ok(())
}

/// Adds the pixels of a row of a part, of which the line of tiles that contains it is given.
fn add_row(
    format: Format,
    part: &Rect,
    row: u32,
    tiles: &[&[u8]],
    bytes: &mut Vec<u8>,
) -> Result<(), NoMemory>
    requires some { false ≡ is_empty part.now }
    requires row { Within part.now.first_row part.now.height row }
    requires tiles { AreLineTiles format part.now (map (λ tile. tile.now) tiles.now) }
    ensures count { OnOk result (length bytes.new.items ≡ length bytes.old.items + part.now.width * pixel_bytes format) }
    ensures pixels { OnOk result ((image : Image) → image.format ≡ format → HasLine image part.now (tile_of row) (map (λ tile. tile.now) tiles.now)
        → HasFirstPixels image part.now (offset part.now part.now.first_column row) bytes.old.items
        → HasFirstPixels image part.now (offset part.now part.now.first_column (row + 1)) bytes.new.items) }
{
    let pixel = format.pixel_bytes() as usize;
    let first = part.first_column() / TILE_SIDE;
    for (number, tile) in tiles.iter().enumerate() {
        let pixels = pixels_of_tile(part, first + number as u32, row);
        bytes.extend_from_slice(&tile[pixels.start * pixel..pixels.end * pixel])?;
    }
    Ok(())
}

/// Returns the indices of the pixels of a row of a part that are in a column of tiles, among the
/// pixels of the tile there.
fn pixels_of_tile(part: &Rect, column: u32, row: u32) -> Range<usize>
    requires some { false ≡ is_empty part.now }
    requires first { tile_of part.now.first_column ≤ column }
    requires end { column < tile_end (end_column part.now) }
    ensures start { result.start ≡ row % 64 * 64 + (max (64 * column) part.now.first_column - 64 * column) }
    ensures end { result.end ≡ row % 64 * 64 + (min (64 * column + 64) (end_column part.now) - 64 * column) }
{
    let last = part.end_column();
    let corner = column * TILE_SIDE;
    let first = corner.max(part.first_column());
    let end = (corner + TILE_SIDE).min(last);
    let start = (row % TILE_SIDE * TILE_SIDE) as usize;
    start + (first - corner) as usize..start + (end - corner) as usize
}
