//! Tiles of rectangles, counted.

use plane_rect::{Rect, TILE_SIDE};

/// Returns how many tiles meet a rectangle. Takes constant time.
pub(crate) fn tile_count(rect: &Rect) -> usize {
    let columns = rect.end_column().div_ceil(TILE_SIDE) - rect.first_column() / TILE_SIDE;
    let rows = rect.end_row().div_ceil(TILE_SIDE) - rect.first_row() / TILE_SIDE;
    (columns as usize).saturating_mul(rows as usize)
}
