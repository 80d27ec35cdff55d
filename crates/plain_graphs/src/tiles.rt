//! Several rectangles at once, and the tiles that they meet.

ghost use Rattle.std.specs.Prelude.{◌≡◌, IfOk};
ghost use Rattle.std.specs.List.{list_any};
ghost use Rattle.model_states.specs.Regions.{hull_of, tiles_of_any};
ghost use Rattle.plane_rect.specs.Tile.{meets};

use alloc_basics::NoMemory;
use plane_rect::{Rect, TileAt, meets};
use std::alloc::Global;

/// Returns the hull of all of these.
pub(crate) fn hull_of(rects: &[Rect]) -> Rect
    ensures { result ≡ hull_of rects.now }
{
    match rects.split_first() {
        Some((first, rest)) => first.hull(&hull_of(rest)),
        None => Rect::EMPTY,
    }
}

/// Returns whether a tile meets one of these.
fn meets_any(tile: &TileAt, rects: &[Rect]) -> bool
    ensures { result ≡ list_any (meets tile.now) rects.now }
{
    rects.iter().any(|rect| meets(tile, rect))
}

/// Returns the tiles that meet one of these, row by row from the top, each row from the left.
pub(crate) fn tiles_of_any(alloc: Global, rects: &[Rect]) -> Result<Vec<TileAt>, NoMemory>
    ensures { IfOk result (λ tiles. tiles.items ≡ tiles_of_any rects.now) }
{
    Ok(
        hull_of(rects)
            .tiles()
            .filter(|tile| meets_any(tile, rects))
            .collect(alloc)?,
    )
}
