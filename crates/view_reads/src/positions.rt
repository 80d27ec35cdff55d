//! The positions of levels: their boxes, and what is averaged for tiles of them.

ghost use Rattle.std.specs.Prelude.{◌≡◌, ℕ, ◌+◌, ◌-◌, ◌*◌, ◌≤◌, ◌↔◌, min};
ghost use Rattle.model_images.specs.Level.{level_box, tile_at_level};
ghost use Rattle.plane_rect.specs.Rectangle.{InLimits, Inside, IsRectangle, half, origin, plane_side};
ghost use Rattle.plane_rect.specs.Tile.{plane, tile_at};

use plane_rect::{PLANE_ORIGIN, PLANE_SIDE, Rect, TileAt};

/// Returns the box of a level of an image over a rectangle. Takes time in proportion to the level.
pub(crate) fn level_box(bounds: Rect, level: u32) -> Rect
    ensures { result ≡ level_box bounds level }
{
    let mut halved = bounds;
    for _step in 0..level {
        halved = halved.halved();
    }
    halved
}

/// Returns the positions of the plane that are averaged for a tile of a level. Takes time in proportion to the
/// level.
pub(crate) fn source_of(level: u32, at: TileAt) -> Rect
    ensures positions { (u v : ℕ) → Inside u v result ↔ (Inside u v plane × (tile_at_level (tile_at u v) level ≡ at)) }
    ensures rectangle { IsRectangle result }
{
    let mut source = at.rect();
    for _step in 0..level {
        source = below(&source);
    }
    source
}

/// Returns the positions of the plane that are averaged for a tile of the next level.
pub(crate) fn square_below(at: TileAt) -> Rect
    ensures positions { (u v : ℕ) → Inside u v result ↔ (Inside u v plane × (tile_at_level (tile_at u v) 1 ≡ at)) }
    ensures rectangle { IsRectangle result }
    ensures limits { InLimits result }
{
    source_of(1, at)
}

/// Returns the positions of the plane whose halves are in a rectangle.
fn below(rect: &Rect) -> Rect
    ensures positions { (u v : ℕ) → Inside u v result ↔ (Inside u v plane × Inside (half u) (half v) rect.now) }
    ensures rectangle { IsRectangle result }
{
    Rect::spanning(
        doubled(rect.first_column()),
        doubled(rect.first_row()),
        doubled(rect.end_column()),
        doubled(rect.end_row()),
    )
}

/// Returns the column of twice an x, or the row of twice a y, or the plane's nearest border where that is outside.
fn doubled(n: u32) -> u32
    requires { n ≤ plane_side }
    ensures value { result ≡ min (2 * n - origin) plane_side }
    ensures in_plane { result ≤ plane_side }
{
    (2 * n).saturating_sub(PLANE_ORIGIN).min(PLANE_SIDE)
}
