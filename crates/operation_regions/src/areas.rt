//! The positions that windows read, and those whose windows reach a position.

ghost use Rattle.std.specs.Prelude.{◌≡◌, ◌+◌, ◌<◌, ◌≤◌};
ghost use Rattle.plane_rect.specs.Rectangle.{meet, plane_side};
ghost use Rattle.model_images.specs.Abyss.{nearest};
ghost use Rattle.model_operations.specs.Moves.{moved_into, surrounded};
ghost use Rattle.model_operations.specs.Regions.{area_read};

use pixel_formats::Abyss;
use plane_rect::Rect;

/// Returns what the windows of a part read of an input over `within`.
pub(crate) fn area_read(radius: u32, abyss: Abyss, part: &Rect, within: &Rect) -> Rect
    ensures { result ≡ meet (area_read radius abyss within.now part.now) within.now }
{
    match abyss {
        Abyss::Clamp => nearest_positions(radius, part, within),
        Abyss::None | Abyss::Loop | Abyss::Black | Abyss::White => surrounded(radius, part, within),
    }
}

/// Returns what is in `within` of a part with so many more pixels on each side. An empty part is
/// unchanged.
pub(crate) fn surrounded(by: u32, part: &Rect, within: &Rect) -> Rect
    ensures { result ≡ meet (surrounded by part.now) within.now }
{
    if part.is_empty() {
        return Rect::EMPTY;
    }
    Rect::spanning(
        part.first_column()
            .saturating_sub(by)
            .max(within.first_column()),
        part.first_row().saturating_sub(by).max(within.first_row()),
        part.end_column()
            .saturating_add(by)
            .min(within.end_column()),
        part.end_row().saturating_add(by).min(within.end_row()),
    )
}

/// Returns the positions of `within` that are the nearest to a part with so many more pixels on
/// each side.
fn nearest_positions(by: u32, part: &Rect, within: &Rect) -> Rect
    ensures { result ≡ meet (moved_into within.now (surrounded by part.now)) within.now }
{
    if part.is_empty() || within.is_empty() {
        return Rect::EMPTY;
    }
    let (end_column, end_row) = (
        part.end_column().saturating_add(by),
        part.end_row().saturating_add(by),
    );
    Rect::spanning(
        nearest(
            within.first_column(),
            within.w,
            part.first_column().saturating_sub(by),
        ),
        nearest(
            within.first_row(),
            within.h,
            part.first_row().saturating_sub(by),
        ),
        nearest(within.first_column(), within.w, end_column - 1) + 1,
        nearest(within.first_row(), within.h, end_row - 1) + 1,
    )
}

/// Returns, of the `len` numbers from `start` on, the one that is nearest to a number.
fn nearest(start: u32, len: u32, n: u32) -> u32
    requires some { 0 < len }
    requires fits { start + len ≤ plane_side }
    ensures value { result ≡ nearest start len n }
    ensures within { result < start + len }
{
    n.min(start + len - 1).max(start)
}
