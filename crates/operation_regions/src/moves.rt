//! Rectangles moved and mirrored, clipped to a rectangle of the plane.

ghost use Rattle.std.specs.Prelude.{◌≡◌, ◌+◌, ◌-◌, min};
ghost use Rattle.plane_rect.specs.Rectangle.{meet, rectangle};
ghost use Rattle.model_operations.specs.Moves.{moved_index, source_index, mirrored_part, moved, moved_back};

use plane_rect::Rect;

/// Returns what is in `within` of a part that is moved right by `dx` and down by `dy` pixels.
pub(crate) fn moved(part: &Rect, dx: i64, dy: i64, within: &Rect) -> Rect
    ensures { result ≡ meet (moved dx dy part.now) within.now }
{
    let first_column = moved_index(dx, part.first_column());
    let first_row = moved_index(dy, part.first_row());
    placed_within(first_column, first_row, part, within)
}

/// Returns what is in `within` of the part that becomes this one when moved right by `dx` and down
/// by `dy` pixels.
pub(crate) fn moved_back(part: &Rect, dx: i64, dy: i64, within: &Rect) -> Rect
    ensures { result ≡ meet (moved_back dx dy part.now) within.now }
{
    let first_column = source_index(dx, part.first_column());
    let first_row = source_index(dy, part.first_row());
    placed_within(first_column, first_row, part, within)
}

/// Returns what is in `within` of a part that is mirrored in a rectangle: left and right where
/// `sideways`, else top and bottom.
pub(crate) fn mirrored_part(sideways: bool, whole: &Rect, part: &Rect, within: &Rect) -> Rect
    ensures { result ≡ meet (mirrored_part sideways whole.now part.now) within.now }
{
    let (first_column, first_row) = (u64::from(part.first_column()), u64::from(part.first_row()));
    if sideways {
        let first_column = mirrored_start(
            whole.first_column(),
            whole.end_column(),
            part.end_column(),
        );
        placed_within(first_column, first_row, part, within)
    } else {
        let first_row = mirrored_start(whole.first_row(), whole.end_row(), part.end_row());
        placed_within(first_column, first_row, part, within)
    }
}

/// Returns what is in `within` of a rectangle of the size of another, which may reach out of the
/// plane.
fn placed_within(first_column: u64, first_row: u64, size: &Rect, within: &Rect) -> Rect
    ensures { result ≡ meet (rectangle first_column first_row size.now.width size.now.height) within.now }
{
    if size.is_empty() {
        return Rect::EMPTY;
    }
    let end_column = first_column.saturating_add(u64::from(size.w));
    let end_row = first_row.saturating_add(u64::from(size.h));
    Rect::spanning(
        up_to(within.end_column(), first_column).max(within.first_column()),
        up_to(within.end_row(), first_row).max(within.first_row()),
        up_to(within.end_column(), end_column),
        up_to(within.end_row(), end_row),
    )
}

/// Returns an index, or the exclusive end where the index is after it.
fn up_to(end: u32, index: u64) -> u32
    ensures { result ≡ min index end }
{
    index.min(u64::from(end)) as u32
}

/// Returns the column so much further right, or the row so much further down: where the distance is
/// negative, less far, and not before the plane's corner.
fn moved_index(distance: i64, index: u32) -> u64
    ensures { result ≡ moved_index distance index }
{
    let index = u64::from(index);
    let by = distance.unsigned_abs();
    if distance < 0 {
        index.saturating_sub(by)
    } else {
        index + by
    }
}

/// Returns the column or the row that becomes this one when moved by a distance, and not before the
/// plane's corner.
fn source_index(distance: i64, index: u32) -> u64
    ensures { result ≡ source_index distance index }
{
    let index = u64::from(index);
    let by = distance.unsigned_abs();
    if distance < 0 {
        index + by
    } else {
        index.saturating_sub(by)
    }
}

/// Returns the first column of some columns that are mirrored in those from a first up to an end,
/// by the exclusive end of what is mirrored; or the first row of rows.
fn mirrored_start(first: u32, end: u32, part_end: u32) -> u64
    ensures { result ≡ first + end - part_end }
{
    (u64::from(first) + u64::from(end)).saturating_sub(u64::from(part_end))
}
