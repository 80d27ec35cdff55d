//! The plane's columns and rows.
//!
//! Columns and rows are counted from the plane's upper left corner, which is at x = y = -2^24, so
//! none of them is negative.

ghost use Rattle.std.specs.Prelude.{◌≡◌, ◌≤◌};
ghost use Rattle.plane_rect.specs.Rectangle.{StartsInPlane, plane_coordinate as coordinate_of, plane_index as index_of, plane_side};

/// The column, and the row, of the origin: how far the plane reaches from it, to each side, in
/// pixels.
pub const PLANE_ORIGIN: u32 = 1 << 24;

/// How many columns, and how many rows, the plane has.
pub const PLANE_SIDE: u32 = 1 << 25;

/// Returns the column of an x, or the row of a y, which is not below -2^24.
pub fn plane_index(coordinate: i32) -> u32
    requires { StartsInPlane coordinate }
    ensures { result ≡ index_of coordinate }
{
    (i64::from(coordinate) + i64::from(PLANE_ORIGIN)) as u32
}

/// Returns the x of a column, or the y of a row.
pub(crate) fn plane_coordinate(index: u32) -> i32
    requires { index ≤ plane_side }
    ensures { result ≡ coordinate_of index }
{
    index as i32 - PLANE_ORIGIN as i32
}
