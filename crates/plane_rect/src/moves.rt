//! Rectangles moved, grown and scaled.

ghost use Rattle.std.specs.Prelude.{◌≡◌, ◌≢◌, ℕ, ℤ, ◌+◌, ◌<◌, ◌≤◌, ◌↔◌, ◌⊎◌, pos, ◌+ℤ◌, ◌*ℤ◌, ◌^◌, unsigned_abs, IfOk, IfSome};
ghost use Rattle.plane_rect.specs.Rectangle.{BeginsInside, BeginsOutside, EndsOutside, InLimits, Inside, InsideSigned, InsideHalved, InsideGrown, end_row, coarse, empty, enlarged, grown, half, halved, moved_x, moved_y, plane_side, end_column, scaled, shifted};

use crate::plane::{PLANE_ORIGIN, PLANE_SIDE};
use crate::rect::{Rect, RectRefused};

impl Rect {
    /// Returns the rectangle moved right by `dx` and down by `dy` pixels. An empty one is
    /// unchanged.
    ///
    /// # Errors
    ///
    /// `Place` and `Size` as [`Rect::new`] gives them for the moved fields.
    pub fn shift(&self, dx: i64, dy: i64) -> Result<Rect, RectRefused>
        ensures value { result ≡ shifted dx dy self.now }
        ensures position { (result ≡ Err RectRefused.Place)
            ↔ ((self.now ≢ empty) × BeginsOutside (moved_x dx self.now) (moved_y dy self.now)) }
        ensures size { (result ≡ Err RectRefused.Size)
            ↔ ((self.now ≢ empty) × BeginsInside (moved_x dx self.now) (moved_y dy self.now)
            × EndsOutside (moved_x dx self.now) (moved_y dy self.now)
            (pos self.now.width) (pos self.now.height)) }
        ensures positions { IfOk result (λ moved. (x y : ℤ) →
            InsideSigned (x +ℤ dx) (y +ℤ dy) moved ↔ InsideSigned x y self.now) }
    {
        if self.is_empty() {
            return Ok(*self);
        }
        let (x, y) = self.corner();
        Rect::new(
            x.saturating_add(dx),
            y.saturating_add(dy),
            i64::from(self.w),
            i64::from(self.h),
        )
    }

    /// Returns the rectangle with `by` more pixels on each side. An empty one is unchanged.
    ///
    /// # Errors
    ///
    /// `Place` exactly where the grown rectangle would begin before -2^24, and else `Size` exactly
    /// where it would end after 2^24.
    pub fn grow(&self, by: u32) -> Result<Rect, RectRefused>
        ensures value { result ≡ grown by self.now }
        ensures position { (result ≡ Err RectRefused.Place)
            ↔ ((self.now ≢ empty) × ((self.now.first_column < by) ⊎ (self.now.first_row < by))) }
        ensures size { (result ≡ Err RectRefused.Size)
            ↔ ((self.now ≢ empty) × ((by ≤ self.now.first_column) × (by ≤ self.now.first_row))
            × ((plane_side < end_column self.now + by) ⊎ (plane_side < end_row self.now + by))) }
        ensures positions { IfOk result (λ grown. (u v : ℕ) →
            Inside u v grown ↔ InsideGrown by u v self.now) }
    {
        if self.is_empty() {
            return Ok(*self);
        }
        let (first_column, first_row) = (self.first_column(), self.first_row());
        if first_column < by || first_row < by {
            return Err(RectRefused::Place);
        }
        let (end_column, end_row) = (self.end_column() + by, self.end_row() + by);
        if end_column > PLANE_SIDE || end_row > PLANE_SIDE {
            return Err(RectRefused::Size);
        }
        Ok(Rect::spanning(first_column - by, first_row - by, end_column, end_row))
    }

    /// Returns the rectangle of half the coordinates: from half the first column and row, rounded
    /// down, to half the exclusive ends, rounded up.
    pub fn halved(&self) -> Rect
        ensures value { result ≡ halved self.now }
        ensures positions { (u v : ℕ) → Inside u v result ↔ InsideHalved u v self.now }
    {
        Rect::spanning(
            half(self.first_column()),
            half(self.first_row()),
            half(self.end_column() + 1),
            half(self.end_row() + 1),
        )
    }

    /// Returns the rectangle of all four fields times 2^level, and None exactly where that is no
    /// rectangle in limits.
    pub fn scaled(&self, level: u32) -> Option<Rect>
        requires { level ≤ 8 }
        ensures value { result ≡ scaled level self.now }
        ensures positions { IfSome result (λ r. (u v : ℕ) →
            Inside u v r ↔ Inside (coarse level u) (coarse level v) self.now) }
        ensures limits { IfSome result InLimits }
    {
        match self.enlarged(level) {
            Ok(scaled) if scaled.in_limits() => Some(scaled),
            _ => None,
        }
    }

    /// Returns the rectangle of all four fields times 2^level.
    ///
    /// # Errors
    ///
    /// As [`Rect::new`] for these fields.
    fn enlarged(&self, level: u32) -> Result<Rect, RectRefused>
        requires { level ≤ 8 }
        ensures value { result ≡ enlarged level self.now }
        ensures positions { IfOk result (λ r. (u v : ℕ) →
            Inside u v r ↔ Inside (coarse level u) (coarse level v) self.now) }
    {
        let (x, y) = self.corner();
        let (w, h) = (i64::from(self.w), i64::from(self.h));
        Rect::new(
            times(x, level),
            times(y, level),
            times(w, level),
            times(h, level),
        )
    }
}

/// Returns a coordinate or a side, in pixels, times 2^level.
fn times(n: i64, level: u32) -> i64
    requires level { level ≤ 8 }
    requires size { unsigned_abs n ≤ plane_side }
    ensures { result ≡ n *ℤ pos (2 ^ level) }
{
    n * (1 << level)
}

/// Returns the column of half an x, rounded down, or the row of half a y.
fn half(index: u32) -> u32
    requires { index ≤ plane_side + 1 }
    ensures { result ≡ half index }
{
    index / 2 + PLANE_ORIGIN / 2
}
