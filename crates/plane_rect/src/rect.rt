//! Rectangles of positions.

ghost use Rattle.std.specs.Prelude.{◌≡◌, ℕ, ℤ, ◌+◌, ◌-◌, ◌*◌, ◌++◌, ◌<◌, ◌≤◌, ◌↔◌, ◌⊎◌, pos, ◌+ℤ◌, ◌≤ℤ◌, ◌<ℤ◌, IsTrue, IfOk, unsigned_abs};
ghost use Rattle.std.specs.Bool.{OnTrue};
ghost use Rattle.std.specs.Cmp.{partial_equiv_from_equiv};
ghost use Rattle.std.specs.Cmp.Rules.{hashing};
ghost use Rattle.std.specs.Hash as fed;
ghost use Rattle.std.proofs.Common.{rules};
ghost use Rattle.plane_rect.specs.Rectangle.{BeginsInside, BeginsOutside, EndsInside, EndsOutside, InLimits, IsCoordinate, IsExtent, IsRectangle, Includes, Inside, InsideSigned, Within, WithinSigned, area, begins_inside, end_row, empty, ends_inside, in_limits, is_coordinate, is_empty, is_extent, new_rectangle, offset, origin, plane_coordinate as coordinate_of, plane_index as index_of, plane_side, rectangle, end_column, same_rectangle, spanning};
ghost use Rattle.plane_rect.specs.SameRectangle.{same_rectangle-laws};

use crate::plane::{PLANE_ORIGIN, plane_coordinate, plane_index};
use std::hash::{Hash, Hasher};
use std::marker::Model;
use std::ops::Range;
use thiserror::Error;

/// A set of pixel positions: those of `x <= px < x + w` and `y <= py < y + h`.
///
/// It is in the plane, from -2^24 up to 2^24 in x and y, and a rectangle without a position is
/// [`Rect::EMPTY`]. A clause sees it by its first column and row, counted from the plane's corner,
/// and its width and height.
#[derive(Clone, Copy, Debug)]
pub struct Rect {
    pub x: i32,
    pub y: i32,
    pub w: u32,
    pub h: u32,
}

impl Model for Rect {
    ghost use Rattle.plane_rect.specs.Rectangle.{AreFields, Rectangle, placed, plane_coordinate};

    ghost Value = { Rectangle };

    ghost view = { λ r. placed r.x r.y r.w r.h };

    ghost invariant = { λ r. AreFields r.x r.y r.w r.h };

    ghost inverse = { λ v. record {
      x = plane_coordinate v.first_column;
      y = plane_coordinate v.first_row;
      w = v.width;
      h = v.height;
    } };
}

/// Why four numbers are no rectangle.
#[derive(Clone, Copy, Debug, PartialEq, Eq, Error)]
pub enum RectRefused {
    /// It begins before -2^24 or after 2^24.
    #[error("the rectangle begins outside the plane")]
    Place,
    /// A side is negative, or ends after 2^24.
    #[error("a side is negative or ends outside the plane")]
    Size,
}

impl Rect {
    /// The rectangle without a position.
    pub const EMPTY: Rect = Rect {
        x: 0,
        y: 0,
        w: 0,
        h: 0,
    };

    /// Returns the rectangle of `w` columns from `x` on and `h` rows from `y` on, in pixels.
    ///
    /// # Errors
    ///
    /// `Place` exactly where x or y is below -2^24 or above 2^24, and else `Size` exactly where w
    /// or h is negative, or x + w or y + h is above 2^24.
    pub fn new(x: i64, y: i64, w: i64, h: i64) -> Result<Rect, RectRefused>
        ensures value { result ≡ new_rectangle x y w h }
        ensures position { (result ≡ Err RectRefused.Place) ↔ BeginsOutside x y }
        ensures size { (result ≡ Err RectRefused.Size) ↔ (BeginsInside x y × EndsOutside x y w h) }
        ensures positions { IfOk result (λ r. (px py : ℤ) →
            InsideSigned px py r ↔ (WithinSigned x w px × WithinSigned y h py)) }
    {
        if !begins_inside(x, y) {
            return Err(RectRefused::Place);
        }
        if !ends_inside(x, y, w, h) {
            return Err(RectRefused::Size);
        }
        Ok(Rect::from_fields(x, y, w, h))
    }

    /// Returns the rectangle of fields that a rectangle may have, which is empty if a side is 0.
    fn from_fields(x: i64, y: i64, w: i64, h: i64) -> Rect
        requires begins { BeginsInside x y }
        requires ends { EndsInside x y w h }
        ensures { result ≡ rectangle (index_of x) (index_of y) (unsigned_abs w) (unsigned_abs h) }
    {
        if w == 0 || h == 0 {
            return Rect::EMPTY;
        }
        Rect {
            x: x as i32,
            y: y as i32,
            w: w as u32,
            h: h as u32,
        }
    }

    /// Returns the rectangle from a first column and row up to exclusive ends, which is empty where
    /// an end is not after its first.
    pub fn spanning(first_column: u32, first_row: u32, end_column: u32, end_row: u32) -> Rect
        requires columns { end_column ≤ plane_side }
        requires rows { end_row ≤ plane_side }
        ensures { result ≡ spanning first_column first_row end_column end_row }
    {
        if first_column >= end_column || first_row >= end_row {
            return Rect::EMPTY;
        }
        Rect {
            x: plane_coordinate(first_column),
            y: plane_coordinate(first_row),
            w: end_column - first_column,
            h: end_row - first_row,
        }
    }

    /// Returns the first column, counted from the plane's corner.
    pub fn first_column(&self) -> u32
        ensures value { result ≡ self.now.first_column }
        ensures rectangle { IsRectangle self.now }
    {
        plane_index(self.x)
    }

    /// Returns the first row, counted from the plane's corner.
    pub fn first_row(&self) -> u32
        ensures value { result ≡ self.now.first_row }
        ensures rectangle { IsRectangle self.now }
    {
        plane_index(self.y)
    }

    /// Returns the exclusive end of the columns: the one after the last.
    pub fn end_column(&self) -> u32
        ensures value { result ≡ end_column self.now }
        ensures rectangle { IsRectangle self.now }
    {
        self.first_column() + self.w
    }

    /// Returns the exclusive end of the rows: the one below the last.
    pub fn end_row(&self) -> u32
        ensures value { result ≡ end_row self.now }
        ensures rectangle { IsRectangle self.now }
    {
        self.first_row() + self.h
    }

    /// Returns the number of positions.
    pub fn area(&self) -> u64
        ensures value { result ≡ area self.now }
        ensures rectangle { IsRectangle self.now }
    {
        u64::from(self.w) * u64::from(self.h)
    }

    /// Returns whether it has no position.
    pub fn is_empty(&self) -> bool
        ensures value { result ≡ is_empty self.now }
        ensures empty { IsTrue result ↔ (self.now ≡ empty) }
        ensures positions { IsTrue result ↔ ((u v : ℕ) → ¬ Inside u v self.now) }
    {
        self.w == 0
    }

    /// Returns whether an image may have this rectangle: at most 2^15 columns and rows, and 2^25
    /// positions.
    pub fn in_limits(&self) -> bool
        ensures value { result ≡ in_limits self.now }
        ensures limits { IsTrue result ↔ InLimits self.now }
    {
        self.w <= 1 << 15 && self.h <= 1 << 15 && self.area() <= 1 << 25
    }

    /// Returns its x and y, as integers with room for sums and products.
    pub(crate) fn corner(&self) -> (i64, i64)
        ensures x { result.0 ≡ coordinate_of self.now.first_column }
        ensures y { result.1 ≡ coordinate_of self.now.first_row }
        ensures rectangle { IsRectangle self.now }
    {
        (i64::from(self.x), i64::from(self.y))
    }

    /// Returns whether it contains the position of x and y.
    pub fn has(&self, x: i32, y: i32) -> bool
        ensures { IsTrue result ↔ InsideSigned x y self.now }
    {
        is_within(self.x, self.w, x) && is_within(self.y, self.h, y)
    }

    /// Returns whether it contains the position of a column and a row.
    pub fn has_position(&self, column: u32, row: u32) -> bool
        ensures { IsTrue result ↔ Inside column row self.now }
    {
        self.first_column() <= column
            && column < self.end_column()
            && self.first_row() <= row
            && row < self.end_row()
    }

    /// Returns the index of a position among those of the rectangle, which are numbered row by row.
    pub fn offset(&self, column: u32, row: u32) -> usize
        requires { Inside column row self.now }
        ensures value { result ≡ offset self.now column row }
        ensures in_area { result < area self.now }
        ensures rectangle { IsRectangle self.now }
    {
        (row - self.first_row()) as usize * self.w as usize
            + (column - self.first_column()) as usize
    }

    /// Returns the indices that a row of a part of the rectangle has among the rectangle's
    /// positions, which are numbered row by row.
    pub fn part_row(&self, part: &Rect, row: u32) -> Range<usize>
        requires part { Includes self.now part.now }
        requires row { Within part.now.first_row part.now.height row }
        ensures start { result.start ≡ offset self.now part.now.first_column row }
        ensures len { result.end ≡ result.start + part.now.width }
        ensures in_area { result.end ≤ area self.now }
    {
        let start = self.offset(part.first_column(), row);
        start..start + part.w as usize
    }
}

impl PartialEq for Rect {
    ghost eq = { same_rectangle };

    ghost laws = { partial_equiv_from_equiv same_rectangle-laws };

    fn eq(&self, other: &Rect) -> bool
        ensures eq { result ≡ same_rectangle self.now other.now }
        ensures same { IsTrue result ↔ (self.now ≡ other.now) }
    {
        self.first_column() == other.first_column()
            && self.first_row() == other.first_row()
            && self.w == other.w
            && self.h == other.h
    }
}

impl Eq for Rect {
    ghost laws = { same_rectangle-laws };
}

impl Hash for Rect {
    ghost hash_input = { λ r. fed.u32 r.first_column ++ fed.u32 r.first_row ++ fed.u32 r.width ++ fed.u32 r.height };

    ghost respects_eq = { Prim.search (hashing, rules) };

    fn hash<H: Hasher>(&self, state: &mut H) {
        self.first_column().hash(state);
        self.first_row().hash(state);
        self.w.hash(state);
        self.h.hash(state);
    }
}

/// Returns whether a rectangle may begin at x and y.
fn begins_inside(x: i64, y: i64) -> bool
    ensures value { result ≡ begins_inside x y }
    ensures inside { OnTrue result (BeginsInside x y) }
{
    is_coordinate(x) && is_coordinate(y)
}

/// Returns whether a rectangle that begins at x and y may have w columns and h rows.
fn ends_inside(x: i64, y: i64, w: i64, h: i64) -> bool
    requires { BeginsInside x y }
    ensures value { result ≡ ends_inside x y w h }
    ensures inside { OnTrue result (EndsInside x y w h) }
{
    is_extent(x, w) && is_extent(y, h)
}

/// Returns whether a rectangle may begin at an x or a y.
fn is_coordinate(z: i64) -> bool
    ensures value { result ≡ is_coordinate z }
    ensures inside { OnTrue result (IsCoordinate z) }
{
    let reach = i64::from(PLANE_ORIGIN);
    -reach <= z && z <= reach
}

/// Returns whether a rectangle may have so many columns from an x on, or rows from a y on.
fn is_extent(z: i64, len: i64) -> bool
    requires { IsCoordinate z }
    ensures value { result ≡ is_extent z len }
    ensures inside { OnTrue result (IsExtent z len) }
{
    0 <= len && len <= i64::from(PLANE_ORIGIN) - z
}

/// Returns whether a number is one of the `len` numbers from `start` on.
fn is_within(start: i32, len: u32, z: i32) -> bool
    ensures { IsTrue result ↔ WithinSigned start (pos len) z }
{
    start <= z && i64::from(z) < i64::from(start) + i64::from(len)
}
