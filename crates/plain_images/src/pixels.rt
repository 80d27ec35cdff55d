//! The samples that operations give, pixel by pixel.

ghost use Rattle.std.specs.Prelude.{◌≡◌, ◌-◌, ◌<◌, ◌≤◌, ◌^◌, IsTrue, if◌then◌else◌};
ghost use Rattle.plane_rect.specs.Rectangle.{plane_side};
ghost use Rattle.pixel_formats.specs.Convert.{color_of, converted_pixel, gray_of, is_gray, rechannelled};
ghost use Rattle.pixel_formats.specs.Recolor.{cap, is_alpha};
ghost use Rattle.pixel_formats.specs.{Format.max_sample, Mask.masked_pixel, Over.over_pixel, Limits.is_move};
ghost use Rattle.model_images.specs.Image.{at};
ghost use Rattle.model_operations.specs.Moves.{source_index, mirrored};
ghost use Rattle.model_operations.specs.Values.{checker_pixel, flipped_pixel, square_number};

use crate::formulas::{composited, mean_of_three, rescaled, scaled_by};
use crate::picture::{Picture, Samples};
use crate::policies::is_alpha;
use pixel_formats::Format;
use plane_rect::PLANE_ORIGIN;

/// Returns what a color of a pixel is at most: its alpha, or the largest sample where there is none.
pub(crate) fn cap_at(picture: &Picture, column: u32, row: u32) -> u32
    ensures value { result ≡ cap picture.now.format (at picture.now column row) }
    ensures range { result ≤ max_sample picture.now.format }
{
    let format = picture.format();
    if format.has_alpha() {
        picture.at(column, row, format.channels() - 1)
    } else {
        format.max()
    }
}

/// Returns the changed sample of a color, and the own one of alpha.
pub(crate) fn recolored(format: Format, channel: u32, own: u32, changed: u32) -> u32
    ensures { result ≡ (if is_alpha format channel then own else changed) }
{
    if is_alpha(format, channel) {
        own
    } else {
        changed
    }
}

/// Returns the sample of a pixel in another format.
pub(crate) fn converted_at(
    picture: &Picture,
    to: Format,
    column: u32,
    row: u32,
    channel: u32,
) -> u32
    ensures { result ≡ converted_pixel picture.now.format to (at picture.now column row) channel }
{
    let sample = rechannelled_at(picture, to, column, row, channel);
    rescaled(picture.format(), to, sample)
}

/// Returns the sample of a pixel with the channels of another format, at its own depth.
fn rechannelled_at(picture: &Picture, to: Format, column: u32, row: u32, channel: u32) -> u32
    ensures value { result ≡ rechannelled picture.now.format to (at picture.now column row) channel }
    ensures range { result ≤ max_sample picture.now.format }
{
    if is_alpha(to, channel) {
        cap_at(picture, column, row)
    } else if is_gray(to) {
        gray_at(picture, column, row)
    } else {
        color_at(picture, column, row, channel)
    }
}

/// Returns the gray of a pixel: its own, or the mean of its three colors.
fn gray_at(picture: &Picture, column: u32, row: u32) -> u32
    ensures value { result ≡ gray_of picture.now.format (at picture.now column row) }
    ensures range { result ≤ max_sample picture.now.format }
{
    if is_gray(picture.format()) {
        return picture.at(column, row, 0);
    }
    mean_of_three(
        picture.at(column, row, 0),
        picture.at(column, row, 1),
        picture.at(column, row, 2),
    )
}

/// Returns a color of a pixel, where gray counts as all three.
fn color_at(picture: &Picture, column: u32, row: u32, channel: u32) -> u32
    ensures value { result ≡ color_of picture.now.format (at picture.now column row) channel }
    ensures range { result ≤ max_sample picture.now.format }
{
    if is_gray(picture.format()) {
        picture.at(column, row, 0)
    } else {
        picture.at(column, row, channel)
    }
}

/// Returns whether a format has one color.
fn is_gray(format: Format) -> bool
    ensures { result ≡ is_gray format }
{
    format.channels() < 3
}

/// Returns the sample of an image that is mirrored in its rectangle: left and right if `sideways`, else top
/// and bottom.
pub(crate) fn flipped_at(
    picture: &Picture,
    sideways: bool,
    column: u32,
    row: u32,
    channel: u32,
) -> u32
    ensures { result ≡ flipped_pixel sideways picture.now column row channel }
{
    let rect = picture.rect();
    if sideways {
        picture.at(
            mirrored(rect.first_column(), rect.end_column(), column),
            row,
            channel,
        )
    } else {
        picture.at(
            column,
            mirrored(rect.first_row(), rect.end_row(), row),
            channel,
        )
    }
}

/// Returns the number that stands as far from the last of those from `start` up to `end` as another from
/// the first.
fn mirrored(start: u32, end: u32, n: u32) -> u32
    requires order { start ≤ end }
    requires side { end ≤ plane_side }
    ensures { result ≡ mirrored start (end - start) n }
{
    (start + end).saturating_sub(1).saturating_sub(n)
}

/// Returns the column from which one came that was moved by `d`, or the row.
pub(crate) fn source_index(d: i64, n: u32) -> u32
    requires distance { IsTrue (is_move d) }
    requires side { n < plane_side }
    ensures { result ≡ source_index d n }
{
    (i64::from(n) - d).max(0) as u32
}

/// Returns the sample of a checkerboard of squares of `size` positions: `even` in the square at the origin,
/// `odd` in those beside it, and full alpha.
pub(crate) fn checker_at(
    format: Format,
    size: u32,
    even: u32,
    odd: u32,
    column: u32,
    row: u32,
    channel: u32,
) -> u32
    requires { 0 < size }
    ensures { result ≡ checker_pixel format size even odd column row channel }
{
    if is_alpha(format, channel) {
        format.max()
    } else if (square_number(size, column) + square_number(size, row)) % 2 == 0 {
        even
    } else {
        odd
    }
}

/// Returns the number of a column's square, or a row's: the origin begins an even one.
fn square_number(size: u32, n: u32) -> u64
    requires { 0 < size }
    ensures value { result ≡ square_number size n }
    ensures small { result < 2 ^ 63 }
{
    let origin = u64::from(PLANE_ORIGIN);
    (u64::from(n) + origin * u64::from(size) - origin) / u64::from(size)
}

/// Returns the sample of one pixel composited over another.
pub(crate) fn over_at(
    first_row: &Picture,
    end_row: &Picture,
    column: u32,
    row: u32,
    channel: u32,
) -> u32
    ensures { result ≡ over_pixel first_row.now.format (at first_row.now column row) (at end_row.now column row) channel }
{
    let format = first_row.format();
    composited(
        format.max(),
        first_row.at(column, row, format.channels() - 1),
        first_row.at(column, row, channel),
        end_row.at(column, row, channel),
    )
}

/// Returns the sample of a pixel scaled by that of another, of one channel.
pub(crate) fn masked_at(
    picture: &Picture,
    mask: &Picture,
    column: u32,
    row: u32,
    channel: u32,
) -> u32
    requires { max_sample mask.now.format ≤ max_sample picture.now.format }
    ensures { result ≡ masked_pixel picture.now.format (at picture.now column row) (at mask.now column row 0) channel }
{
    scaled_by(
        picture.format().max(),
        picture.at(column, row, channel),
        mask.at(column, row, 0),
    )
}
