//! Images halved.

ghost use Rattle.std.specs.Prelude.{◌≡◌, ◌+◌, ◌*◌, ◌%◌, ◌<◌, IfOk, length};
ghost use Rattle.plane_rect.specs.Rectangle.{halved, plane_side};
ghost use Rattle.pixel_formats.specs.{Average.mean_pixel, Format.pixel_bytes, Row.HasPixels};
ghost use Rattle.model_images.specs.Level.{doubled, halved_image, mean_at};
ghost use Rattle.model_images.specs.{Image.at, FromRaw.byte_count};
ghost use Rattle.patch_abyss.specs.Fetched.{RowsFilled};

use crate::patch::{Patch, byte_count, has_rows};
use crate::reading::read_row;
use alloc_basics::NoMemory;
use pixel_formats::Abyss;
use plane_rect::{PLANE_ORIGIN, Rect};
use sample_rows::row_average4;
use std::alloc::Global;

/// Returns the patch over half the image's rectangle: each sample is the mean of four of the
/// image's, rounded to the nearest, where samples outside its rectangle are 0. Takes time in
/// proportion to the image's pixels.
///
/// # Errors
///
/// `NoMemory` if memory runs out.
pub fn halve(alloc: Global, image: &Patch) -> Result<Patch, NoMemory>
    ensures { IfOk result (λ patch. patch ≡ halved_image image.now) }
{
    let format = image.format();
    let rect = image.rect().halved();
    let count = 2 * rect.w as usize * format.pixel_bytes() as usize;
    let mut up = vec![in alloc; 0; count]?;
    let mut down = vec![in alloc; 0; count]?;
    let mut bytes = vec![in alloc; 0; byte_count(&rect, format)]?;
    halve_rows(image, &rect, &mut up, &mut down, &mut bytes);
    Ok(Patch::from_vec(rect, format, bytes))
}

/// Writes the samples of a halved image, row by row. Two rows of twice the width hold those of the
/// image that are averaged.
fn halve_rows(image: &Patch, rect: &Rect, up: &mut [u8], down: &mut [u8], bytes: &mut [u8])
    requires rect { rect.now ≡ halved image.now.box }
    requires count { length bytes.old ≡ byte_count rect.now image.now.format }
    requires up { length up.old ≡ 2 * rect.now.width * pixel_bytes image.now.format }
    requires down { length down.old ≡ 2 * rect.now.width * pixel_bytes image.now.format }
    ensures len { length bytes.new ≡ length bytes.old }
    ensures generated { RowsFilled rect.now image.now.format (mean_at image.now) rect.now.height bytes.new }
{
    let columns = even_columns(&image.rect());
    let count = rect.w as usize * image.format().pixel_bytes() as usize;
    for row in rect.first_row()..rect.end_row() {
        let start = (row - rect.first_row()) as usize * count;
        let to = &mut bytes[start..start + count];
        halve_row(image, &columns, 2 * row - PLANE_ORIGIN, up, down, to);
    }
}

/// Writes the means of a row over some columns and the row below it, pair by pair.
fn halve_row(image: &Patch, columns: &Rect, row: u32, up: &mut [u8], down: &mut [u8], to: &mut [u8])
    requires row { row + 1 < plane_side }
    requires whole { length to.old % pixel_bytes image.now.format ≡ 0 }
    requires count { 2 * length to.old ≡ columns.now.width * pixel_bytes image.now.format }
    requires up { length up.old ≡ 2 * length to.old }
    requires down { length down.old ≡ 2 * length to.old }
    ensures up { length up.new ≡ length up.old }
    ensures down { length down.new ≡ length down.old }
    ensures len { length to.new ≡ length to.old }
    ensures pixels { HasPixels image.now.format to.new (λ k. mean_pixel
        (at image.now (columns.now.first_column + 2 * k) row)
        (at image.now (columns.now.first_column + (2 * k + 1)) row)
        (at image.now (columns.now.first_column + 2 * k) (row + 1))
        (at image.now (columns.now.first_column + (2 * k + 1)) (row + 1))) }
{
    let format = image.format();
    if has_rows(&image.rect(), columns, row..row + 2) {
        let (above, below) = (image.rows(row..row + 1), image.rows(row + 1..row + 2));
        row_average4(format, above, below, to);
        return;
    }
    read_row(image, Abyss::None, columns, row, up);
    read_row(image, Abyss::None, columns, row + 1, down);
    row_average4(format, up, down, to);
}

/// Returns the rectangle with a column more on each side where the first is odd or the last is
/// even, so that it contains both columns that are averaged to one.
fn even_columns(rect: &Rect) -> Rect
    ensures first_column { result.first_column ≡ doubled (halved rect.now).first_column }
    ensures width { result.width ≡ 2 * (halved rect.now).width }
{
    let (first_column, end_column) = (rect.first_column(), rect.end_column());
    Rect::spanning(
        first_column - first_column % 2,
        rect.first_row(),
        end_column + end_column % 2,
        rect.end_row(),
    )
}
