//! Images read under a policy.

ghost use Rattle.std.specs.Prelude.{◌≡◌, ◌≢◌, ◌+◌, ◌-◌, ◌*◌, ◌<◌, ◌≤◌, IfOk, length, max, min};
ghost use Rattle.plane_rect.specs.Rectangle.{InLimits, Within, end_row, end_column};
ghost use Rattle.pixel_formats.specs.{Format.pixel_bytes, Row.HasPixels, declared.abyss.Abyss.TheVariants.Loop};
ghost use Rattle.model_images.specs.Abyss.{abyss_at, wrapped};
ghost use Rattle.model_images.specs.{Image.image_from_fn, FromRaw.byte_count};
ghost use Rattle.patch_abyss.specs.Fetched.{RowsFilled, outside_sample};
ghost use Rattle.patch_abyss.specs.Rows.{AreRepeated, moved_to};

use crate::fill::{RowParts, cycle, fill_sides, repeat, wrap_rows};
use crate::outside::{Repetition, outside_pixel, repeated_rows, source_rows, wrapped};
use crate::patch::{Patch, byte_count};
use crate::rows::{Rows, copy_rows};
use alloc_basics::NoMemory;
use pixel_formats::{Abyss, Format};
use plane_rect::Rect;
use std::alloc::Global;
use std::ops::Range;

/// Returns the patch over a rectangle of the samples that the image has there, and outside its own
/// rectangle those that the policy gives. Takes time in proportion to the rectangle's pixels.
///
/// # Errors
///
/// `NoMemory` if memory runs out.
pub fn fetch(alloc: Global, image: &Patch, abyss: Abyss, rect: Rect) -> Result<Patch, NoMemory>
    requires { InLimits rect }
    ensures { IfOk result (λ patch. patch ≡ image_from_fn rect image.now.format (abyss_at image.now abyss)) }
{
    if abyss == Abyss::None || image.rect().contains(&rect) {
        return image.part(alloc, rect);
    }
    let format = image.format();
    let mut bytes = vec![in alloc; 0; byte_count(&rect, format)]?;
    fetch_rows(image, abyss, &rect, &mut bytes);
    Ok(Patch::from_vec(rect, format, bytes))
}

/// Writes the samples of a rectangle, band by band from the top.
fn fetch_rows(image: &Patch, abyss: Abyss, rect: &Rect, bytes: &mut [u8])
    requires { length bytes.old ≡ byte_count rect.now image.now.format }
    ensures len { length bytes.new ≡ length bytes.old }
    ensures generated { RowsFilled rect.now image.now.format (abyss_at image.now abyss) rect.now.height bytes.new }
{
    let mut row = rect.first_row();
    while row < rect.end_row() {
        row = match repeated_rows(&image.rect(), abyss, rect, row) {
            Some(repetition) => repeat_rows(image, abyss, rect, row, &repetition, bytes),
            None => fetch_band(image, abyss, rect, row, bytes),
        };
    }
}

/// Writes rows of a rectangle that read the same of the image as rows above them, from one on,
/// where the rows above it are written. Returns the exclusive end of what is written.
fn repeat_rows(
    image: &Patch,
    abyss: Abyss,
    rect: &Rect,
    row: u32,
    repetition: &Repetition,
    bytes: &mut [u8],
) -> u32
    requires row { Within rect.now.first_row rect.now.height row }
    requires repetition { AreRepeated image.now.box abyss rect.now row repetition.now }
    requires count { length bytes.old ≡ byte_count rect.now image.now.format }
    requires above { RowsFilled rect.now image.now.format (abyss_at image.now abyss) (row - rect.now.first_row) bytes.old }
    ensures end { result ≡ repetition.now.end }
    ensures len { length bytes.new ≡ length bytes.old }
    ensures generated { RowsFilled rect.now image.now.format (abyss_at image.now abyss) (result - rect.now.first_row) bytes.new }
{
    let count = rect.w as usize * image.format().pixel_bytes() as usize;
    let period = repetition.period as usize * count;
    let start = (row - rect.first_row()) as usize * count;
    let end = (repetition.end - rect.first_row()) as usize * count;
    repeat(&mut bytes[start - period..end], period);
    repetition.end
}

/// Writes rows of a rectangle that read rows of the image which follow one another, or a row that
/// reads nothing of it, where the rows above are written. Returns the exclusive end of what is
/// written.
fn fetch_band(image: &Patch, abyss: Abyss, rect: &Rect, row: u32, bytes: &mut [u8]) -> u32
    requires row { Within rect.now.first_row rect.now.height row }
    requires count { length bytes.old ≡ byte_count rect.now image.now.format }
    requires above { RowsFilled rect.now image.now.format (abyss_at image.now abyss) (row - rect.now.first_row) bytes.old }
    ensures further { row < result }
    ensures within { result ≤ end_row rect.now }
    ensures len { length bytes.new ≡ length bytes.old }
    ensures generated { RowsFilled rect.now image.now.format (abyss_at image.now abyss) (result - rect.now.first_row) bytes.new }
{
    let format = image.format();
    let count = rect.w as usize * format.pixel_bytes() as usize;
    let start = (row - rect.first_row()) as usize * count;
    let Some(sources) = source_rows(&image.rect(), abyss, row) else {
        write_outside(abyss, format, &mut bytes[start..start + count]);
        return row + 1;
    };
    let rows = (sources.end - sources.start).min(rect.end_row() - row);
    let end = (row + rows - rect.first_row()) as usize * count;
    let to = &mut bytes[start..end];
    write_rows(image, abyss, rect, sources.start..sources.start + rows, to);
    row + rows
}

/// Writes pixels that read nothing of an image.
fn write_outside(abyss: Abyss, format: Format, to: &mut [u8])
    ensures len { length to.new ≡ length to.old }
    ensures pixels { HasPixels format to.new (λ _. outside_sample abyss format) }
{
    cycle(to, outside_pixel(abyss, format));
}

/// Writes the samples of a row over the columns of a rectangle.
pub(crate) fn read_row(image: &Patch, abyss: Abyss, rect: &Rect, row: u32, to: &mut [u8])
    requires { length to.old ≡ rect.now.width * pixel_bytes image.now.format }
    ensures len { length to.new ≡ length to.old }
    ensures pixels { HasPixels image.now.format to.new (λ k. abyss_at image.now abyss (rect.now.first_column + k) row) }
{
    let Some(sources) = source_rows(&image.rect(), abyss, row) else {
        write_outside(abyss, image.format(), to);
        return;
    };
    write_rows(image, abyss, rect, sources.start..sources.start + 1, to);
}

/// Writes rows over the columns of a rectangle, one for each of these rows of the image.
fn write_rows(image: &Patch, abyss: Abyss, rect: &Rect, sources: Range<u32>, to: &mut [u8])
    requires some { sources.start < sources.end }
    requires first_row { image.now.box.first_row ≤ sources.start }
    requires end_row { sources.end ≤ end_row image.now.box }
    requires count { length to.old ≡ (sources.end - sources.start) * (rect.now.width * pixel_bytes image.now.format) }
    ensures len { length to.new ≡ length to.old }
    ensures generated { RowsFilled (moved_to sources.start rect.now) image.now.format (abyss_at image.now abyss)
        (sources.end - sources.start) to.new }
{
    match abyss {
        Abyss::Loop => {
            // Each row begins at the same column of the image.
            let pixel = image.format().pixel_bytes() as usize;
            let (bounds, many) = (image.rect(), (sources.end - sources.start) as usize);
            let (count, period) = (rect.w as usize * pixel, bounds.w as usize * pixel);
            let first = wrapped_start(&bounds, rect) as usize * pixel;
            wrap_rows(to, count, image.rows(sources), period, first, many);
        }
        _ => edge_rows(image, abyss, rect, sources, to),
    }
}

/// Returns how many columns right of a box's first one is the column that a rectangle's first one
/// reads under `Loop`.
fn wrapped_start(bounds: &Rect, rect: &Rect) -> u32
    requires { 0 < bounds.now.width }
    ensures { result ≡ wrapped bounds.now.first_column bounds.now.width rect.now.first_column - bounds.now.first_column }
{
    wrapped(bounds.first_column(), bounds.w, rect.first_column()) - bounds.first_column()
}

/// Writes rows under another policy, whose columns left and right of the image read its edge or
/// nothing of it.
fn edge_rows(image: &Patch, abyss: Abyss, rect: &Rect, sources: Range<u32>, to: &mut [u8])
    requires still { abyss ≢ Loop }
    requires some { sources.start < sources.end }
    requires first_row { image.now.box.first_row ≤ sources.start }
    requires end_row { sources.end ≤ end_row image.now.box }
    requires count { length to.old ≡ (sources.end - sources.start) * (rect.now.width * pixel_bytes image.now.format) }
    ensures len { length to.new ≡ length to.old }
    ensures generated { RowsFilled (moved_to sources.start rect.now) image.now.format (abyss_at image.now abyss)
        (sources.end - sources.start) to.new }
{
    let pixel = image.format().pixel_bytes() as usize;
    let (bounds, many) = (image.rect(), (sources.end - sources.start) as usize);
    let (count, period) = (rect.w as usize * pixel, bounds.w as usize * pixel);
    let from = image.rows(sources);
    let (before, shared) = shared_columns(rect, &bounds);
    let start = before * pixel;
    let end = start + (shared.end - shared.start) * pixel;
    let middle = Rows::new(shared.start * pixel, period);
    copy_rows(to, Rows::new(start, count), from, middle, end - start, many);
    let parts = RowParts { count, start, end };
    match abyss {
        Abyss::Clamp => {
            let (first, last) = (Rows::new(0, period), Rows::new(period - pixel, period));
            fill_sides(to, parts, from, first, last, pixel, many);
        }
        _ => {
            let (outside, once) = (outside_pixel(abyss, image.format()), Rows::new(0, 0));
            fill_sides(to, parts, outside, once, once, pixel, many);
        }
    }
}

/// Returns how many columns of a rectangle are left of those that it shares with a box, and which
/// of the box's columns these are. Where it shares none, all are left of the box or right of it.
fn shared_columns(rect: &Rect, bounds: &Rect) -> (usize, Range<usize>)
    ensures before { result.0 ≡ min (max bounds.now.first_column rect.now.first_column) (end_column rect.now) - rect.now.first_column }
    ensures start { result.1.start ≡ min (max rect.now.first_column bounds.now.first_column) (end_column bounds.now) - bounds.now.first_column }
    ensures end { result.1.end ≡ min (max (end_column rect.now) bounds.now.first_column) (end_column bounds.now) - bounds.now.first_column }
{
    let (first_column, end_column) = (rect.first_column(), rect.end_column());
    let (start, end) = (bounds.first_column(), bounds.end_column());
    let before = start.max(first_column).min(end_column) - first_column;
    let first = first_column.max(start).min(end) - start;
    let last = end_column.max(start).min(end) - start;
    (before as usize, first as usize..last as usize)
}
