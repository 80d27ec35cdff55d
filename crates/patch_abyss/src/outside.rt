//! What is read outside an image's rectangle: which row, which column, which pixel.

ghost use Rattle.std.specs.Prelude.{◌≡◌, ◌≢◌, ℕ, ◌+◌, ◌-◌, ◌<◌, ◌≤◌, IfSome, MatchOption, length};
ghost use Rattle.plane_rect.specs.Rectangle.{Within, end_row, plane_side};
ghost use Rattle.pixel_formats.specs.Format.{channels, pixel_bytes};
ghost use Rattle.pixel_formats.specs.{Row.pixel_at, declared.abyss.Abyss.TheVariants.Loop};
ghost use Rattle.model_images.specs.Abyss.{black_sample, wrapped};
ghost use Rattle.patch_abyss.specs.Rows.{AreRepeated, OnOneSide, ReadsInOrder, ReadsNothing};
ghost use Rattle.patch_abyss.specs.Fetched.{outside_sample};

use pixel_formats::{Abyss, Format};
use plane_rect::Rect;
use std::ops::Range;

/// Rows that read the same of a box as rows above them.
#[derive(Clone, Copy)]
pub(crate) struct Repetition {
    /// How many rows above the first of them they repeat, periodically.
    pub period: u32,
    /// The exclusive end of the rows.
    pub end: u32,
}

/// Returns the rows of a box that a row of the plane and the rows below it read, as many as follow
/// one another, and None where the row reads nothing of the box.
pub(crate) fn source_rows(bounds: &Rect, abyss: Abyss, row: u32) -> Option<Range<u32>>
    ensures first_row { IfSome result (λ rows. bounds.now.first_row ≤ rows.start) }
    ensures some { IfSome result (λ rows. rows.start < rows.end) }
    ensures end_row { IfSome result (λ rows. rows.end ≤ end_row bounds.now) }
    ensures reads { MatchOption result (ReadsNothing bounds.now abyss row)
        (λ rows. ReadsInOrder bounds.now abyss row rows.start (rows.end - rows.start)) }
{
    if bounds.is_empty() {
        return None;
    }
    let (first_row, end_row) = (bounds.first_row(), bounds.end_row());
    if first_row <= row && row < end_row {
        return Some(row..end_row);
    }
    match abyss {
        Abyss::Loop => Some(wrapped(first_row, bounds.h, row)..end_row),
        Abyss::Clamp => {
            let nearest = row.min(end_row - 1).max(first_row);
            Some(nearest..nearest + 1)
        }
        _ => None,
    }
}

/// Returns the rows of a rectangle from one on that read the same of a box as those above them, and
/// None where no row above it reads the same as that one.
pub(crate) fn repeated_rows(
    bounds: &Rect,
    abyss: Abyss,
    rect: &Rect,
    row: u32,
) -> Option<Repetition>
    requires { Within rect.now.first_row rect.now.height row }
    ensures { IfSome result (AreRepeated bounds.now abyss rect.now row) }
{
    match abyss {
        Abyss::Loop => wrapped_rows(bounds, rect, row),
        _ => rows_aside(bounds, abyss, rect, row),
    }
}

/// Returns the rows of a rectangle from one on that read the same of a box under `Loop` as those
/// above them.
fn wrapped_rows(bounds: &Rect, rect: &Rect, row: u32) -> Option<Repetition>
    requires { Within rect.now.first_row rect.now.height row }
    ensures { IfSome result (AreRepeated bounds.now Loop rect.now row) }
{
    let period = bounds.h.max(1);
    if row - rect.first_row() < period {
        return None;
    }
    Some(Repetition {
        period,
        end: rect.end_row(),
    })
}

/// Returns the rows of a rectangle from one on that read the same of a box under another policy as
/// the row above them.
fn rows_aside(bounds: &Rect, abyss: Abyss, rect: &Rect, row: u32) -> Option<Repetition>
    requires still { abyss ≢ Loop }
    requires row { Within rect.now.first_row rect.now.height row }
    ensures { IfSome result (AreRepeated bounds.now abyss rect.now row) }
{
    if row == rect.first_row() {
        return None;
    }
    let end = end_aside(bounds, rect, row - 1);
    if end <= row {
        return None;
    }
    Some(Repetition { period: 1, end })
}

/// Returns the exclusive end of the rows of a rectangle that are on the same side of a box as one
/// of them.
fn end_aside(bounds: &Rect, rect: &Rect, row: u32) -> u32
    requires { Within rect.now.first_row rect.now.height row }
    ensures within { result ≤ end_row rect.now }
    ensures aside { (v : ℕ) → row ≤ v → v < result → OnOneSide bounds.now row v }
{
    if bounds.is_empty() || bounds.end_row() <= row {
        return rect.end_row();
    }
    bounds.first_row().min(rect.end_row())
}

/// Returns, of the `len` numbers from `start` on, the one that is a whole multiple of `len` away
/// from a number.
pub(crate) fn wrapped(start: u32, len: u32, number: u32) -> u32
    requires some { 0 < len }
    requires plane { start + len ≤ plane_side }
    ensures value { result ≡ wrapped start len number }
    ensures within { Within start len result }
{
    let (first, period) = (u64::from(start), u64::from(len));
    let moved = u64::from(number) + first * period - first;
    start + (moved % period) as u32
}

/// Returns the bytes of a pixel that reads nothing of an image.
pub(crate) fn outside_pixel(abyss: Abyss, format: Format) -> &'static [u8]
    ensures len { length result.now ≡ pixel_bytes format }
    ensures samples { (c : ℕ) → c < channels format →
        pixel_at format result.now 0 c ≡ outside_sample abyss format c }
{
    let count = format.pixel_bytes() as usize;
    match abyss {
        Abyss::None | Abyss::Clamp | Abyss::Loop => &[0; 16][..count],
        Abyss::Black => black_pixel(format),
        Abyss::White => &[255; 16][..count],
    }
}

/// Returns the bytes of a pixel of no color and full alpha.
fn black_pixel(format: Format) -> &'static [u8]
    ensures len { length result.now ≡ pixel_bytes format }
    ensures samples { (c : ℕ) → c < channels format →
        pixel_at format result.now 0 c ≡ black_sample format c }
{
    match format {
        Format::Y8 => &[0],
        Format::YA8 => &[0, 255],
        Format::RGB8 => &[0; 3],
        Format::RGBA8 => &[0, 0, 0, 255],
        Format::Y16 => &[0, 0],
        Format::YA16 => &[0, 0, 255, 255],
        Format::RGB16 => &[0; 6],
        Format::RGBA16 => &[0, 0, 0, 0, 0, 0, 255, 255],
        Format::Y32 => &[0; 4],
        Format::YA32 => &[0, 0, 0, 0, 255, 255, 255, 255],
        Format::RGB32 => &[0; 12],
        Format::RGBA32 => &[0, 0, 0, 0, 0, 0, 0, 0, 0, 0, 0, 0, 255, 255, 255, 255],
    }
}
