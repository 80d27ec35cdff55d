//! Images that are mirrored in their boxes.

ghost use Rattle.std.specs.Prelude.{◌≡◌, ◌+◌, ◌-◌, ◌*◌, ◌^◌, ◌≤◌, IfOk, if◌then◌else◌, length, min};
ghost use Rattle.std.specs.List.{flat_map, range_with_len};
ghost use Rattle.plane_rect.specs.Rectangle.{InLimits, Includes, IsRectangle, plane_side};
ghost use Rattle.pixel_formats.specs.Row.{HasPixels, pixel_at};
ghost use Rattle.pixel_formats.specs.Format.{pixel_bytes};
ghost use Rattle.model_images.specs.{FromRaw.byte_count, Image.image_from_fn};
ghost use Rattle.model_graphs.specs.Windows.{IsWholeWindow, window_image};
ghost use Rattle.model_operations.specs.Values.{flipped_pixel};
ghost use Rattle.point_ops.specs.Flipped.{chunk_from_end, flipped_index, mirrored_source};

use crate::patches::pixel_count;
use alloc_basics::NoMemory;
use op_contracts::Window;
use patch_abyss::Patch;
use pixel_formats::Format;
use plane_rect::Rect;
use std::alloc::Global;

/// Returns a part of what a window shows, mirrored in the input's box: left and right where
/// `sideways`, else top and bottom. Takes time in proportion to the part's pixels.
///
/// # Errors
///
/// `NoMemory` if memory runs out.
pub(crate) fn flipped_part(
    alloc: Global,
    sideways: bool,
    window: &Window,
    out: Rect,
) -> Result<Patch, NoMemory>
    requires whole { IsWholeWindow window.now }
    requires limits { InLimits out }
    requires part { Includes window.now.bounds out }
    ensures { IfOk result (λ patch. patch ≡ image_from_fn out window.now.format (flipped_pixel sideways (window_image window.now))) }
{
    let source = mirrored_source(sideways, &window.bounds, &out);
    let part = window.part_bytes(alloc, source)?;
    let bytes = flipped_bytes(alloc, sideways, window.format, part.as_slice(), &out)?;
    Ok(Patch::from_vec(out, window.format, bytes))
}

/// Returns the positions of a box that become those of a part when mirrored in it.
fn mirrored_source(sideways: bool, bounds: &Rect, out: &Rect) -> Rect
    ensures value { result ≡ mirrored_source sideways bounds.now out.now }
    ensures rectangle { IsRectangle out.now }
{
    let (first_column, end_column) = (out.first_column(), out.end_column());
    let (first_row, end_row) = (out.first_row(), out.end_row());
    if sideways {
        let (first, end) = (bounds.first_column(), bounds.end_column());
        Rect::spanning(
            mirrored_index(first, end, end_column),
            first_row,
            mirrored_index(first, end, first_column),
            end_row,
        )
    } else {
        let (first, end) = (bounds.first_row(), bounds.end_row());
        Rect::spanning(
            first_column,
            mirrored_index(first, end, end_row),
            end_column,
            mirrored_index(first, end, first_row),
        )
    }
}

/// Returns how far before the end of some columns, or rows, is what is so far after their first; the
/// end at most.
fn mirrored_index(first: u32, end: u32, index: u32) -> u32
    requires first { first ≤ plane_side }
    requires end { end ≤ plane_side }
    ensures { result ≡ min (first + end - index) end }
{
    (first + end).saturating_sub(index).min(end)
}

/// Returns the raw bytes of a rectangle's pixels, each row mirrored where `sideways`, and else the
/// order of the rows.
fn flipped_bytes(
    alloc: Global,
    sideways: bool,
    format: Format,
    src: &[u8],
    rect: &Rect,
) -> Result<Vec<u8>, NoMemory>
    requires limits { InLimits rect.now }
    requires count { length src.now ≡ byte_count rect.now format }
    ensures count { IfOk result (λ bytes. length bytes.items ≡ byte_count rect.now format) }
    ensures pixels { IfOk result (λ bytes. HasPixels format bytes.items
        (λ i. pixel_at format src.now (flipped_index sideways rect.now i))) }
{
    let (pixel, rows) = (format.pixel_bytes() as usize, rect.h as usize);
    let row = rect.w as usize * pixel;
    if sideways {
        // The pixels in the reverse of their order, and then the rows in their order again.
        let pixels = reversed(alloc, src, pixel, pixel_count(rect))?;
        Ok(reversed(alloc, &pixels, row, rows)?)
    } else {
        Ok(reversed(alloc, src, row, rows)?)
    }
}

/// Returns so many chunks of `n` bytes in the reverse of their order.
fn reversed(alloc: Global, chunks: &[u8], n: usize, count: usize) -> Result<Vec<u8>, NoMemory>
    requires { length chunks.now ≡ count * n }
    ensures { IfOk result (λ bytes. bytes.items ≡ flat_map (chunk_from_end chunks.now n count) (range_with_len 0 count)) }
{
    let mut bytes = Vec::with_capacity(alloc, chunks.len())?;
    for number in 0..count {
        let end = (count - number) * n;
        bytes.extend_from_slice(&chunks[end - n..end])?;
    }
    Ok(bytes)
}
