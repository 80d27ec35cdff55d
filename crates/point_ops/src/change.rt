//! Images whose pixels are changed, each by itself.

ghost use Rattle.std.specs.Prelude.{◌≡◌, ◌*◌, ◌%◌, ◌^◌, ◌≤◌, IfOk, length};
ghost use Rattle.plane_rect.specs.Rectangle.{InLimits};
ghost use Rattle.pixel_formats.specs.Row.{HasPixels, pixel_at, pixel_count};
ghost use Rattle.pixel_formats.specs.Format.{pixel_bytes};
ghost use Rattle.model_images.specs.Image.{at, image_from_fn};
ghost use Rattle.model_graphs.specs.Windows.{IsWholeWindow, window_image};
ghost use Rattle.point_ops.specs.Changes.{HasDivisor, changed_format, changed_pixel};

use crate::patches::pixel_count;
use alloc_basics::NoMemory;
use op_contracts::Window;
use patch_abyss::Patch;
use pixel_formats::Format;
use plane_rect::Rect;
use sample_rows::{convert_row, row_gain, row_invert, row_threshold};
use std::alloc::Global;

/// What becomes of each pixel of an image by itself.
#[derive(Clone, Copy)]
pub(crate) enum Change {
    Convert { format: Format },
    Invert,
    Threshold { at: u32 },
    Gain { num: u32, den: u32 },
}

impl Change {
    /// Returns the format of the changed pixels.
    fn format(self, from: Format) -> Format
        ensures { result ≡ changed_format self from }
    {
        match self {
            Change::Convert { format } => format,
            Change::Invert | Change::Threshold { .. } | Change::Gain { .. } => from,
        }
    }

    /// Writes the changed pixels of a row.
    fn write(self, from: Format, src: &[u8], dst: &mut [u8])
        requires divisor { HasDivisor self }
        requires whole { length src.now % pixel_bytes from ≡ 0 }
        requires count { length dst.old ≡ pixel_count from src.now * pixel_bytes (changed_format self from) }
        ensures { HasPixels (changed_format self from) dst.new (λ k. changed_pixel self from (pixel_at from src.now k)) }
    {
        match self {
            Change::Convert { format } => convert_row(from, src, format, dst),
            Change::Invert => row_invert(from, src, dst),
            Change::Threshold { at } => row_threshold(from, at, src, dst),
            Change::Gain { num, den } => row_gain(from, num, den, src, dst),
        }
    }
}

/// Returns the changed pixels of so many.
///
/// # Errors
///
/// `NoMemory` if memory runs out.
fn changed_bytes(
    alloc: Global,
    change: Change,
    from: Format,
    src: &[u8],
    pixels: usize,
) -> Result<Vec<u8>, NoMemory>
    requires divisor { HasDivisor change }
    requires few { pixels ≤ 2 ^ 25 }
    requires count { length src.now ≡ pixels * pixel_bytes from }
    ensures count { IfOk result (λ bytes. length bytes.items ≡ pixels * pixel_bytes (changed_format change from)) }
    ensures pixels { IfOk result (λ bytes. HasPixels (changed_format change from) bytes.items
        (λ k. changed_pixel change from (pixel_at from src.now k))) }
{
    let count = pixels * change.format(from).pixel_bytes() as usize;
    let mut bytes = vec![in alloc; 0; count]?;
    change.write(from, src, &mut bytes);
    Ok(bytes)
}

/// Returns the changed pixels of a part of what a window shows. Takes time in proportion to the
/// part's pixels.
///
/// # Errors
///
/// `NoMemory` if memory runs out.
pub(crate) fn changed_part(
    alloc: Global,
    change: Change,
    window: &Window,
    out: Rect,
) -> Result<Patch, NoMemory>
    requires divisor { HasDivisor change }
    requires whole { IsWholeWindow window.now }
    requires limits { InLimits out }
    ensures { IfOk result (λ patch. patch ≡ image_from_fn out (changed_format change window.now.format)
        (λ u v. changed_pixel change window.now.format (at (window_image window.now) u v))) }
{
    let from = window.format;
    let src = window.part_bytes(alloc, out)?;
    let bytes = changed_bytes(alloc, change, from, src.as_slice(), pixel_count(&out))?;
    Ok(Patch::from_vec(out, change.format(from), bytes))
}
