//! Images that are mixed by a mask.

ghost use Rattle.std.specs.Prelude.{◌≡◌, ◌*◌, ◌%◌, IfOk, IsTrue, length};
ghost use Rattle.pixel_formats.specs.Blend.{blended_pixel};
ghost use Rattle.pixel_formats.specs.Format.{depth, pixel_bytes};
ghost use Rattle.pixel_formats.specs.Row.{HasPixels, pixel_at, pixel_count, sample_at};
ghost use Rattle.model_images.specs.Image.{at, image_from_fn};
ghost use Rattle.model_graphs.specs.Filters.{is_mask_of};
ghost use Rattle.model_graphs.specs.Windows.{IsWholeWindow, window_image};

use crate::window::Window;
use alloc_basics::NoMemory;
use patch_abyss::Patch;
use pixel_formats::Format;
use sample_rows::row_blend;
use std::alloc::Global;

/// Returns what a window shows, mixed with what was made, over the rectangle that was made: where the mask's window shows 0,
/// the pixels that the first window shows, and where it shows the largest sample, those that were made. Takes time in
/// proportion to the rectangle's pixels and to the number of the windows' tiles.
///
/// # Errors
///
/// `NoMemory` if memory runs out.
pub(crate) fn mixed_part(
    alloc: Global,
    base: &Window,
    made: &Patch,
    mask: &Window,
) -> Result<Patch, NoMemory>
    requires base { IsWholeWindow base.now }
    requires made { made.now.format ≡ base.now.format }
    requires mask { IsWholeWindow mask.now }
    requires suits { IsTrue (is_mask_of mask.now.format base.now.format) }
    ensures { IfOk result (λ patch. patch ≡ image_from_fn made.now.box base.now.format
        (λ u v. blended_pixel base.now.format (at (window_image base.now) u v) (at made.now u v) (at (window_image mask.now) u v 0))) }
{
    let rect = made.rect();
    let (a, m) = (base.part_bytes(alloc, rect)?, mask.part_bytes(alloc, rect)?);
    let bytes = mixed_bytes(
        alloc,
        base.format,
        a.as_slice(),
        made.raw_bytes(),
        m.as_slice(),
    )?;
    Ok(Patch::from_vec(rect, base.format, bytes))
}

/// Returns the pixels of two rows of a format, mixed by a row of as many samples of a mask.
///
/// # Errors
///
/// `NoMemory` if memory runs out.
fn mixed_bytes(
    alloc: Global,
    format: Format,
    base: &[u8],
    made: &[u8],
    mask: &[u8],
) -> Result<Vec<u8>, NoMemory>
    requires whole { length base.now % pixel_bytes format ≡ 0 }
    requires made { length made.now ≡ length base.now }
    requires mask { length mask.now ≡ pixel_count format base.now * depth format }
    ensures count { IfOk result (λ bytes. length bytes.items ≡ length base.now) }
    ensures pixels { IfOk result (λ bytes. HasPixels format bytes.items
        (λ k. blended_pixel format (pixel_at format base.now k) (pixel_at format made.now k) (sample_at (depth format) mask.now k))) }
{
    let mut bytes = vec![in alloc; 0; base.len()]?;
    row_blend(format, base, made, mask, &mut bytes);
    Ok(bytes)
}
