//! Images whose pixels are each made of a pixel of two others.

ghost use Rattle.std.specs.Prelude.{◌≡◌, ◌*◌, ◌%◌, IfOk, length};
ghost use Rattle.plane_rect.specs.Rectangle.{InLimits};
ghost use Rattle.pixel_formats.specs.Row.{HasPixels, pixel_at, pixel_count};
ghost use Rattle.pixel_formats.specs.Format.{pixel_bytes};
ghost use Rattle.model_images.specs.Image.{at, image_from_fn};
ghost use Rattle.model_graphs.specs.Windows.{IsWholeWindow, window_image};
ghost use Rattle.point_ops.specs.Combinations.{Suit, combined_pixel};

use alloc_basics::NoMemory;
use op_contracts::Window;
use patch_abyss::Patch;
use pixel_formats::Format;
use plane_rect::Rect;
use sample_rows::{row_add, row_mask, row_over};
use std::alloc::Global;

/// What becomes of the pixels of two images at one position.
#[derive(Clone, Copy)]
pub(crate) enum Combination {
    Add,
    Over,
    Mask,
}

/// Returns the combined pixels of two rows of as many pixels.
///
/// # Errors
///
/// `NoMemory` if memory runs out.
fn combined_bytes(
    alloc: Global,
    combination: Combination,
    formats: (Format, Format),
    first: &[u8],
    second: &[u8],
) -> Result<Vec<u8>, NoMemory>
    requires suit { Suit combination formats.0 formats.1 }
    requires whole { length first.now % pixel_bytes formats.0 ≡ 0 }
    requires count { length second.now ≡ pixel_count formats.0 first.now * pixel_bytes formats.1 }
    ensures count { IfOk result (λ bytes. length bytes.items ≡ length first.now) }
    ensures pixels { IfOk result (λ bytes. HasPixels formats.0 bytes.items
        (λ k. combined_pixel combination formats.0 (pixel_at formats.0 first.now k) (pixel_at formats.1 second.now k))) }
{
    let mut bytes = vec![in alloc; 0; first.len()]?;
    write_combined(combination, formats, first, second, &mut bytes);
    Ok(bytes)
}

/// Writes the combined pixels of two rows of as many pixels.
fn write_combined(
    combination: Combination,
    formats: (Format, Format),
    first: &[u8],
    second: &[u8],
    dst: &mut [u8],
)
    requires suit { Suit combination formats.0 formats.1 }
    requires whole { length first.now % pixel_bytes formats.0 ≡ 0 }
    requires count { length second.now ≡ pixel_count formats.0 first.now * pixel_bytes formats.1 }
    requires written { length dst.old ≡ length first.now }
    ensures { HasPixels formats.0 dst.new
        (λ k. combined_pixel combination formats.0 (pixel_at formats.0 first.now k) (pixel_at formats.1 second.now k)) }
{
    let format = formats.0;
    match combination {
        Combination::Add => row_add(format, first, second, dst),
        Combination::Over => row_over(format, first, second, dst),
        Combination::Mask => row_mask(format, first, second, dst),
    }
}

/// Returns the combined pixels of a part of what two windows show. Takes time in proportion to the
/// part's pixels.
///
/// # Errors
///
/// `NoMemory` if memory runs out.
pub(crate) fn combined_part(
    alloc: Global,
    combination: Combination,
    first: &Window,
    second: &Window,
    out: Rect,
) -> Result<Patch, NoMemory>
    requires suit { Suit combination first.now.format second.now.format }
    requires first { IsWholeWindow first.now }
    requires second { IsWholeWindow second.now }
    requires limits { InLimits out }
    ensures { IfOk result (λ patch. patch ≡ image_from_fn out first.now.format
        (λ u v. combined_pixel combination first.now.format (at (window_image first.now) u v) (at (window_image second.now) u v))) }
{
    let formats = (first.format, second.format);
    let (a, b) = (
        first.part_bytes(alloc, out)?,
        second.part_bytes(alloc, out)?,
    );
    let bytes = combined_bytes(alloc, combination, formats, a.as_slice(), b.as_slice())?;
    Ok(Patch::from_vec(out, formats.0, bytes))
}
