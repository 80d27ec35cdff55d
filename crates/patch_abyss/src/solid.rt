//! Patches of one pixel everywhere.

ghost use Rattle.std.specs.Prelude.{◌≡◌, All, IfOk, length, slice_index};
ghost use Rattle.plane_rect.specs.Rectangle.{InLimits};
ghost use Rattle.pixel_formats.specs.Format.{channels};
ghost use Rattle.model_images.specs.Image.{image_from_fn};
ghost use Rattle.patch_abyss.specs.Samples.{IsSampleOf};

use crate::patch::Patch;
use crate::reading::fetch;
use crate::samples::raw_pixel;
use alloc_basics::NoMemory;
use pixel_formats::{Abyss, Format};
use plane_rect::Rect;
use std::alloc::Global;

/// Returns the patch whose pixels have these samples, one for each channel. Takes time in proportion
/// to the rectangle's pixels.
///
/// # Errors
///
/// `NoMemory` if memory runs out.
pub fn solid_patch(
    alloc: Global,
    format: Format,
    samples: &[u32],
    out: Rect,
) -> Result<Patch, NoMemory>
    requires count { length samples.now ≡ channels format }
    requires each { All (IsSampleOf format) samples.now }
    requires limits { InLimits out }
    ensures { IfOk result (λ patch. patch ≡ image_from_fn out format (λ u v. slice_index samples.now)) }
{
    let pixel = raw_pixel(alloc, format, samples)?;
    let one = Patch::from_vec(Rect::spanning(0, 0, 1, 1), format, pixel);
    fetch(alloc, &one, Abyss::Clamp, out)
}
