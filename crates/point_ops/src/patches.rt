//! Patches of raw bytes.

ghost use Rattle.std.specs.Prelude.{◌≡◌, ◌^◌, ◌≤◌, IfOk, length};
ghost use Rattle.plane_rect.specs.Rectangle.{InLimits, area};
ghost use Rattle.model_images.specs.FromRaw.{byte_count, image_from_raw};

use alloc_basics::NoMemory;
use patch_abyss::Patch;
use pixel_formats::Format;
use plane_rect::Rect;
use std::alloc::Global;

/// Returns how many pixels a rectangle has.
pub(crate) fn pixel_count(rect: &Rect) -> usize
    requires { InLimits rect.now }
    ensures value { result ≡ area rect.now }
    ensures few { result ≤ 2 ^ 25 }
{
    rect.area() as usize
}

/// Returns the patch of a copy of a rectangle's raw bytes.
///
/// # Errors
///
/// `NoMemory` if memory runs out.
pub(crate) fn patch_of_slice(
    alloc: Global,
    rect: Rect,
    format: Format,
    bytes: &[u8],
) -> Result<Patch, NoMemory>
    requires limits { InLimits rect }
    requires count { length bytes.now ≡ byte_count rect format }
    ensures { IfOk result (λ patch. patch ≡ image_from_raw rect format bytes.now) }
{
    Patch::from_raw(alloc, rect, format, bytes).map_err(|_| NoMemory)
}
