//! Checkerboards.

ghost use Rattle.std.specs.Prelude.{◌≡◌, ℕ, ◌-◌, ◌%◌, ◌<◌, ◌≤◌, ◌==◌, All, IfOk, length, map};
ghost use Rattle.std.specs.List.{flat_map, range_with_len};
ghost use Rattle.plane_rect.specs.Rectangle.{InLimits};
ghost use Rattle.pixel_formats.specs.Format.{channels, pixel_bytes};
ghost use Rattle.pixel_formats.specs.Row.{pixel_at};
ghost use Rattle.model_images.specs.Image.{image_from_fn};
ghost use Rattle.model_operations.specs.Values.{checker_pixel, square_number};
ghost use Rattle.point_ops.specs.Generated.{IsCheckerboard, by_square, opaque_pixel};
ghost use Rattle.patch_abyss.specs.Samples.{IsSampleOf};

use alloc_basics::NoMemory;
use patch_abyss::{Patch, raw_pixel};
use pixel_formats::Format;
use plane_rect::{PLANE_ORIGIN, Rect};
use std::alloc::Global;
use std::ops::Range;

/// Returns the patch of squares of `size` pixels a side: from the origin on, the colors are `v1` where
/// the sum of a square's two numbers is even and else `v2`, and alpha is full. Takes time in
/// proportion to the rectangle's pixels.
///
/// # Errors
///
/// `NoMemory` if memory runs out.
pub(crate) fn checker_part(
    alloc: Global,
    format: Format,
    size: u32,
    v1: u32,
    v2: u32,
    out: Rect,
) -> Result<Patch, NoMemory>
    requires size { 0 < size }
    requires first { IsSampleOf format v1 }
    requires second { IsSampleOf format v2 }
    requires limits { InLimits out }
    ensures { IfOk result (λ patch. patch ≡ image_from_fn out format (checker_pixel format size v1 v2)) }
{
    let bytes = checker_bytes(alloc, format, size, v1, v2, &out)?;
    Ok(Patch::from_vec(out, format, bytes))
}

/// Returns the raw bytes of the squares over a rectangle.
fn checker_bytes(
    alloc: Global,
    format: Format,
    size: u32,
    v1: u32,
    v2: u32,
    out: &Rect,
) -> Result<Vec<u8>, NoMemory>
    requires size { 0 < size }
    requires first { IsSampleOf format v1 }
    requires second { IsSampleOf format v2 }
    ensures { IfOk result (λ bytes. IsCheckerboard format size v1 v2 out.now bytes.items) }
{
    let (first, second) = (
        raw_opaque(alloc, format, v1)?,
        raw_opaque(alloc, format, v2)?,
    );
    let (start, end) = (out.first_column(), out.end_column());
    let even = alternated(alloc, size, &first, &second, start..end)?;
    let odd = alternated(alloc, size, &second, &first, start..end)?;
    alternated(alloc, size, &even, &odd, out.first_row()..out.end_row())
}

/// Returns bytes for each of some columns, or rows: `even` where its square has an even number, and
/// else `odd`, one after the other.
fn alternated(
    alloc: Global,
    size: u32,
    even: &[u8],
    odd: &[u8],
    indices: Range<u32>,
) -> Result<Vec<u8>, NoMemory>
    requires size { 0 < size }
    requires indices { indices.start ≤ indices.end }
    ensures { IfOk result (λ bytes. bytes.items ≡ flat_map (by_square size even.now odd.now)
        (range_with_len indices.start (indices.end - indices.start))) }
{
    let mut bytes = Vec::new(alloc);
    for index in indices.start..indices.end {
        bytes.extend_from_slice(if is_even(size, index) { even } else { odd })?;
    }
    Ok(bytes)
}

/// Returns whether the square of a column, or of a row, has an even number.
fn is_even(size: u32, index: u32) -> bool
    requires { 0 < size }
    ensures { result ≡ (square_number size index % 2 == 0) }
{
    let origin = u64::from(PLANE_ORIGIN);
    let size = u64::from(size);
    (u64::from(index) + origin * size - origin) / size % 2 == 0
}

/// Returns the raw bytes of a pixel whose colors are one value, and whose alpha is full.
fn raw_opaque(alloc: Global, format: Format, value: u32) -> Result<Vec<u8>, NoMemory>
    requires { IsSampleOf format value }
    ensures count { IfOk result (λ bytes. length bytes.items ≡ pixel_bytes format) }
    ensures pixel { IfOk result (λ bytes. (c : ℕ) → c < channels format → pixel_at format bytes.items 0 c ≡ opaque_pixel format value c) }
{
    let samples = opaque_samples(alloc, format, value)?;
    raw_pixel(alloc, format, &samples)
}

/// Returns the samples of a pixel whose colors are one value, and whose alpha is full.
fn opaque_samples(alloc: Global, format: Format, value: u32) -> Result<Vec<u32>, NoMemory>
    requires { IsSampleOf format value }
    ensures samples { IfOk result (λ samples. samples.items ≡ map (opaque_pixel format value) (range_with_len 0 (channels format))) }
    ensures each { IfOk result (λ samples. All (IsSampleOf format) samples.items) }
{
    let mut samples = Vec::new(alloc);
    for channel in 0..format.channels() {
        samples.push(opaque_sample(format, value, channel))?;
    }
    Ok(samples)
}

/// Returns the sample of a channel of such a pixel.
fn opaque_sample(format: Format, value: u32, channel: u32) -> u32
    requires value { IsSampleOf format value }
    requires channel { channel < channels format }
    ensures value { result ≡ opaque_pixel format value channel }
    ensures sample { IsSampleOf format result }
{
    if format.has_alpha() && channel + 1 == format.channels() {
        format.max()
    } else {
        value
    }
}
