//! Why writes to buffers are refused, by the shapes of the buffers.

ghost use Rattle.std.specs.Prelude.{◌≡◌, IfErr, IfOk, None, Ok, Some, nat_le};
ghost use Rattle.std.specs.List.{list_all};
ghost use Rattle.plane_rect.specs.Rectangle.{shifted};
ghost use Rattle.pixel_formats.specs.Format.{same_format};
ghost use Rattle.model_images.specs.FromRaw.{byte_count};
ghost use Rattle.model_buffers.specs.BufferEdit.{copy_refused, fill_refused, is_pixel, put_refused};
ghost use Rattle.buffer_layouts.specs.Views.{seen_shape};

use crate::views::RootView;
use model_buffers::EditRefused;
use pixel_formats::Format;
use plane_rect::Rect;

/// Returns why a rectangle of a buffer is not filled with a pixel, or None where it is: `OutOfBounds` where
/// the buffer lacks one of its positions, and else `Formats` where the samples are no pixel of its format.
pub(crate) fn fill_refused(view: &RootView, rect: &Rect, samples: &[u32]) -> Option<EditRefused>
    ensures { result ≡ fill_refused (seen_shape view.now) rect.now samples.now }
{
    if !view.extent.contains(rect) {
        return Some(EditRefused::OutOfBounds);
    }
    if !is_pixel(view.format, samples) {
        return Some(EditRefused::Formats);
    }
    None
}

/// Returns whether samples are as many as the channels of a format, none above its maximum.
fn is_pixel(format: Format, samples: &[u32]) -> bool
    ensures { result ≡ is_pixel format samples.now }
{
    samples.len() == format.channels() as usize && are_at_most(samples, format.max())
}

/// Returns whether no sample is above a maximum.
fn are_at_most(samples: &[u32], max: u32) -> bool
    ensures { result ≡ list_all (λ sample. nat_le sample max) samples.now }
{
    samples.iter().all(|sample| *sample <= max)
}

/// Returns why raw bytes are not put over a rectangle of a buffer, or None where they are: `OutOfBounds` where
/// the buffer lacks one of its positions, and else `WrongSize` where there are more or fewer bytes than these
/// have.
pub(crate) fn put_refused(view: &RootView, rect: &Rect, bytes: &[u8]) -> Option<EditRefused>
    ensures { result ≡ put_refused (seen_shape view.now) rect.now bytes.now }
{
    if !view.extent.contains(rect) {
        return Some(EditRefused::OutOfBounds);
    }
    let found = bytes.len() as u64;
    let wanted = byte_count(rect, view.format);
    if found != wanted {
        return Some(EditRefused::WrongSize { found, wanted });
    }
    None
}

/// Returns how many raw bytes a rectangle has.
fn byte_count(rect: &Rect, format: Format) -> u64
    ensures { result ≡ byte_count rect.now format }
{
    rect.area() * u64::from(format.pixel_bytes())
}

/// Returns the rectangle that a copy writes, by what its buffers show.
///
/// # Errors
///
/// `OutOfBounds` where the source lacks a position of the rectangle, or the target one of the moved rectangle,
/// or the moved rectangle is none of the plane, and else `Formats` where the formats differ.
pub(crate) fn moved_part(
    source: &RootView,
    target: &RootView,
    rect: &Rect,
    dx: i64,
    dy: i64,
) -> Result<Rect, EditRefused>
    ensures carried_out { IfOk result (λ _.
        copy_refused (seen_shape source.now) (seen_shape target.now) rect.now (shifted dx dy rect.now) ≡ None) }
    ensures moved { IfOk result (λ moved. shifted dx dy rect.now ≡ Ok moved) }
    ensures refused { IfErr result (λ cause.
        copy_refused (seen_shape source.now) (seen_shape target.now) rect.now (shifted dx dy rect.now) ≡ Some cause) }
{
    if !source.extent.contains(rect) {
        return Err(EditRefused::OutOfBounds);
    }
    let Ok(moved) = rect.shift(dx, dy) else {
        return Err(EditRefused::OutOfBounds);
    };
    if !target.extent.contains(&moved) {
        return Err(EditRefused::OutOfBounds);
    }
    if !is_same(source.format, target.format) {
        return Err(EditRefused::Formats);
    }
    Ok(moved)
}

/// Returns whether two formats are one.
fn is_same(a: Format, b: Format) -> bool
    ensures { result ≡ same_format a b }
{
    a == b
}
