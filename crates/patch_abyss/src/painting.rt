//! Raw bytes of a rectangle, painted with those of another.

ghost use Rattle.std.specs.Prelude.{◌≡◌, length};
ghost use Rattle.model_images.specs.FromRaw.{AreBytes, byte_count, image_from_raw};
ghost use Rattle.model_images.specs.Paint.{put_raw};

use crate::rows::copy_meet;
use pixel_formats::Format;
use plane_rect::Rect;

/// Copies the pixels of the raw bytes of one rectangle into those of another, at the positions that are in
/// both. Takes time in proportion to these positions, and no memory.
pub fn paint_raw(format: Format, to: &mut [u8], to_rect: &Rect, from: &[u8], from_rect: &Rect)
    requires to { length to.old ≡ byte_count to_rect.now format }
    requires from { length from.now ≡ byte_count from_rect.now format }
    ensures len { length to.new ≡ length to.old }
    ensures small { AreBytes to.new }
    ensures painted { image_from_raw to_rect.now format to.new
        ≡ put_raw (image_from_raw to_rect.now format to.old) from_rect.now from.now }
{
    copy_meet(to, to_rect, from, from_rect, format.pixel_bytes() as usize);
}
