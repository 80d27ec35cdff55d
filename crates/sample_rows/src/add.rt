//! Adding rows.

ghost use Rattle.std.specs.Prelude.{◌≡◌, ℕ, ◌%◌, length};
ghost use Rattle.pixel_formats.specs.Add.{added, added_pixel};
ghost use Rattle.pixel_formats.specs.Row.{HasPixels, pixel_at};
ghost use Rattle.pixel_formats.specs.Format.{pixel_bytes};

use crate::combine::{Combine, combine_rows};
use pixel_formats::Format;
use simd_samples::Lanes;

/// The sum of two samples, at most the largest.
#[derive(Clone, Copy)]
struct Add;

impl Combine for Add {
    ghost combined = { λ s. added };

    #[inline(always)]
    fn combine<L: Lanes>(&self, a: L, b: L) -> L {
        a.saturating_add(b)
    }
}

/// Writes to `dst` the sums of the samples of two rows. A sum above the largest sample becomes
/// the largest sample.
pub fn row_add(f: Format, a: &[u8], b: &[u8], dst: &mut [u8])
    requires whole { length a.now % pixel_bytes f ≡ 0 }
    requires same_length { length b.now ≡ length a.now }
    requires written_length { length dst.old ≡ length a.now }
    ensures { HasPixels f dst.new (λ k. added_pixel f (pixel_at f a.now k) (pixel_at f b.now k)) }
{
    combine_rows(f, Add, a, b, dst);
}
