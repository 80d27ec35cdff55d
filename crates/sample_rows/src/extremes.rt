//! The smaller and the greater of two rows' samples.

ghost use Rattle.std.specs.Prelude.{◌≡◌, ℕ, ◌%◌, length, min, max};
ghost use Rattle.pixel_formats.specs.Extremes.{min_pixel, max_pixel};
ghost use Rattle.pixel_formats.specs.Row.{HasPixels, pixel_at};
ghost use Rattle.pixel_formats.specs.Format.{pixel_bytes};

use crate::combine::{Combine, combine_rows};
use pixel_formats::Format;
use simd_samples::Lanes;

/// The smaller of two samples.
#[derive(Clone, Copy)]
struct Minimum;

impl Combine for Minimum {
    ghost combined = { λ s max_sample. min };

    #[inline(always)]
    fn combine<L: Lanes>(&self, a: L, b: L) -> L {
        a.min(b)
    }
}

/// The greater of two samples.
#[derive(Clone, Copy)]
struct Maximum;

impl Combine for Maximum {
    ghost combined = { λ s max_sample. max };

    #[inline(always)]
    fn combine<L: Lanes>(&self, a: L, b: L) -> L {
        a.max(b)
    }
}

/// Writes to `dst` the smaller of each two samples of two rows.
pub fn row_min(f: Format, a: &[u8], b: &[u8], dst: &mut [u8])
    requires whole { length a.now % pixel_bytes f ≡ 0 }
    requires same_length { length b.now ≡ length a.now }
    requires written_length { length dst.old ≡ length a.now }
    ensures { HasPixels f dst.new (λ k. min_pixel (pixel_at f a.now k) (pixel_at f b.now k)) }
{
    combine_rows(f, Minimum, a, b, dst);
}

/// Writes to `dst` the greater of each two samples of two rows.
pub fn row_max(f: Format, a: &[u8], b: &[u8], dst: &mut [u8])
    requires whole { length a.now % pixel_bytes f ≡ 0 }
    requires same_length { length b.now ≡ length a.now }
    requires written_length { length dst.old ≡ length a.now }
    ensures { HasPixels f dst.new (λ k. max_pixel (pixel_at f a.now k) (pixel_at f b.now k)) }
{
    combine_rows(f, Maximum, a, b, dst);
}
