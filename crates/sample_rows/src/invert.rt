//! Inverting colors.

ghost use Rattle.std.specs.Prelude.{◌≡◌, ℕ, ◌%◌, length};
ghost use Rattle.pixel_formats.specs.Invert.{inverted, inverted_pixel};
ghost use Rattle.pixel_formats.specs.Row.{HasPixels, pixel_at};
ghost use Rattle.pixel_formats.specs.Format.{pixel_bytes};

use crate::depths::{Depth, depth_of};
use crate::recolor::{Recolor, recolor_row};
use pixel_formats::Format;
use simd_pixels::Layout;
use simd_samples::{ByteLanes, Lanes, LongLanes, WordLanes};

/// Counts each color down from its cap.
#[derive(Clone, Copy)]
struct Invert;

impl<L: Lanes> Recolor<L> for Invert {
    ghost change = { λ s. inverted };

    #[inline(always)]
    fn recolor<P: Layout>(&self, samples: L) -> L {
        let inverted = P::caps(samples).saturating_sub(samples);
        P::with_alpha(inverted, samples)
    }
}

/// Writes the row `src` to `dst` with each color subtracted from its cap, which is the pixel's
/// alpha or, in a format without alpha, the largest sample. A color above its cap becomes 0.
/// Alpha stays.
pub fn row_invert(f: Format, src: &[u8], dst: &mut [u8])
    requires whole { length src.now % pixel_bytes f ≡ 0 }
    requires same_length { length dst.old ≡ length src.now }
    ensures { HasPixels f dst.new (λ k. inverted_pixel f (pixel_at f src.now k)) }
{
    match depth_of(f) {
        Depth::Byte => recolor_row::<ByteLanes, Invert>(f, Invert, src, dst),
        Depth::Word => recolor_row::<WordLanes, Invert>(f, Invert, src, dst),
        Depth::Long => recolor_row::<LongLanes, Invert>(f, Invert, src, dst),
    }
}
