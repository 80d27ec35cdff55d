//! Thresholds.

ghost use Rattle.std.specs.Prelude.{◌≡◌, ℕ, ◌%◌, length, min};
ghost use Rattle.pixel_formats.specs.Format.{max_sample_of, pixel_bytes};
ghost use Rattle.pixel_formats.specs.Row.{HasPixels, pixel_at};
ghost use Rattle.pixel_formats.specs.Threshold.{thresholded, thresholded_pixel};
ghost use Rattle.pixel_formats.specs.Recolor.{recolored};

use crate::depths::{Depth, depth_of};
use crate::recolor::{Recolor, recolor_row};
use pixel_formats::Format;
use simd_pixels::Layout;
use simd_samples::{ByteLanes, Lanes, LongLanes, WordLanes};

/// Puts each color at its cap where it reaches the threshold, and else at 0.
#[derive(Clone, Copy)]
struct Threshold {
    at: u32,
}

impl<L: Lanes> Recolor<L> for Threshold {
    ghost change = { λ s. thresholded (min (max_sample_of L.depth) s.at) };

    #[inline(always)]
    fn recolor<P: Layout>(&self, samples: L) -> L {
        // Alpha is its own cap, so that a threshold of 0 leaves it as it is.
        let none = L::splat(0);
        let thresholds = P::with_alpha(L::splat(self.at), none);
        P::caps(samples).threshold(samples, thresholds)
    }
}

/// Puts each color at 0.
#[derive(Clone, Copy)]
struct Clear;

impl<L: Lanes> Recolor<L> for Clear {
    ghost change = { λ s cap color. 0 };

    #[inline(always)]
    fn recolor<P: Layout>(&self, samples: L) -> L {
        let none = L::splat(0);
        P::with_alpha(none, samples)
    }
}

/// Writes the row `src` to `dst` with each color that is at least `at` at its cap, which is the
/// pixel's alpha or, in a format without alpha, the largest sample, and with the others at 0.
/// Alpha stays.
pub fn row_threshold(f: Format, at: u32, src: &[u8], dst: &mut [u8])
    requires whole { length src.now % pixel_bytes f ≡ 0 }
    requires same_length { length dst.old ≡ length src.now }
    ensures { HasPixels f dst.new (λ k. thresholded_pixel f at (pixel_at f src.now k)) }
{
    if at > f.max() {
        // No color reaches such a threshold.
        return clear_row(f, src, dst);
    }
    let change = Threshold { at };
    match depth_of(f) {
        Depth::Byte => recolor_row::<ByteLanes, Threshold>(f, change, src, dst),
        Depth::Word => recolor_row::<WordLanes, Threshold>(f, change, src, dst),
        Depth::Long => recolor_row::<LongLanes, Threshold>(f, change, src, dst),
    }
}

fn clear_row(f: Format, src: &[u8], dst: &mut [u8])
    requires whole { length src.now % pixel_bytes f ≡ 0 }
    requires same_length { length dst.old ≡ length src.now }
    ensures { HasPixels f dst.new (λ k. recolored f (λ cap color. 0) (pixel_at f src.now k)) }
{
    match depth_of(f) {
        Depth::Byte => recolor_row::<ByteLanes, Clear>(f, Clear, src, dst),
        Depth::Word => recolor_row::<WordLanes, Clear>(f, Clear, src, dst),
        Depth::Long => recolor_row::<LongLanes, Clear>(f, Clear, src, dst),
    }
}
