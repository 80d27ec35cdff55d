//! Changing each color of a row under its cap.

ghost use Rattle.std.specs.Prelude.{◌≡◌, ℕ, ◌+◌, ◌*◌, ◌/◌, ◌%◌, ◌<◌, length, if◌then◌else◌};
ghost use Rattle.sample_rows.specs.SizeLaws.{twice_some, two_vectors_blocks};
ghost use Rattle.sample_rows.specs.Groups.{Maps, SameGroups, groups};
ghost use Rattle.pixel_formats.specs.Format.{depth, max_sample_of, pixel_bytes};
ghost use Rattle.pixel_formats.specs.Row.{HasPixels, pixel_at};
ghost use Rattle.pixel_formats.specs.Recolor.{recolored};

use crate::blocks::{RowKernel, transform_row};
use pixel_formats::Format;
use simd_pixels::{AlphaOfFour, AlphaOfTwo, Layout, Opaque};
use simd_samples::{Lanes, load_two, store_two};
use std::marker::PhantomData;

/// A change of colors, each by itself.
pub(crate) trait Recolor<L: Lanes>: Copy {
    /// What a color becomes, by its cap and itself.
    ghost change: { Self → ℕ → ℕ → ℕ };

    /// Changes the colors of a vector of pixels, each under its pixel's cap. Alpha stays.
    fn recolor<P: Layout>(&self, samples: L) -> L
        ensures { (k i : ℕ) → k < P.pixels → i < P.channels → L.lane result (k * P.channels + i)
            ≡ (if P.is_alpha i then L.lane samples (k * P.channels + i)
            else change self.now (P.cap (max_sample_of L.depth) (λ c. L.lane samples (k * P.channels + c))) (L.lane samples (k * P.channels + i))) };
}

/// A change of colors as a kernel over pixels of a layout.
#[derive(Clone, Copy)]
struct Recoloring<L, P, K> {
    change: K,
    of: PhantomData<(L, P)>,
}

impl<L: Lanes, P: Layout, K: Recolor<L>> RowKernel for Recoloring<L, P, K> {
    ghost value = { λ s pixel i. if P.is_alpha i then pixel i else K.change s.change (P.cap (max_sample_of L.depth) pixel) (pixel i) };

    ghost from = { groups P.channels L.depth };

    ghost to = { groups P.channels L.depth };

    ghost count = { 2 * P.pixels };

    ghost READ = { 2 * L.BYTES };

    ghost WRITTEN = { 2 * L.BYTES };

    const READ: usize = 2 * L::BYTES;

    const WRITTEN: usize = 2 * L::BYTES;

    #[inline(always)]
    fn block(&self, src: &[u8], dst: &mut [u8]) {
        // Both vectors are read before one is written, which goes faster than one after the other.
        let (first, second) = load_two::<L>(src);
        let changed = self.change.recolor::<P>(first);
        let next = self.change.recolor::<P>(second);
        store_two(changed, next, dst);
    }

    ghost some_groups = { twice_some P.pixels P.some_pixels };

    ghost read_blocks = { two_vectors_blocks L.BYTES L.depth L.sixteen L.few L.some_depth P.pixels P.channels P.sixteen };

    ghost written_blocks = { two_vectors_blocks L.BYTES L.depth L.sixteen L.few L.some_depth P.pixels P.channels P.sixteen };
}

/// Writes the row `src` to `dst` with each color changed under its cap.
pub(crate) fn recolor_row<L: Lanes, K: Recolor<L>>(f: Format, change: K, src: &[u8], dst: &mut [u8])
    requires depth { depth f ≡ L.depth }
    requires whole { length src.now % pixel_bytes f ≡ 0 }
    requires same_length { length dst.old ≡ length src.now }
    ensures { HasPixels f dst.new (λ k. recolored f (K.change change) (pixel_at f src.now k)) }
{
    match f.channels() {
        2 => recolor_pixels::<L, AlphaOfTwo, K>(change, src, dst),
        4 => recolor_pixels::<L, AlphaOfFour, K>(change, src, dst),
        _ => recolor_pixels::<L, Opaque, K>(change, src, dst),
    }
}

fn recolor_pixels<L: Lanes, P: Layout, K: Recolor<L>>(change: K, src: &[u8], dst: &mut [u8])
    requires { SameGroups (groups P.channels L.depth) (groups P.channels L.depth) src.now dst.old }
    ensures { Maps (groups P.channels L.depth) (groups P.channels L.depth) (length dst.new / (P.channels * L.depth))
        (λ pixel i. if P.is_alpha i then pixel i else K.change change (P.cap (max_sample_of L.depth) pixel) (pixel i)) src.now dst.new }
{
    let kernel = Recoloring::<L, P, K> {
        change,
        of: PhantomData,
    };
    transform_row(kernel, src, dst);
}
