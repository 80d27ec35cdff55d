//! Combining two rows sample by sample.

ghost use Rattle.std.specs.Prelude.{◌≡◌, ℕ, ◌*◌, ◌/◌, ◌%◌, ◌<◌, ◌≤◌, length, refl};
ghost use Rattle.pixel_formats.specs.Format.{depth, max_sample, max_sample_of, pixel_bytes};
ghost use Rattle.pixel_formats.specs.Row.{HasPixels, pixel_at};
ghost use Rattle.sample_rows.specs.Groups.{MapsPairs, SameGroups, groups};
ghost use Rattle.simd_samples.specs.Lanes.{Hold};

use crate::depths::{Depth, depth_of};
use crate::vectors::{VectorKernel, transform_vectors};
use pixel_formats::Format;
use simd_samples::{ByteLanes, Lanes, LongLanes, WordLanes};

/// What two samples become.
pub(crate) trait Combine: Copy {
    /// What two samples become, where the largest sample is given.
    ghost combined: { Self → ℕ → ℕ → ℕ → ℕ };

    /// Combines sixteen samples with sixteen others.
    fn combine<L: Lanes>(&self, a: L, b: L) -> L
        ensures { Hold (L.lane result) (λ j. combined self.now (max_sample_of L.depth) (L.lane a j) (L.lane b j)) };
}

/// A combination of samples as a kernel over vectors.
#[derive(Clone, Copy)]
struct Combining<K>(K);

impl<L: Lanes, K: Combine> VectorKernel<L> for Combining<K> {
    ghost value = { λ s a b i. K.combined s.0 (max_sample_of L.depth) (a i) (b i) };

    ghost size = { 1 };

    ghost count = { 16 };

    #[inline(always)]
    fn vector(&self, a: L, b: L) -> L {
        self.0.combine(a, b)
    }

    ghost sixteen = { refl };

    ghost value_of_groups = { λ s a b c d same same_second i within t.
        K.combined s.0 (max_sample_of L.depth) (same i within t) (same_second i within t) };
}

/// Writes to `dst` what the samples of two rows become.
pub(crate) fn combine_rows<K: Combine>(
    f: Format,
    combination: K,
    a: &[u8],
    b: &[u8],
    dst: &mut [u8],
)
    requires whole { length a.now % pixel_bytes f ≡ 0 }
    requires same_length { length b.now ≡ length a.now }
    requires written_length { length dst.old ≡ length a.now }
    ensures { HasPixels f dst.new (λ k channel. K.combined combination (max_sample f) (pixel_at f a.now k channel) (pixel_at f b.now k channel)) }
{
    match depth_of(f) {
        Depth::Byte => combine_samples::<ByteLanes, K>(f, combination, a, b, dst),
        Depth::Word => combine_samples::<WordLanes, K>(f, combination, a, b, dst),
        Depth::Long => combine_samples::<LongLanes, K>(f, combination, a, b, dst),
    }
}

fn combine_samples<L: Lanes, K: Combine>(
    f: Format,
    combination: K,
    a: &[u8],
    b: &[u8],
    dst: &mut [u8],
)
    requires depth { depth f ≡ L.depth }
    requires whole { length a.now % pixel_bytes f ≡ 0 }
    requires same_length { length b.now ≡ length a.now }
    requires written_length { length dst.old ≡ length a.now }
    ensures { HasPixels f dst.new (λ k channel. K.combined combination (max_sample f) (pixel_at f a.now k channel) (pixel_at f b.now k channel)) }
{
    transform_vectors::<L, Combining<K>>(Combining(combination), a, b, dst);
}
