//! Sixteen pixels as planes, with a vector for each channel.

ghost use Rattle.std.specs.Prelude.{◌≡◌, ℕ, ◌+◌, ◌*◌, ◌<◌, ◌≤◌, length, slice_index, refl};
ghost use Rattle.std.proofs.Common.{rules};
ghost use Rattle.pixel_formats.specs.Blend.{blended};
ghost use Rattle.pixel_formats.specs.Sample.{max_sample_of, sample_at, scaled_by};
ghost use Rattle.simd_samples.specs.Lanes.{Hold};
ghost use Rattle.simd_pixels.specs.Planes.{PlaneSizes, of_one, of_two, of_three, of_four};

use simd_samples::{
    Lanes, load_at, load_four, load_three, load_two, store_four, store_three, store_two,
};

/// The planes of sixteen pixels: a vector for each channel, with a pixel's samples in one lane.
pub trait Planes<L: Lanes>: Copy {
    /// How many channels a pixel has.
    ghost channels: { ℕ };

    /// The sample in a channel of a pixel.
    ghost sample: { Self → ℕ → ℕ → ℕ };

    ghost BYTES: { ℕ };

    /// The bytes of the sixteen pixels.
    const BYTES: usize;

    /// Returns the first sixteen pixels of a row of bytes.
    fn load(src: &[u8]) -> Self
        requires { BYTES ≤ length src.now }
        ensures { (k i : ℕ) → k < 16 → i < channels → sample result i k ≡ sample_at L.depth src.now (k * channels + i) };

    /// Writes the first sixteen pixels of a row of bytes, and leaves those after them.
    fn store(self, dst: &mut [u8])
        requires { BYTES ≤ length dst.old }
        ensures here { (k i : ℕ) → k < 16 → i < channels → sample_at L.depth dst.new (k * channels + i) ≡ sample self i k }
        ensures after { (k : ℕ) → BYTES ≤ k → slice_index dst.new k ≡ slice_index dst.old k };

    /// Returns the part of each sample that its pixel's weight leaves, rounded to the nearest.
    fn scale_by(self, weights: L) -> Self
        ensures { (k i : ℕ) → k < 16 → i < channels → sample result i k ≡ scaled_by (max_sample_of L.depth) (sample self i k) (L.lane weights k) };

    /// Writes the first sixteen pixels of a row of bytes: the pixels of `base` mixed with those of
    /// `made`, each by its weight, rounded to the nearest.
    fn blend(base: &[u8], made: &[u8], weights: L, dst: &mut [u8])
        requires base { BYTES ≤ length base.now }
        requires made { BYTES ≤ length made.now }
        requires written { BYTES ≤ length dst.old }
        ensures { (k i : ℕ) → k < 16 → i < channels → sample_at L.depth dst.new (k * channels + i)
            ≡ blended (max_sample_of L.depth) (sample_at L.depth base.now (k * channels + i)) (sample_at L.depth made.now (k * channels + i)) (L.lane weights k) };

    /// Each channel has a plane.
    ghost sizes: { PlaneSizes channels L.BYTES BYTES };
}

/// Returns sixteen samples of a row of bytes, from sample `from` on, mixed with those of another.
#[inline(always)]
fn blend_at<L: Lanes>(base: &[u8], made: &[u8], from: usize, weights: L) -> L
    requires base { L.depth * (from + 16) ≤ length base.now }
    requires made { L.depth * (from + 16) ≤ length made.now }
    ensures { Hold (L.lane result) (λ j. blended (max_sample_of L.depth) (sample_at L.depth base.now (from + j)) (sample_at L.depth made.now (from + j)) (L.lane weights j)) }
{
    load_at::<L>(base, from).blend(load_at(made, from), weights)
}

/// Pixels of one sample.
#[derive(Clone, Copy)]
pub struct Gray<L> {
    pub(crate) gray: L,
}

impl<L: Lanes> Planes<L> for Gray<L> {
    ghost channels = { 1 };

    ghost sample = { λ s. of_one (L.lane s.gray) };

    ghost BYTES = { L.BYTES };

    const BYTES: usize = L::BYTES;

    #[inline(always)]
    fn load(src: &[u8]) -> Self {
        Gray { gray: L::load(src) }
    }

    #[inline(always)]
    fn store(self, dst: &mut [u8]) {
        self.gray.store(dst);
    }

    #[inline(always)]
    fn scale_by(self, weights: L) -> Self {
        Gray {
            gray: self.gray.scale_by(weights),
        }
    }

    #[inline(always)]
    fn blend(base: &[u8], made: &[u8], weights: L, dst: &mut [u8]) {
        blend_at(base, made, 0, weights).store(dst);
    }

    ghost sizes = { record { some_channels = Prim.search rules; few_channels = Prim.search rules; whole = Prim.search rules } };
}

/// Pixels of gray and alpha.
#[derive(Clone, Copy)]
pub struct GrayAlpha<L> {
    pub(crate) gray: L,
    pub(crate) alpha: L,
}

impl<L: Lanes> Planes<L> for GrayAlpha<L> {
    ghost channels = { 2 };

    ghost sample = { λ s. of_two (L.lane s.gray) (L.lane s.alpha) };

    ghost BYTES = { 2 * L.BYTES };

    const BYTES: usize = 2 * L::BYTES;

    #[inline(always)]
    fn load(src: &[u8]) -> Self {
        let (first, second) = load_two::<L>(src);
        let (gray, alpha) = first.deinterleave(second);
        GrayAlpha { gray, alpha }
    }

    #[inline(always)]
    fn store(self, dst: &mut [u8]) {
        let (first, second) = self.gray.interleave(self.alpha);
        store_two(first, second, dst);
    }

    #[inline(always)]
    fn scale_by(self, weights: L) -> Self {
        GrayAlpha {
            gray: self.gray.scale_by(weights),
            alpha: self.alpha.scale_by(weights),
        }
    }

    #[inline(always)]
    fn blend(base: &[u8], made: &[u8], weights: L, dst: &mut [u8]) {
        let (low, high) = weights.interleave(weights);
        let first = blend_at(base, made, 0, low);
        let second = blend_at(base, made, 16, high);
        store_two(first, second, dst);
    }

    ghost sizes = { record { some_channels = Prim.search rules; few_channels = Prim.search rules; whole = refl } };
}

/// Pixels of three colors.
#[derive(Clone, Copy)]
pub struct Colors<L> {
    pub(crate) red: L,
    pub(crate) green: L,
    pub(crate) blue: L,
}

impl<L: Lanes> Planes<L> for Colors<L> {
    ghost channels = { 3 };

    ghost sample = { λ s. of_three (L.lane s.red) (L.lane s.green) (L.lane s.blue) };

    ghost BYTES = { 3 * L.BYTES };

    const BYTES: usize = 3 * L::BYTES;

    #[inline(always)]
    fn load(src: &[u8]) -> Self {
        let (first, second, third) = load_three::<L>(src, 0);
        let (red, green, blue) = first.split_thirds(second, third);
        Colors { red, green, blue }
    }

    #[inline(always)]
    fn store(self, dst: &mut [u8]) {
        let (first, second, third) = self.red.join_thirds(self.green, self.blue);
        store_three(first, second, third, dst);
    }

    #[inline(always)]
    fn scale_by(self, weights: L) -> Self {
        Colors {
            red: self.red.scale_by(weights),
            green: self.green.scale_by(weights),
            blue: self.blue.scale_by(weights),
        }
    }

    #[inline(always)]
    fn blend(base: &[u8], made: &[u8], weights: L, dst: &mut [u8]) {
        let (low, middle, high) = weights.join_thirds(weights, weights);
        let first = blend_at(base, made, 0, low);
        let second = blend_at(base, made, 16, middle);
        let third = blend_at(base, made, 32, high);
        store_three(first, second, third, dst);
    }

    ghost sizes = { record { some_channels = Prim.search rules; few_channels = Prim.search rules; whole = refl } };
}

/// Pixels of three colors and alpha.
#[derive(Clone, Copy)]
pub struct ColorsAlpha<L> {
    pub(crate) red: L,
    pub(crate) green: L,
    pub(crate) blue: L,
    pub(crate) alpha: L,
}

impl<L: Lanes> Planes<L> for ColorsAlpha<L> {
    ghost channels = { 4 };

    ghost sample = { λ s. of_four (L.lane s.red) (L.lane s.green) (L.lane s.blue) (L.lane s.alpha) };

    ghost BYTES = { 4 * L.BYTES };

    const BYTES: usize = 4 * L::BYTES;

    #[inline(always)]
    fn load(src: &[u8]) -> Self {
        let (first, second, third, fourth) = load_four::<L>(src);
        let (even, odd) = first.deinterleave(second);
        let (next_even, next_odd) = third.deinterleave(fourth);
        let (red, blue) = even.deinterleave(next_even);
        let (green, alpha) = odd.deinterleave(next_odd);
        ColorsAlpha {
            red,
            green,
            blue,
            alpha,
        }
    }

    #[inline(always)]
    fn store(self, dst: &mut [u8]) {
        let (even, next_even) = self.red.interleave(self.blue);
        let (odd, next_odd) = self.green.interleave(self.alpha);
        let (first, second) = even.interleave(odd);
        let (third, fourth) = next_even.interleave(next_odd);
        store_four(first, second, third, fourth, dst);
    }

    #[inline(always)]
    fn scale_by(self, weights: L) -> Self {
        ColorsAlpha {
            red: self.red.scale_by(weights),
            green: self.green.scale_by(weights),
            blue: self.blue.scale_by(weights),
            alpha: self.alpha.scale_by(weights),
        }
    }

    #[inline(always)]
    fn blend(base: &[u8], made: &[u8], weights: L, dst: &mut [u8]) {
        let (low, high) = weights.interleave(weights);
        let (lowest, lower) = low.interleave(low);
        let (higher, highest) = high.interleave(high);
        let first = blend_at(base, made, 0, lowest);
        let second = blend_at(base, made, 16, lower);
        let third = blend_at(base, made, 32, higher);
        let fourth = blend_at(base, made, 48, highest);
        store_four(first, second, third, fourth, dst);
    }

    ghost sizes = { record { some_channels = Prim.search rules; few_channels = Prim.search rules; whole = refl } };
}
