//! How pixels are in a vector of sixteen samples, and where their alpha is.

ghost use Rattle.std.specs.Prelude.{◌≡◌, ℕ, ◌+◌, ◌*◌, ◌<◌, ◌==◌, Bool, true, false, if◌then◌else◌, refl};
ghost use Rattle.std.proofs.Common.{rules};
ghost use Rattle.pixel_formats.specs.Sample.{max_sample_of};
ghost use Rattle.simd_pixels.specs.LayoutLaws.{last_channel, no_channel};
ghost use Rattle.simd_samples.specs.Lanes.{HoldTwo};

use simd_samples::Lanes;

/// Pixels side by side in a vector, each with its channels in order.
pub trait Layout: Copy {
    /// How many samples a pixel has.
    ghost channels: { ℕ };

    /// How many pixels a vector has.
    ghost pixels: { ℕ };

    /// Whether a channel is alpha.
    ghost is_alpha: { ℕ → Bool };

    /// What the colors of a pixel are at most, where the largest sample is given.
    ghost cap: { ℕ → (ℕ → ℕ) → ℕ };

    /// Returns in each lane the cap of its pixel.
    fn caps<L: Lanes>(samples: L) -> L
        ensures { (k i : ℕ) → k < pixels → i < channels
            → L.lane result (k * channels + i) ≡ cap (max_sample_of L.depth) (λ c. L.lane samples (k * channels + c)) };

    /// Returns the changed samples, but alpha as it was.
    fn with_alpha<L: Lanes>(changed: L, old: L) -> L
        ensures { (k i : ℕ) → k < pixels → i < channels
            → L.lane result (k * channels + i) ≡ (if is_alpha i then L.lane old (k * channels + i) else L.lane changed (k * channels + i)) };

    /// Returns of two vectors the pixels with even and those with odd numbers.
    fn halves<L: Lanes>(first: L, second: L) -> (L, L)
        ensures even { (s : ℕ → ℕ) → HoldTwo (L.lane first) (L.lane second) s → (k i : ℕ) → k < pixels → i < channels
            → L.lane result.0 (k * channels + i) ≡ s (k * (2 * channels) + i) }
        ensures odd { (s : ℕ → ℕ) → HoldTwo (L.lane first) (L.lane second) s → (k i : ℕ) → k < pixels → i < channels
            → L.lane result.1 (k * channels + i) ≡ s (k * (2 * channels) + (channels + i)) };

    ghost sixteen: { pixels * channels ≡ 16 };

    ghost some_pixels: { 0 < pixels };

    ghost some_channels: { 0 < channels };

    ghost cap_of_pixel: { (max_sample : ℕ) (p q : ℕ → ℕ) → ((i : ℕ) → i < channels → p i ≡ q i) → cap max_sample p ≡ cap max_sample q };

    /// Alpha is the cap of its pixel.
    ghost alpha_is_cap: { (max_sample : ℕ) (pixel : ℕ → ℕ) (i : ℕ) → is_alpha i ≡ true → cap max_sample pixel ≡ pixel i };

    ghost index: { (k i : ℕ) → k < pixels → i < channels → k * channels + i < 16 };
}

/// Samples of which each is a pixel of its own, without alpha.
#[derive(Clone, Copy)]
pub struct Opaque;

impl Layout for Opaque {
    ghost channels = { 1 };

    ghost pixels = { 16 };

    ghost is_alpha = { λ i. false };

    ghost cap = { λ max_sample pixel. max_sample };

    #[inline(always)]
    fn caps<L: Lanes>(_samples: L) -> L {
        L::max_sample()
    }

    #[inline(always)]
    fn with_alpha<L: Lanes>(changed: L, _old: L) -> L {
        changed
    }

    #[inline(always)]
    fn halves<L: Lanes>(first: L, second: L) -> (L, L) {
        first.deinterleave(second)
    }

    ghost sixteen = { refl };

    ghost some_pixels = { Prim.search rules };

    ghost some_channels = { Prim.search rules };

    ghost cap_of_pixel = { λ max_sample p q same. refl };

    ghost alpha_is_cap = { λ max_sample pixel i alpha. no_channel max_sample (pixel i) alpha };

    ghost index = { λ k i lt within. Prim.search rules };
}

/// Pixels of two samples, of which the second is alpha.
#[derive(Clone, Copy)]
pub struct AlphaOfTwo;

impl Layout for AlphaOfTwo {
    ghost channels = { 2 };

    ghost pixels = { 8 };

    ghost is_alpha = { λ i. i + 1 == 2 };

    ghost cap = { λ max_sample pixel. pixel 1 };

    #[inline(always)]
    fn caps<L: Lanes>(samples: L) -> L {
        samples.spread_second()
    }

    #[inline(always)]
    fn with_alpha<L: Lanes>(changed: L, old: L) -> L {
        changed.with_second(old)
    }

    #[inline(always)]
    fn halves<L: Lanes>(first: L, second: L) -> (L, L) {
        first.deinterleave_pairs(second)
    }

    ghost sixteen = { refl };

    ghost some_pixels = { Prim.search rules };

    ghost some_channels = { Prim.search rules };

    ghost cap_of_pixel = { λ max_sample p q same. same 1 (Prim.search rules) };

    ghost alpha_is_cap = { λ max_sample pixel i alpha. last_channel 1 i pixel alpha };

    ghost index = { λ k i lt within. Prim.search rules };
}

/// Pixels of four samples, of which the fourth is alpha.
#[derive(Clone, Copy)]
pub struct AlphaOfFour;

impl Layout for AlphaOfFour {
    ghost channels = { 4 };

    ghost pixels = { 4 };

    ghost is_alpha = { λ i. i + 1 == 4 };

    ghost cap = { λ max_sample pixel. pixel 3 };

    #[inline(always)]
    fn caps<L: Lanes>(samples: L) -> L {
        samples.spread_fourth()
    }

    #[inline(always)]
    fn with_alpha<L: Lanes>(changed: L, old: L) -> L {
        changed.with_fourth(old)
    }

    #[inline(always)]
    fn halves<L: Lanes>(first: L, second: L) -> (L, L) {
        first.deinterleave_fours(second)
    }

    ghost sixteen = { refl };

    ghost some_pixels = { Prim.search rules };

    ghost some_channels = { Prim.search rules };

    ghost cap_of_pixel = { λ max_sample p q same. same 3 (Prim.search rules) };

    ghost alpha_is_cap = { λ max_sample pixel i alpha. last_channel 3 i pixel alpha };

    ghost index = { λ k i lt within. Prim.search rules };
}
