//! Multiplying colors.

ghost use Rattle.std.specs.Prelude.{◌≡◌, ℕ, ◌+◌, ◌-◌, ◌*◌, ◌/◌, ◌%◌, ◌^◌, ◌<◌, ◌≤◌, length, min, nat_le, if◌then◌else◌, ⊤};
ghost use Rattle.pixel_formats.specs.Format.{max_sample_of, pixel_bytes};
ghost use Rattle.pixel_formats.specs.Gain.{gained, gained_pixel};
ghost use Rattle.pixel_formats.specs.Row.{HasPixels, pixel_at};
ghost use Rattle.pixel_formats.specs.Sample.{unit_of};
ghost use Rattle.sample_rows.specs.ScaledGain.{scaled};
ghost use Rattle.simd_samples.specs.Lanes.{Hold};

use crate::depths::{Depth, depth_of};
use crate::recolor::{Recolor, recolor_row};
use pixel_formats::Format;
use simd_pixels::Layout;
use simd_samples::{ByteLanes, Lanes, LongLanes, WordLanes};
use std::alloc::AllocError;
use std::marker::PhantomData;

/// The largest number and divisor of a gain that is done by a multiplication.
const MAX_SCALED_FACTOR: u32 = 65_535;

/// Multiplies each color by num / den without a division: `factor` and `offset` are num / den and
/// one half in parts of 65,536 times the levels of a sample. Colors above `last` would come out
/// above the largest sample.
struct Gain<L: Lanes> {
    factor: u64,
    offset: u64,
    last: u32,
    of: PhantomData<L>,
    ghost factor_fits: { factor < L.LEVELS * unit_of L.depth },
    ghost small: { last * factor + offset < L.LEVELS * unit_of L.depth },
    ghost last_fits: { last ≤ max_sample_of L.depth },
}

impl<L: Lanes> Clone for Gain<L> {
    ghost is_clone = { λ x y. y ≡ x };

    ghost is_infallible = { λ _. ⊤ };

    fn clone(&self) -> Result<Self, AllocError> {
        Ok(*self)
    }
}

impl<L: Lanes> Copy for Gain<L> {}

impl<L: Lanes> Recolor<L> for Gain<L> {
    ghost change = { λ s. scaled L.depth s.factor s.offset s.last };

    #[inline(always)]
    fn recolor<P: Layout>(&self, samples: L) -> L {
        let gained = self.gained(P::caps(samples), samples);
        P::with_alpha(gained, samples)
    }
}

impl<L: Lanes> Gain<L> {
    /// Multiplies sixteen colors, each under its cap.
    #[inline(always)]
    fn gained(&self, caps: L, colors: L) -> L
        ensures { Hold (L.lane result) (λ j. scaled L.depth self.now.factor self.now.offset self.now.last (L.lane caps j) (L.lane colors j)) }
    {
        let last = L::splat(self.last);
        let scaled = colors.min(last).scale(self.factor, self.offset);
        caps.min(scaled.max_above(colors, last))
    }

    fn new(num: u32, den: u32) -> Self
        requires num { num ≤ 65535 }
        requires some { 0 < den }
        requires den { den ≤ 65535 }
        ensures { (cap color : ℕ) → cap ≤ max_sample_of L.depth → color ≤ max_sample_of L.depth
            → scaled L.depth result.factor result.offset result.last cap color ≡ gained num den cap color }
    {
        let factors = factors_of(u64::from(num), u64::from(den), L::LEVELS);
        Gain {
            factor: factors.factor,
            offset: factors.offset,
            last: factors.last,
            of: PhantomData,
        }
    }
}

/// The numbers of a gain.
#[derive(Clone, Copy)]
struct Factors {
    factor: u64,
    offset: u64,
    last: u32,
}

/// Returns the numbers of a gain by num / den, for samples of so many levels.
fn factors_of(num: u64, den: u64, levels: u64) -> Factors
    requires num { num ≤ 65535 }
    requires some { 0 < den }
    requires den { den ≤ 65535 }
    requires some_levels { 0 < levels }
    requires few_levels { levels ≤ 4294967296 }
    ensures factor_fits { result.factor < levels * (65536 * levels) }
    ensures small { result.last * result.factor + result.offset < levels * (65536 * levels) }
    ensures last_fits { result.last < levels }
    ensures exact { (cap color : ℕ) → cap < levels → color < levels
        → min cap (if nat_le color result.last then (color * result.factor + result.offset) / (65536 * levels) else levels - 1)
        ≡ gained num den cap color }
{
    let half = den / 2;
    let unit = 65_536 * levels;
    let factor = (num * unit).div_ceil(den);
    let most = unit.saturating_mul(levels) - 1;
    Factors {
        factor: factor.min(most),
        offset: (half * unit).div_ceil(den),
        last: last_within(num, den, levels),
    }
}

/// Returns the largest sample that comes out below the number of levels.
fn last_within(num: u64, den: u64, levels: u64) -> u32
    requires num { num ≤ 65535 }
    requires some { 0 < den }
    requires den { den ≤ 65535 }
    requires some_levels { 0 < levels }
    requires few_levels { levels ≤ 4294967296 }
    ensures bound { result < levels }
    ensures within { result * num + den / 2 < levels * den }
    ensures last { (color : ℕ) → result < color → color < levels → levels * den ≤ color * num + den / 2 }
{
    if num == 0 {
        return (levels - 1) as u32;
    }
    let most = levels * den - 1 - den / 2;
    (most / num).min(levels - 1) as u32
}

/// Divides each multiplied color.
#[derive(Clone, Copy)]
struct Division {
    num: u32,
    den: u32,
    ghost some: { 0 < den },
}

impl<L: Lanes> Recolor<L> for Division {
    ghost change = { λ s. gained s.num s.den };

    #[inline(always)]
    fn recolor<P: Layout>(&self, samples: L) -> L {
        let gained = self.gained(P::caps(samples), samples);
        P::with_alpha(gained, samples)
    }
}

impl Division {
    /// Multiplies and divides sixteen colors, each under its cap.
    #[inline(always)]
    fn gained<L: Lanes>(&self, caps: L, colors: L) -> L
        ensures { Hold (L.lane result) (λ j. gained self.now.num self.now.den (L.lane caps j) (L.lane colors j)) }
    {
        let den = u64::from(self.den);
        let half = u64::from(self.den / 2);
        caps.min(colors.divide(u64::from(self.num), half, den))
    }
}

/// Writes the row `src` to `dst` with each color multiplied by `num / den`, rounded to the nearest
/// and at most its cap, which is the pixel's alpha or, in a format without alpha, the largest
/// sample. Alpha stays.
pub fn row_gain(f: Format, num: u32, den: u32, src: &[u8], dst: &mut [u8])
    requires some { 0 < den }
    requires whole { length src.now % pixel_bytes f ≡ 0 }
    requires same_length { length dst.old ≡ length src.now }
    ensures { HasPixels f dst.new (λ k. gained_pixel f num den (pixel_at f src.now k)) }
{
    if num > MAX_SCALED_FACTOR || den > MAX_SCALED_FACTOR {
        return divide_row(f, Division { num, den }, src, dst);
    }
    match depth_of(f) {
        Depth::Byte => recolor_row::<ByteLanes, Gain<ByteLanes>>(f, Gain::new(num, den), src, dst),
        Depth::Word => recolor_row::<WordLanes, Gain<WordLanes>>(f, Gain::new(num, den), src, dst),
        Depth::Long => recolor_row::<LongLanes, Gain<LongLanes>>(f, Gain::new(num, den), src, dst),
    }
}

fn divide_row(f: Format, change: Division, src: &[u8], dst: &mut [u8])
    requires whole { length src.now % pixel_bytes f ≡ 0 }
    requires same_length { length dst.old ≡ length src.now }
    ensures { HasPixels f dst.new (λ k. gained_pixel f change.num change.den (pixel_at f src.now k)) }
{
    match depth_of(f) {
        Depth::Byte => recolor_row::<ByteLanes, Division>(f, change, src, dst),
        Depth::Word => recolor_row::<WordLanes, Division>(f, change, src, dst),
        Depth::Long => recolor_row::<LongLanes, Division>(f, change, src, dst),
    }
}
