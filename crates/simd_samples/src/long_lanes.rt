//! Sixteen samples of four bytes, the least significant first.

ghost use Rattle.std.specs.Prelude.{◌≡◌, ◌*◌, ◌++◌, slice_index, refl};
ghost use Rattle.std.proofs.Common.{rules};
ghost use Rattle.simd_samples.specs.Shuffle.{picked, shuffled_of_two, table_of_last, table_of_three};
ghost use Rattle.simd_samples.specs.Lanes.{AreLanes};

use crate::lanes::Lanes;
use crate::quotients::limited_quotients;
use crate::shuffles::{
    ShuffleOfThree, ShuffleOfTwo, shuffle_of_first_two, shuffle_of_two, shuffle_with_third,
};
use std::simd::prelude::*;

/// Sixteen samples of four bytes, the least significant first.
#[derive(Clone, Copy)]
pub struct LongLanes {
    pub(crate) lanes: u32x16,
    ghost samples: { AreLanes 4294967296 lanes },
}

impl LongLanes {
    /// Takes the lanes of a vector as samples.
    #[inline(always)]
    fn new(lanes: u32x16) -> Self
        ensures { result.lanes ≡ lanes }
    {
        LongLanes { lanes }
    }
}

impl Lanes for LongLanes {
    ghost lane = { λ v j. slice_index v.lanes j };

    ghost depth = { 4 };

    ghost BYTES = { 64 };

    const BYTES: usize = 64;

    ghost LEVELS = { 4294967296 };

    const LEVELS: u64 = 4_294_967_296;

    #[inline(always)]
    fn load(src: &[u8]) -> Self {
        LongLanes::new(u32x16::from_le_bytes(u8x64::from_slice(src)))
    }

    #[inline(always)]
    fn store(self, dst: &mut [u8]) {
        self.lanes.to_le_bytes().copy_to_slice(dst);
    }

    #[inline(always)]
    fn max_sample() -> Self {
        LongLanes::new(u32x16::splat(u32::MAX))
    }

    #[inline(always)]
    fn saturating_sub(self, other: Self) -> Self {
        LongLanes::new(self.lanes.saturating_sub(other.lanes))
    }

    #[inline(always)]
    fn saturating_add(self, other: Self) -> Self {
        LongLanes::new(self.lanes.saturating_add(other.lanes))
    }

    #[inline(always)]
    fn min(self, other: Self) -> Self {
        LongLanes::new(self.lanes.simd_min(other.lanes))
    }

    #[inline(always)]
    fn max(self, other: Self) -> Self {
        LongLanes::new(self.lanes.simd_max(other.lanes))
    }

    #[inline(always)]
    fn splat(sample: u32) -> Self {
        LongLanes::new(u32x16::splat(sample))
    }

    #[inline(always)]
    fn threshold(self, colors: Self, thresholds: Self) -> Self {
        let reached = thresholds.lanes.simd_le(colors.lanes);
        LongLanes::new(reached.select(self.lanes, u32x16::splat(0)))
    }

    #[inline(always)]
    fn scale_by(self, weights: Self) -> Self {
        let products = self.lanes.cast::<u64>() * weights.lanes.cast::<u64>();
        let sum = products + u64x16::splat(2_147_483_647);
        // Dividing by 2^32 - 1 with shifts, which is exact for what two samples give.
        let quotient = (sum + u64x16::splat(1) + (sum >> u64x16::splat(32))) >> u64x16::splat(32);
        LongLanes::new(quotient.cast::<u32>())
    }

    #[inline(always)]
    fn blend(self, made: Self, weights: Self) -> Self {
        let shares = weights.lanes.cast::<u64>();
        let left = u64x16::splat(4_294_967_295) - shares;
        let mixture = self.lanes.cast::<u64>() * left + made.lanes.cast::<u64>() * shares;
        let sum = mixture + u64x16::splat(2_147_483_647);
        // Dividing by 2^32 - 1 with shifts, which is exact for what two samples give.
        let quotient = (sum + u64x16::splat(1) + (sum >> u64x16::splat(32))) >> u64x16::splat(32);
        LongLanes::new(quotient.cast::<u32>())
    }

    #[inline(always)]
    fn scale(self, factor: u64, offset: u64) -> Self {
        // The factor and the offset in halves of 32 bits, so that no product leaves 64.
        let samples = self.lanes.cast::<u64>();
        let low_factor = u64x16::splat(factor % 4_294_967_296);
        let low = samples * low_factor + u64x16::splat(offset % 4_294_967_296);
        let high = samples * u64x16::splat(factor >> 32) + u64x16::splat(offset >> 32);
        let scaled = (high + (low >> u64x16::splat(32))) >> u64x16::splat(16);
        LongLanes::new(scaled.cast::<u32>())
    }

    #[inline(always)]
    fn divide(self, number: u64, offset: u64, divisor: u64) -> Self {
        let samples = self.lanes.cast::<u64>();
        let quotients = limited_quotients(samples, number, offset, divisor, 4_294_967_295);
        LongLanes::new(quotients.cast::<u32>())
    }

    #[inline(always)]
    fn max_above(self, colors: Self, limits: Self) -> Self {
        let within = colors.lanes.simd_le(limits.lanes);
        LongLanes::new(within.select(self.lanes, u32x16::splat(u32::MAX)))
    }

    #[inline(always)]
    fn mean_of_three(self, second: Self, third: Self) -> Self {
        let pair = self.lanes.cast::<u64>() + second.lanes.cast::<u64>();
        let sum = pair + (third.lanes.cast::<u64>() + u64x16::splat(1));
        LongLanes::new((sum / u64x16::splat(3)).cast::<u32>())
    }

    #[inline(always)]
    fn mean_of_four(self, second: Self, third: Self, fourth: Self) -> Self {
        let pair = self.lanes.cast::<u64>() + second.lanes.cast::<u64>();
        let other = third.lanes.cast::<u64>() + fourth.lanes.cast::<u64>();
        let sum = pair + other + u64x16::splat(2);
        LongLanes::new((sum >> u64x16::splat(2)).cast::<u32>())
    }

    #[inline(always)]
    fn shuffle_two(self, second: Self, shuffle: ShuffleOfTwo) -> Self {
        LongLanes::new(longs_of_two(self.lanes, second.lanes, shuffle))
    }

    #[inline(always)]
    fn shuffle_three(self, second: Self, third: Self, shuffle: ShuffleOfThree) -> Self {
        let two = longs_of_first_two(self.lanes, second.lanes, shuffle);
        LongLanes::new(longs_with_third(two, third.lanes, shuffle))
    }

    ghost sixteen = { refl };

    ghost some_depth = { Prim.search rules };

    ghost few = { Prim.search rules };

    ghost fits = { λ v j. Prim.search (rules, v.samples.below j) };

    ghost levels = { refl };

    ghost some_levels = { Prim.search rules };

    ghost few_levels = { Prim.search rules };
}

/// Shuffles the lanes of two vectors.
#[inline(always)]
fn longs_of_two(first: u32x16, second: u32x16, shuffle: ShuffleOfTwo) -> u32x16
    ensures { result ≡ shuffled_of_two first second shuffle }
{
    shuffle_of_two!(first, second, shuffle)
}

/// Shuffles the lanes of the first two of three vectors.
#[inline(always)]
fn longs_of_first_two(first: u32x16, second: u32x16, shuffle: ShuffleOfThree) -> u32x16
    ensures { result ≡ picked (first ++ second) (table_of_three shuffle) }
{
    shuffle_of_first_two!(first, second, shuffle)
}

/// Shuffles the lanes that the first two of three vectors gave, and the third vector's.
#[inline(always)]
fn longs_with_third(two: u32x16, third: u32x16, shuffle: ShuffleOfThree) -> u32x16
    ensures { result ≡ picked (two ++ third) (table_of_last shuffle) }
{
    shuffle_with_third!(two, third, shuffle)
}
