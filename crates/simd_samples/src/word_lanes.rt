//! Sixteen samples of two bytes, the less significant first.

ghost use Rattle.std.specs.Prelude.{◌≡◌, ◌*◌, ◌++◌, slice_index, refl};
ghost use Rattle.std.proofs.Common.{rules};
ghost use Rattle.simd_samples.specs.Shuffle.{picked, shuffled_of_two, table_of_last, table_of_three};
ghost use Rattle.simd_samples.specs.Lanes.{AreLanes};

use crate::lanes::Lanes;
use crate::quotients::limited_quotients;
use crate::shuffles::{
    ShuffleOfThree, ShuffleOfTwo, shuffle_of_first_two, shuffle_of_two, shuffle_with_third,
};
use crate::wide_lanes::WideLanes;
use crate::widen::Widen;
use std::simd::prelude::*;

/// Sixteen samples of two bytes, the less significant first.
#[derive(Clone, Copy)]
pub struct WordLanes {
    pub(crate) lanes: u16x16,
    ghost samples: { AreLanes 65536 lanes },
}

impl WordLanes {
    /// Takes the lanes of a vector as samples.
    #[inline(always)]
    fn new(lanes: u16x16) -> Self
        ensures { result.lanes ≡ lanes }
    {
        WordLanes { lanes }
    }
}

impl Lanes for WordLanes {
    ghost lane = { λ v j. slice_index v.lanes j };

    ghost depth = { 2 };

    ghost BYTES = { 32 };

    const BYTES: usize = 32;

    ghost LEVELS = { 65536 };

    const LEVELS: u64 = 65536;

    #[inline(always)]
    fn load(src: &[u8]) -> Self {
        WordLanes::new(u16x16::from_le_bytes(u8x32::from_slice(src)))
    }

    #[inline(always)]
    fn store(self, dst: &mut [u8]) {
        self.lanes.to_le_bytes().copy_to_slice(dst);
    }

    #[inline(always)]
    fn max_sample() -> Self {
        WordLanes::new(u16x16::splat(u16::MAX))
    }

    #[inline(always)]
    fn saturating_sub(self, other: Self) -> Self {
        WordLanes::new(self.lanes.saturating_sub(other.lanes))
    }

    #[inline(always)]
    fn saturating_add(self, other: Self) -> Self {
        WordLanes::new(self.lanes.saturating_add(other.lanes))
    }

    #[inline(always)]
    fn min(self, other: Self) -> Self {
        WordLanes::new(self.lanes.simd_min(other.lanes))
    }

    #[inline(always)]
    fn max(self, other: Self) -> Self {
        WordLanes::new(self.lanes.simd_max(other.lanes))
    }

    #[inline(always)]
    fn splat(sample: u32) -> Self {
        WordLanes::new(u16x16::splat(sample.min(u32::from(u16::MAX)) as u16))
    }

    #[inline(always)]
    fn threshold(self, colors: Self, thresholds: Self) -> Self {
        let reached = thresholds.lanes.simd_le(colors.lanes);
        WordLanes::new(reached.select(self.lanes, u16x16::splat(0)))
    }

    #[inline(always)]
    fn scale_by(self, weights: Self) -> Self {
        let sum = self.lanes.cast::<u32>() * weights.lanes.cast::<u32>() + u32x16::splat(32_767);
        // Dividing by 65,535 with shifts, which is exact for what two samples give.
        let quotient = (sum + u32x16::splat(1) + (sum >> u32x16::splat(16))) >> u32x16::splat(16);
        WordLanes::new(quotient.cast::<u16>())
    }

    #[inline(always)]
    fn blend(self, made: Self, weights: Self) -> Self {
        let shares = weights.lanes.cast::<u32>();
        let left = u32x16::splat(65_535) - shares;
        let mixture = self.lanes.cast::<u32>() * left + made.lanes.cast::<u32>() * shares;
        let sum = mixture + u32x16::splat(32_767);
        // Dividing by 65,535 with shifts, which is exact for what two samples give.
        let quotient = (sum + u32x16::splat(1) + (sum >> u32x16::splat(16))) >> u32x16::splat(16);
        WordLanes::new(quotient.cast::<u16>())
    }

    #[inline(always)]
    fn scale(self, factor: u64, offset: u64) -> Self {
        let products = self.lanes.cast::<u64>() * u64x16::splat(factor);
        let scaled = (products + u64x16::splat(offset)) >> u64x16::splat(32);
        WordLanes::new(scaled.cast::<u16>())
    }

    #[inline(always)]
    fn divide(self, number: u64, offset: u64, divisor: u64) -> Self {
        let samples = self.lanes.cast::<u64>();
        let quotients = limited_quotients(samples, number, offset, divisor, 65_535);
        WordLanes::new(quotients.cast::<u16>())
    }

    #[inline(always)]
    fn max_above(self, colors: Self, limits: Self) -> Self {
        let within = colors.lanes.simd_le(limits.lanes);
        WordLanes::new(within.select(self.lanes, u16x16::splat(u16::MAX)))
    }

    #[inline(always)]
    fn mean_of_three(self, second: Self, third: Self) -> Self {
        let pair = self.lanes.cast::<u32>() + second.lanes.cast::<u32>();
        let sum = pair + (third.lanes.cast::<u32>() + u32x16::splat(1));
        WordLanes::new((sum / u32x16::splat(3)).cast::<u16>())
    }

    #[inline(always)]
    fn mean_of_four(self, second: Self, third: Self, fourth: Self) -> Self {
        let pair = self.lanes.cast::<u32>() + second.lanes.cast::<u32>();
        let other = third.lanes.cast::<u32>() + fourth.lanes.cast::<u32>();
        let sum = pair + other + u32x16::splat(2);
        WordLanes::new((sum >> u32x16::splat(2)).cast::<u16>())
    }

    #[inline(always)]
    fn shuffle_two(self, second: Self, shuffle: ShuffleOfTwo) -> Self {
        WordLanes::new(words_of_two(self.lanes, second.lanes, shuffle))
    }

    #[inline(always)]
    fn shuffle_three(self, second: Self, third: Self, shuffle: ShuffleOfThree) -> Self {
        let two = words_of_first_two(self.lanes, second.lanes, shuffle);
        WordLanes::new(words_with_third(two, third.lanes, shuffle))
    }

    ghost sixteen = { refl };

    ghost some_depth = { Prim.search rules };

    ghost few = { Prim.search rules };

    ghost fits = { λ v j. Prim.search (rules, v.samples.below j) };

    ghost levels = { refl };

    ghost some_levels = { Prim.search rules };

    ghost few_levels = { Prim.search rules };
}

impl Widen for WordLanes {
    #[inline(always)]
    fn widen(self) -> WideLanes {
        WideLanes {
            lanes: self.lanes.cast::<u32>(),
        }
    }

    #[inline(always)]
    fn narrow(wide: WideLanes) -> Self {
        WordLanes::new(wide.lanes.cast::<u16>())
    }

    ghost narrow_levels = { Prim.search rules };
}

/// Shuffles the lanes of two vectors.
#[inline(always)]
fn words_of_two(first: u16x16, second: u16x16, shuffle: ShuffleOfTwo) -> u16x16
    ensures { result ≡ shuffled_of_two first second shuffle }
{
    shuffle_of_two!(first, second, shuffle)
}

/// Shuffles the lanes of the first two of three vectors.
#[inline(always)]
fn words_of_first_two(first: u16x16, second: u16x16, shuffle: ShuffleOfThree) -> u16x16
    ensures { result ≡ picked (first ++ second) (table_of_three shuffle) }
{
    shuffle_of_first_two!(first, second, shuffle)
}

/// Shuffles the lanes that the first two of three vectors gave, and the third vector's.
#[inline(always)]
fn words_with_third(two: u16x16, third: u16x16, shuffle: ShuffleOfThree) -> u16x16
    ensures { result ≡ picked (two ++ third) (table_of_last shuffle) }
{
    shuffle_with_third!(two, third, shuffle)
}
