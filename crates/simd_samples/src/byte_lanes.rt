//! Sixteen samples of one byte.

ghost use Rattle.std.specs.Prelude.{◌≡◌, ◌*◌, ◌++◌, slice_index, refl};
ghost use Rattle.std.proofs.Common.{rules};
ghost use Rattle.simd_samples.specs.Shuffle.{picked, shuffled_of_two, table_of_last, table_of_three};
ghost use Rattle.simd_samples.specs.Lanes.{AreLanes};

use crate::lanes::Lanes;
use crate::quotients::limited_quotients;
use crate::shuffles::{
    ShuffleOfThree, ShuffleOfTwo, shuffle_of_first_two, shuffle_of_two, shuffle_with_third,
};
use crate::wide_lanes::WideLanes;
use crate::widen::Widen;
use std::simd::prelude::*;

/// Sixteen samples of one byte.
#[derive(Clone, Copy)]
pub struct ByteLanes {
    pub(crate) lanes: u8x16,
    ghost samples: { AreLanes 256 lanes },
}

impl ByteLanes {
    /// Takes the lanes of a vector as samples.
    #[inline(always)]
    fn new(lanes: u8x16) -> Self
        ensures { result.lanes ≡ lanes }
    {
        ByteLanes { lanes }
    }
}

impl Lanes for ByteLanes {
    ghost lane = { λ v j. slice_index v.lanes j };

    ghost depth = { 1 };

    ghost BYTES = { 16 };

    const BYTES: usize = 16;

    ghost LEVELS = { 256 };

    const LEVELS: u64 = 256;

    #[inline(always)]
    fn load(src: &[u8]) -> Self {
        ByteLanes::new(u8x16::from_slice(src))
    }

    #[inline(always)]
    fn store(self, dst: &mut [u8]) {
        self.lanes.copy_to_slice(dst);
    }

    #[inline(always)]
    fn max_sample() -> Self {
        ByteLanes::new(u8x16::splat(u8::MAX))
    }

    #[inline(always)]
    fn saturating_sub(self, other: Self) -> Self {
        ByteLanes::new(self.lanes.saturating_sub(other.lanes))
    }

    #[inline(always)]
    fn saturating_add(self, other: Self) -> Self {
        ByteLanes::new(self.lanes.saturating_add(other.lanes))
    }

    #[inline(always)]
    fn min(self, other: Self) -> Self {
        ByteLanes::new(self.lanes.simd_min(other.lanes))
    }

    #[inline(always)]
    fn max(self, other: Self) -> Self {
        ByteLanes::new(self.lanes.simd_max(other.lanes))
    }

    #[inline(always)]
    fn splat(sample: u32) -> Self {
        ByteLanes::new(u8x16::splat(sample.min(u32::from(u8::MAX)) as u8))
    }

    #[inline(always)]
    fn threshold(self, colors: Self, thresholds: Self) -> Self {
        let reached = thresholds.lanes.simd_le(colors.lanes);
        ByteLanes::new(reached.select(self.lanes, u8x16::splat(0)))
    }

    #[inline(always)]
    fn scale_by(self, weights: Self) -> Self {
        let sum = self.lanes.cast::<u16>() * weights.lanes.cast::<u16>() + u16x16::splat(127);
        ByteLanes::new((sum / u16x16::splat(255)).cast::<u8>())
    }

    #[inline(always)]
    fn blend(self, made: Self, weights: Self) -> Self {
        let shares = weights.lanes.cast::<u16>();
        let left = u16x16::splat(255) - shares;
        let sum = self.lanes.cast::<u16>() * left + made.lanes.cast::<u16>() * shares;
        ByteLanes::new(((sum + u16x16::splat(127)) / u16x16::splat(255)).cast::<u8>())
    }

    #[inline(always)]
    fn scale(self, factor: u64, offset: u64) -> Self {
        let products = self.lanes.cast::<u32>() * u32x16::splat(factor as u32);
        let scaled = (products + u32x16::splat(offset as u32)) >> u32x16::splat(24);
        ByteLanes::new(scaled.cast::<u8>())
    }

    #[inline(always)]
    fn divide(self, number: u64, offset: u64, divisor: u64) -> Self {
        let samples = self.lanes.cast::<u64>();
        let quotients = limited_quotients(samples, number, offset, divisor, 255);
        ByteLanes::new(quotients.cast::<u8>())
    }

    #[inline(always)]
    fn max_above(self, colors: Self, limits: Self) -> Self {
        let within = colors.lanes.simd_le(limits.lanes);
        ByteLanes::new(within.select(self.lanes, u8x16::splat(u8::MAX)))
    }

    #[inline(always)]
    fn mean_of_three(self, second: Self, third: Self) -> Self {
        let pair = self.lanes.cast::<u16>() + second.lanes.cast::<u16>();
        let sum = pair + (third.lanes.cast::<u16>() + u16x16::splat(1));
        ByteLanes::new((sum / u16x16::splat(3)).cast::<u8>())
    }

    #[inline(always)]
    fn mean_of_four(self, second: Self, third: Self, fourth: Self) -> Self {
        let pair = self.lanes.cast::<u16>() + second.lanes.cast::<u16>();
        let other = third.lanes.cast::<u16>() + fourth.lanes.cast::<u16>();
        let sum = pair + other + u16x16::splat(2);
        ByteLanes::new((sum >> u16x16::splat(2)).cast::<u8>())
    }

    #[inline(always)]
    fn shuffle_two(self, second: Self, shuffle: ShuffleOfTwo) -> Self {
        ByteLanes::new(bytes_of_two(self.lanes, second.lanes, shuffle))
    }

    #[inline(always)]
    fn shuffle_three(self, second: Self, third: Self, shuffle: ShuffleOfThree) -> Self {
        let two = bytes_of_first_two(self.lanes, second.lanes, shuffle);
        ByteLanes::new(bytes_with_third(two, third.lanes, shuffle))
    }

    ghost sixteen = { refl };

    ghost some_depth = { Prim.search rules };

    ghost few = { Prim.search rules };

    ghost fits = { λ v j. Prim.search (rules, v.samples.below j) };

    ghost levels = { refl };

    ghost some_levels = { Prim.search rules };

    ghost few_levels = { Prim.search rules };
}

impl Widen for ByteLanes {
    #[inline(always)]
    fn widen(self) -> WideLanes {
        WideLanes {
            lanes: self.lanes.cast::<u32>(),
        }
    }

    #[inline(always)]
    fn narrow(wide: WideLanes) -> Self {
        ByteLanes::new(wide.lanes.cast::<u8>())
    }

    ghost narrow_levels = { Prim.search rules };
}

/// Shuffles the lanes of two vectors.
#[inline(always)]
fn bytes_of_two(first: u8x16, second: u8x16, shuffle: ShuffleOfTwo) -> u8x16
    ensures { result ≡ shuffled_of_two first second shuffle }
{
    shuffle_of_two!(first, second, shuffle)
}

/// Shuffles the lanes of the first two of three vectors.
#[inline(always)]
fn bytes_of_first_two(first: u8x16, second: u8x16, shuffle: ShuffleOfThree) -> u8x16
    ensures { result ≡ picked (first ++ second) (table_of_three shuffle) }
{
    shuffle_of_first_two!(first, second, shuffle)
}

/// Shuffles the lanes that the first two of three vectors gave, and the third vector's.
#[inline(always)]
fn bytes_with_third(two: u8x16, third: u8x16, shuffle: ShuffleOfThree) -> u8x16
    ensures { result ≡ picked (two ++ third) (table_of_last shuffle) }
{
    shuffle_with_third!(two, third, shuffle)
}
