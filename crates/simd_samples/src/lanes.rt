//! Sixteen samples side by side, as kernels compute with them.

ghost use Rattle.std.specs.Prelude.{◌≡◌, ℕ, ◌+◌, ◌-◌, ◌*◌, ◌/◌, ◌%◌, ◌^◌, ◌<◌, ◌≤◌, ◌==◌, length, slice_index, min, max, nat_le, if◌then◌else◌};
ghost use Rattle.simd_samples.specs.Lanes.{Hold, HoldThree, HoldTwo};
ghost use Rattle.simd_samples.specs.Shuffle.{position_of_three, position_of_two};
ghost use Rattle.pixel_formats.specs.Blend.{blended};
ghost use Rattle.pixel_formats.specs.Sample.{added, max_sample_of, mean_of_four, mean_of_three, sample_at, thresholded, unit_of, scaled_by};

use crate::shuffles::{ShuffleOfThree, ShuffleOfTwo};

/// A vector of sixteen samples of one depth, which is one byte, two or four. Lane 0 is the leftmost.
pub trait Lanes: Copy {
    /// The sample in each lane.
    ghost lane: { Self → ℕ → ℕ };

    /// The bytes of a sample.
    ghost depth: { ℕ };

    ghost BYTES: { ℕ };

    /// The bytes of the sixteen samples.
    const BYTES: usize;

    ghost LEVELS: { ℕ };

    /// How many values a sample has.
    const LEVELS: u64;

    /// Reads the first sixteen samples of a row of bytes.
    fn load(src: &[u8]) -> Self
        requires { BYTES ≤ length src.now }
        ensures { Hold (lane result) (sample_at depth src.now) };

    /// Writes the first sixteen samples of a row of bytes. Those after them are unchanged.
    fn store(self, dst: &mut [u8])
        requires { BYTES ≤ length dst.old }
        ensures here { Hold (sample_at depth dst.new) (lane self) }
        ensures after { (k : ℕ) → BYTES ≤ k → slice_index dst.new k ≡ slice_index dst.old k };

    /// Returns the largest sample in each lane.
    fn max_sample() -> Self
        ensures { Hold (lane result) (λ j. max_sample_of depth) };

    /// Subtracts in each lane, with 0 where the other sample is greater.
    fn saturating_sub(self, other: Self) -> Self
        ensures { Hold (lane result) (λ j. lane self j - lane other j) };

    /// Adds in each lane, with the largest sample where the sum is greater.
    fn saturating_add(self, other: Self) -> Self
        ensures { Hold (lane result) (λ j. added (max_sample_of depth) (lane self j) (lane other j)) };

    /// Returns the min in each lane.
    fn min(self, other: Self) -> Self
        ensures { Hold (lane result) (λ j. min (lane self j) (lane other j)) };

    /// Returns the max in each lane.
    fn max(self, other: Self) -> Self
        ensures { Hold (lane result) (λ j. max (lane self j) (lane other j)) };

    /// Picks sixteen lanes of two vectors, one after the other.
    fn shuffle_two(self, second: Self, shuffle: ShuffleOfTwo) -> Self
        ensures { (s : ℕ → ℕ) → HoldTwo (lane self) (lane second) s → Hold (lane result) (λ j. s (position_of_two shuffle j)) };

    /// Picks sixteen lanes of three vectors, one after the other.
    fn shuffle_three(self, second: Self, third: Self, shuffle: ShuffleOfThree) -> Self
        ensures { (s : ℕ → ℕ) → HoldThree (lane self) (lane second) (lane third) s → Hold (lane result) (λ j. s (position_of_three shuffle j)) };

    /// Returns the second of each pair of lanes, twice.
    #[inline(always)]
    fn spread_second(self) -> Self
        ensures { Hold (lane result) (λ j. lane self (j / 2 * 2 + 1)) }
    {
        self.shuffle_two(self, ShuffleOfTwo::SpreadSecond)
    }

    /// Returns the fourth of each four lanes, four times.
    #[inline(always)]
    fn spread_fourth(self) -> Self
        ensures { Hold (lane result) (λ j. lane self (j / 4 * 4 + 3)) }
    {
        self.shuffle_two(self, ShuffleOfTwo::SpreadFourth)
    }

    /// Returns the same lanes, but the second of each pair from `old`.
    #[inline(always)]
    fn with_second(self, old: Self) -> Self
        ensures { Hold (lane result) (λ j. if j % 2 == 1 then lane old j else lane self j) }
    {
        self.shuffle_two(old, ShuffleOfTwo::WithSecond)
    }

    /// Returns the same lanes, but the fourth of each four from `old`.
    #[inline(always)]
    fn with_fourth(self, old: Self) -> Self
        ensures { Hold (lane result) (λ j. if j % 4 == 3 then lane old j else lane self j) }
    {
        self.shuffle_two(old, ShuffleOfTwo::WithFourth)
    }

    /// Returns a sample in each lane, or the largest sample where that is less.
    fn splat(sample: u32) -> Self
        ensures { Hold (lane result) (λ j. min (max_sample_of depth) sample) };

    /// Returns `self`, which is the cap, where a color reaches its threshold, and else 0.
    fn threshold(self, colors: Self, thresholds: Self) -> Self
        ensures { Hold (lane result) (λ j. thresholded (lane thresholds j) (lane self j) (lane colors j)) };

    /// Scales each sample by its weight, rounded to the nearest: the largest sample leaves all of
    /// it, and 0 nothing.
    fn scale_by(self, weights: Self) -> Self
        ensures { Hold (lane result) (λ j. scaled_by (max_sample_of depth) (lane self j) (lane weights j)) };

    /// Mixes each sample with another by a weight, rounded to the nearest: 0 leaves the sample of
    /// `self`, and the largest sample gives that of `made`.
    fn blend(self, made: Self, weights: Self) -> Self
        ensures { Hold (lane result) (λ j. blended (max_sample_of depth) (lane self j) (lane made j) (lane weights j)) };

    /// Multiplies each sample by a factor and adds an offset; both are counted in parts of 65,536
    /// times the number of levels.
    fn scale(self, factor: u64, offset: u64) -> Self
        requires factor { factor < LEVELS * unit_of depth }
        requires small { (j : ℕ) → j < 16 → lane self j * factor + offset < LEVELS * unit_of depth }
        ensures { Hold (lane result) (λ j. (lane self j * factor + offset) / unit_of depth) };

    /// Multiplies each sample by a number, adds an offset and divides by another number. The result
    /// is at most the largest sample.
    fn divide(self, number: u64, offset: u64, divisor: u64) -> Self
        requires number { number < 2 ^ 32 }
        requires offset { offset < 2 ^ 32 }
        requires divisor { 0 < divisor }
        ensures { Hold (lane result) (λ j. min (max_sample_of depth) ((lane self j * number + offset) / divisor)) };

    /// Returns the largest sample where a color is above its limit, and else the sample of `self`.
    fn max_above(self, colors: Self, limits: Self) -> Self
        ensures { Hold (lane result) (λ j. if nat_le (lane colors j) (lane limits j) then lane self j else max_sample_of depth) };

    /// Returns the mean of three samples in each lane, rounded to the nearest.
    fn mean_of_three(self, second: Self, third: Self) -> Self
        ensures { Hold (lane result) (λ j. mean_of_three (lane self j) (lane second j) (lane third j)) };

    /// Returns the mean of four samples in each lane, rounded to the nearest and a half upwards.
    fn mean_of_four(self, second: Self, third: Self, fourth: Self) -> Self
        ensures { Hold (lane result) (λ j. mean_of_four (lane self j) (lane second j) (lane third j) (lane fourth j)) };

    /// Separates the lanes with even from those with odd numbers, of two vectors one after the
    /// other.
    #[inline(always)]
    fn deinterleave(self, other: Self) -> (Self, Self)
        ensures even { (s : ℕ → ℕ) → HoldTwo (lane self) (lane other) s → Hold (lane result.0) (λ j. s (2 * j)) }
        ensures odd { (s : ℕ → ℕ) → HoldTwo (lane self) (lane other) s → Hold (lane result.1) (λ j. s (2 * j + 1)) }
    {
        (
            self.shuffle_two(other, ShuffleOfTwo::Evens),
            self.shuffle_two(other, ShuffleOfTwo::Odds),
        )
    }

    /// Separates the pairs of lanes with even from those with odd numbers, of two vectors one after
    /// the other.
    #[inline(always)]
    fn deinterleave_pairs(self, other: Self) -> (Self, Self)
        ensures even { (s : ℕ → ℕ) → HoldTwo (lane self) (lane other) s → Hold (lane result.0) (λ j. s (j / 2 * 4 + j % 2)) }
        ensures odd { (s : ℕ → ℕ) → HoldTwo (lane self) (lane other) s → Hold (lane result.1) (λ j. s (j / 2 * 4 + 2 + j % 2)) }
    {
        (
            self.shuffle_two(other, ShuffleOfTwo::EvenPairs),
            self.shuffle_two(other, ShuffleOfTwo::OddPairs),
        )
    }

    /// Separates the fours of lanes with even from those with odd numbers, of two vectors one after
    /// the other.
    #[inline(always)]
    fn deinterleave_fours(self, other: Self) -> (Self, Self)
        ensures even { (s : ℕ → ℕ) → HoldTwo (lane self) (lane other) s → Hold (lane result.0) (λ j. s (j / 4 * 8 + j % 4)) }
        ensures odd { (s : ℕ → ℕ) → HoldTwo (lane self) (lane other) s → Hold (lane result.1) (λ j. s (j / 4 * 8 + 4 + j % 4)) }
    {
        (
            self.shuffle_two(other, ShuffleOfTwo::EvenFours),
            self.shuffle_two(other, ShuffleOfTwo::OddFours),
        )
    }

    /// Returns the lanes of two vectors interleaved, as two vectors.
    #[inline(always)]
    fn interleave(self, other: Self) -> (Self, Self)
        ensures { (s : ℕ → ℕ) → Hold (lane self) (λ j. s (2 * j)) → Hold (lane other) (λ j. s (2 * j + 1))
            → HoldTwo (lane result.0) (lane result.1) s }
    {
        (
            self.shuffle_two(other, ShuffleOfTwo::JoinedLow),
            self.shuffle_two(other, ShuffleOfTwo::JoinedHigh),
        )
    }

    /// Separates every third lane, from the first, the second and the third on, of three vectors one
    /// after the other.
    #[inline(always)]
    fn split_thirds(self, second: Self, third: Self) -> (Self, Self, Self)
        ensures first { (s : ℕ → ℕ) → HoldThree (lane self) (lane second) (lane third) s → Hold (lane result.0) (λ j. s (3 * j)) }
        ensures second { (s : ℕ → ℕ) → HoldThree (lane self) (lane second) (lane third) s → Hold (lane result.1) (λ j. s (3 * j + 1)) }
        ensures third { (s : ℕ → ℕ) → HoldThree (lane self) (lane second) (lane third) s → Hold (lane result.2) (λ j. s (3 * j + 2)) }
    {
        (
            self.shuffle_three(second, third, ShuffleOfThree::Firsts),
            self.shuffle_three(second, third, ShuffleOfThree::Seconds),
            self.shuffle_three(second, third, ShuffleOfThree::Thirds),
        )
    }

    /// Returns the lanes of three vectors interleaved, as three vectors.
    #[inline(always)]
    fn join_thirds(self, second: Self, third: Self) -> (Self, Self, Self)
        ensures { (s : ℕ → ℕ) → Hold (lane self) (λ j. s (3 * j)) → Hold (lane second) (λ j. s (3 * j + 1)) → Hold (lane third) (λ j. s (3 * j + 2))
            → HoldThree (lane result.0) (lane result.1) (lane result.2) s }
    {
        (
            self.shuffle_three(second, third, ShuffleOfThree::JoinedFirst),
            self.shuffle_three(second, third, ShuffleOfThree::JoinedSecond),
            self.shuffle_three(second, third, ShuffleOfThree::JoinedThird),
        )
    }

    ghost sixteen: { BYTES ≡ 16 * depth };

    ghost some_depth: { 0 < depth };

    ghost few: { BYTES ≤ 64 };

    ghost fits: { (v : Self) (j : ℕ) → lane v j ≤ max_sample_of depth };

    ghost levels: { LEVELS ≡ 256 ^ depth };

    ghost some_levels: { 0 < LEVELS };

    ghost few_levels: { LEVELS ≤ 4294967296 };
}
