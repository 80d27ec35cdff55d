//! Four sums side by side, as those of the channels of a pixel, which slide along a row.

ghost use Rattle.std.specs.Prelude.{◌≡◌, ℕ, ◌+◌, ◌-◌, ◌%◌, ◌<◌, slice_index};

use simd_samples::{FourLanes, FourLongLanes};

/// Four sums side by side, in numbers below a limit.
pub(crate) trait FourSums: Copy {
    /// Each sum.
    ghost lane: { Self → ℕ → ℕ };

    /// One more than the largest number.
    ghost limit: { ℕ };

    /// Returns four sums that are 0.
    fn zeros() -> Self
        ensures { (j : ℕ) → j < 4 → lane result j ≡ 0 };

    /// Adds in each lane, modulo the limit.
    fn wrapping_add(self, other: Self) -> Self
        ensures { (j : ℕ) → j < 4 → lane result j ≡ (lane self j + lane other j) % limit };

    /// Subtracts in each lane, modulo the limit.
    fn wrapping_sub(self, other: Self) -> Self
        ensures { (j : ℕ) → j < 4 → lane result j ≡ (lane self j + (limit - lane other j)) % limit };
}

impl FourSums for FourLanes {
    ghost lane = { λ four j. slice_index four j };

    ghost limit = { 4294967296 };

    #[inline(always)]
    fn zeros() -> Self {
        FourLanes::zeros()
    }

    #[inline(always)]
    fn wrapping_add(self, other: Self) -> Self {
        FourLanes::wrapping_add(self, other)
    }

    #[inline(always)]
    fn wrapping_sub(self, other: Self) -> Self {
        FourLanes::wrapping_sub(self, other)
    }
}

impl FourSums for FourLongLanes {
    ghost lane = { λ four j. slice_index four j };

    ghost limit = { 18446744073709551616 };

    #[inline(always)]
    fn zeros() -> Self {
        FourLongLanes::zeros()
    }

    #[inline(always)]
    fn wrapping_add(self, other: Self) -> Self {
        FourLongLanes::wrapping_add(self, other)
    }

    #[inline(always)]
    fn wrapping_sub(self, other: Self) -> Self {
        FourLongLanes::wrapping_sub(self, other)
    }
}
