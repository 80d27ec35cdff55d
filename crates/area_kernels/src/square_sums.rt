//! Sums of squares of samples along a row, and their means.

ghost use Rattle.std.specs.Prelude.{◌≡◌, ℕ, ◌+◌, ◌*◌, ◌<◌, ◌≤◌, length};
ghost use Rattle.area_kernels.specs.Sequences.{mean_sum};
ghost use Rattle.pixel_formats.specs.Sample.{max_sample_of, sample_at};

use crate::four_sums::FourSums;
use simd_samples::Lanes;

/// How many sums there are: those of the samples of the longest row that is written, of 64 pixels of
/// four channels, and sixteen more.
pub(crate) const SUMS: usize = 4 * 64 + 16;

/// Sums of squares of samples.
pub(crate) trait SquareSums<L: Lanes, F: FourSums> {
    /// Each sum.
    ghost sum: { Self → ℕ → ℕ };

    /// What sums are divided by.
    type Divisor: Copy;

    /// The number that a divisor divides by.
    ghost count: { Self.Divisor → ℕ };

    /// Returns sums that are 0.
    fn zeros() -> Self
        ensures { (i : ℕ) → sum result i ≡ 0 };

    /// Returns the divisor for squares of `samples` samples.
    fn divisor(samples: u32) -> Self::Divisor
        requires some { 0 < samples }
        requires few { samples ≤ 16641 }
        ensures { count result ≡ samples };

    /// Writes four sums, from number `at` on. All others are unchanged.
    fn store_at(&mut self, at: usize, four: F)
        requires { at + 4 ≤ SUMS }
        ensures here { (j : ℕ) → j < 4 → sum self.new (at + j) ≡ F.lane four j }
        ensures before { (i : ℕ) → i < at → sum self.new i ≡ sum self.old i }
        ensures after { (i : ℕ) → at + 4 ≤ i → sum self.new i ≡ sum self.old i };

    /// Writes the means of sixteen squares, from number `at` on, rounded to the nearest. The samples
    /// before them are unchanged.
    fn divide_block(&self, divisor: Self::Divisor, means: &mut [u8], at: usize)
        requires sums { at + 16 ≤ SUMS }
        requires means { L.depth * (at + 16) ≤ length means.old }
        requires small { (i : ℕ) → sum self.now i ≤ count divisor * max_sample_of L.depth }
        ensures here { (j : ℕ) → j < 16 → sample_at L.depth means.new (at + j) ≡ mean_sum (count divisor) (sum self.now (at + j)) }
        ensures before { (i : ℕ) → i < at → sample_at L.depth means.new i ≡ sample_at L.depth means.old i };
}

/// Writes the means of the first `count` squares, rounded to the nearest. Up to fifteen samples after
/// them are overwritten.
pub(crate) fn divide_row<L: Lanes, F: FourSums, S: SquareSums<L, F>>(
    squares: &S,
    divisor: S::Divisor,
    means: &mut [u8],
    count: usize,
)
    requires sums { count + 16 ≤ SUMS }
    requires means { L.depth * (count + 16) ≤ length means.old }
    requires small { (i : ℕ) → S.sum squares.now i ≤ S.count divisor * max_sample_of L.depth }
    ensures { (i : ℕ) → i < count → sample_at L.depth means.new i ≡ mean_sum (S.count divisor) (S.sum squares.now i) }
{
    for block in 0..count.div_ceil(16) {
        squares.divide_block(divisor, means, 16 * block);
    }
}
