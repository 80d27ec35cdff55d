//! Sums of squares, from the sums of their columns.

ghost use Rattle.std.specs.Prelude.{◌≡◌, ℕ, ◌+◌, ◌*◌, ◌<◌, ◌≤◌};
ghost use Rattle.area_kernels.specs.Sequences.{sum_of};
ghost use Rattle.pixel_formats.specs.Sample.{max_sample_of};

use crate::columns::ColumnSums;
use crate::four_sums::FourSums;
use crate::square_sums::{SUMS, SquareSums};
use simd_samples::Lanes;

/// Returns the sums of the first `count` pixels of a row, in each channel.
fn first_sums<L: Lanes, F: FourSums, C: ColumnSums<L, F>>(
    row: &C,
    channels: usize,
    count: usize,
) -> F
    requires channels { channels ≤ 4 }
    requires few { count ≤ 128 }
    requires small { (i : ℕ) → i < count * channels → C.sum row.now i ≤ 129 * max_sample_of L.depth }
    ensures { (c : ℕ) → c < channels → F.lane result c ≡ sum_of count (λ k. C.sum row.now (k * channels + c)) }
{
    let mut sums = F::zeros();
    for pixel in 0..count {
        sums = sums.wrapping_add(row.four(pixel * channels));
    }
    sums
}

/// Writes for each of the first `width` pixels, in each channel, the sum of it and of `reach` pixels
/// after it. The numbers after them are zeros before and after.
pub(crate) fn sum_row<L: Lanes, F: FourSums, C: ColumnSums<L, F>, S: SquareSums<L, F>>(
    row: &C,
    channels: usize,
    reach: usize,
    width: usize,
    squares: &mut S,
)
    requires channels { channels ≤ 4 }
    requires few { reach ≤ 128 }
    requires narrow { width ≤ 64 }
    requires sums { width * channels + 4 ≤ SUMS }
    requires small { (i : ℕ) → i < (width + reach) * channels → C.sum row.now i ≤ 129 * max_sample_of L.depth }
    requires clear { (i : ℕ) → width * channels ≤ i → S.sum squares.old i ≡ 0 }
    ensures made { (x c : ℕ) → x < width → c < channels → S.sum squares.new (x * channels + c)
        ≡ sum_of (reach + 1) (λ k. C.sum row.now ((x + k) * channels + c)) }
    ensures clear { (i : ℕ) → width * channels ≤ i → S.sum squares.new i ≡ 0 }
{
    let mut sum = first_sums(row, channels, reach);
    for x in 0..width {
        let entering = row.four((x + reach) * channels);
        let whole = sum.wrapping_add(entering);
        squares.store_at(x * channels, whole);
        let leaving = row.four(x * channels);
        sum = whole.wrapping_sub(leaving);
    }
    squares.store_at(width * channels, F::zeros());
}
