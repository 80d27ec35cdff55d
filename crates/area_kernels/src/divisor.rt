//! Division of sums of 32 bits by the number of samples of a square.

ghost use Rattle.std.specs.Prelude.{◌≡◌, ℕ, ◌+◌, ◌*◌, ◌/◌, ◌^◌, ◌<◌, ◌≤◌, length, slice_index};
ghost use Rattle.area_kernels.specs.Sequences.{mean_sum};
ghost use Rattle.pixel_formats.specs.Sample.{max_sample_of, sample_at};

use simd_samples::{WideLanes, Widen, store_at};

/// A number by which sums of samples of one byte or two are divided, rounded to the nearest, without a
/// division: by a multiplication with its reciprocal, which is counted in parts of 2^31 times a power
/// of two. The power is so large that means of sums of as many samples are exact, and so small that
/// the reciprocal fits 32 bits.
#[derive(Clone, Copy)]
pub(crate) struct Divisor {
    /// The number that is divided by.
    pub count: u32,
    /// The reciprocal.
    factor: u32,
    /// The exponent of the power of two.
    shift: u32,
    ghost some: { 0 < count },
    ghost few: { count ≤ 16641 },
    ghost few_shifts: { shift < 32 },
    ghost exact: { 65536 * (count * count) ≤ 2 ^ 31 * 2 ^ shift },
    ghost reciprocal: { factor ≡ 2 ^ 31 * 2 ^ shift / count + 1 },
}

/// Returns the exponent for a number that is divided by.
fn shift_for(count: u32) -> u32
    requires some { 0 < count }
    requires few { count ≤ 16641 }
    ensures few_shifts { result < 32 }
    ensures exact { 65536 * (count * count) ≤ 2 ^ 31 * 2 ^ result }
    ensures fits { 2 ^ 31 * 2 ^ result / count + 1 < 2 ^ 32 }
{
    match count {
        0..=181 => 0,
        182..=2048 => 7,
        2049..=8192 => 11,
        _ => 14,
    }
}

impl Divisor {
    /// Returns the divisor for a number.
    pub fn new(count: u32) -> Divisor
        requires some { 0 < count }
        requires few { count ≤ 16641 }
        ensures { result.count ≡ count }
    {
        let shift = shift_for(count);
        let power = (1u64 << 31) << shift;
        Divisor {
            count,
            factor: (power / u64::from(count) + 1) as u32,
            shift,
        }
    }

    /// Writes the means of sixteen sums, from number `at` on. The samples before them are unchanged.
    #[inline(always)]
    pub fn divide_block<L: Widen>(self, sums: &[u32], means: &mut [u8], at: usize)
        requires sums { at + 16 ≤ length sums.now }
        requires means { L.depth * (at + 16) ≤ length means.old }
        requires small { (i : ℕ) → slice_index sums.now i ≤ self.count * max_sample_of L.depth }
        ensures here { (j : ℕ) → j < 16 → sample_at L.depth means.new (at + j)
            ≡ mean_sum self.count (slice_index sums.now (at + j)) }
        ensures before { (i : ℕ) → i < at → sample_at L.depth means.new i ≡ sample_at L.depth means.old i }
    {
        let half = self.count / 2;
        let wide = WideLanes::load_at(sums, at).scale(half, self.factor, self.shift);
        store_at(L::narrow(wide), means, at);
    }
}
