//! Division of sums of 64 bits by the number of samples of a square.

ghost use Rattle.std.specs.Prelude.{◌≡◌, ◌+◌, ◌*◌, ◌/◌, ◌^◌, ◌<◌, ◌≤◌};
ghost use Rattle.area_kernels.specs.Sequences.{mean_sum};
ghost use Rattle.pixel_formats.specs.Sample.{max_sample_of};

/// A number by which sums of samples of four bytes are divided, rounded to the nearest, without a
/// division: by a multiplication with its reciprocal, which is counted in parts of 2^63. Means of
/// sums of as many samples are exact.
#[derive(Clone, Copy)]
pub(crate) struct LongDivisor {
    /// The number that is divided by.
    pub count: u32,
    /// The reciprocal.
    factor: u64,
    ghost some: { 0 < count },
    ghost few: { count ≤ 16641 },
    ghost reciprocal: { factor ≡ 2 ^ 63 / count + 1 },
}

impl LongDivisor {
    /// Returns the divisor for a number.
    pub fn new(count: u32) -> LongDivisor
        requires some { 0 < count }
        requires few { count ≤ 16641 }
        ensures { result.count ≡ count }
    {
        LongDivisor {
            count,
            factor: (1u64 << 63) / u64::from(count) + 1,
        }
    }

    /// Returns the mean of samples of which the sum is given, rounded to the nearest.
    #[inline(always)]
    pub fn mean(self, sum: u64) -> u64
        requires { sum ≤ self.count * max_sample_of 4 }
        ensures { result ≡ mean_sum self.count sum }
    {
        // Twice the number, so that the quotient by 2^63 is the product's upper half.
        let doubled = 2 * (sum + u64::from(self.count / 2));
        let product = u128::from(doubled) * u128::from(self.factor);
        (product >> 64) as u64
    }
}
