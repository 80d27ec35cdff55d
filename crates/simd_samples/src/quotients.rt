//! Quotients of samples, in lanes of 64 bits.

ghost use Rattle.std.specs.Prelude.{◌≡◌, ℕ, ◌+◌, ◌*◌, ◌/◌, ◌^◌, ◌<◌, ◌≤◌, min, slice_index};
ghost use Rattle.simd_samples.specs.Lanes.{AreLanes, Hold};

use std::simd::prelude::*;

/// Multiplies samples that are at most `most` by a number, adds an offset and divides by another
/// number. The results are at most `most` too.
#[inline(always)]
pub(crate) fn limited_quotients(
    samples: u64x16,
    number: u64,
    offset: u64,
    divisor: u64,
    most: u64,
) -> u64x16
    requires most { most < 2 ^ 32 }
    requires samples { AreLanes (most + 1) samples }
    requires number { number < 2 ^ 32 }
    requires offset { offset < 2 ^ 32 }
    requires divisor { 0 < divisor }
    ensures lanes { AreLanes (most + 1) result }
    ensures quotients { Hold (slice_index result) (λ j. min most ((slice_index samples j * number + offset) / divisor)) }
{
    let products = samples * u64x16::splat(number);
    let sums = products + u64x16::splat(offset);
    let quotients = sums / u64x16::splat(divisor);
    quotients.simd_min(u64x16::splat(most))
}
