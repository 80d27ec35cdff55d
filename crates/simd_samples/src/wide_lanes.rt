//! Sixteen numbers of 32 bits, as kernels sum samples.

ghost use Rattle.std.specs.Prelude.{◌≡◌, ℕ, ◌+◌, ◌-◌, ◌*◌, ◌/◌, ◌%◌, ◌^◌, ◌<◌, ◌≤◌, length, slice_index};
ghost use Rattle.simd_samples.specs.Lanes.{Hold};

use std::marker::Model;
use std::simd::prelude::*;

/// Sixteen numbers of 32 bits. A clause sees them as their list, whose number 0 is in the leftmost
/// lane.
#[derive(Clone, Copy)]
pub struct WideLanes {
    pub(crate) lanes: u32x16,
}

impl Model for WideLanes {
    ghost use Rattle.std.specs.Prelude.{ℕ, List};
    ghost use Rattle.simd_samples.specs.Lanes.{AreLanes};

    ghost Value = { List ℕ };

    ghost view = { λ wide. wide.lanes };

    ghost inverse = { λ numbers. record { lanes = numbers } };

    ghost invariant = { λ wide. AreLanes 4294967296 wide.lanes };
}

impl WideLanes {
    /// Reads sixteen numbers, from number `from` of a row on.
    #[inline(always)]
    pub fn load_at(src: &[u32], from: usize) -> Self
        requires { from + 16 ≤ length src.now }
        ensures { Hold (slice_index result) (λ j. slice_index src.now (from + j)) }
    {
        WideLanes {
            lanes: u32x16::from_slice(&src[from..]),
        }
    }

    /// Writes sixteen numbers, from number `from` of a row on. All others are unchanged.
    #[inline(always)]
    pub fn store_at(self, dst: &mut [u32], from: usize)
        requires { from + 16 ≤ length dst.old }
        ensures here { Hold (λ j. slice_index dst.new (from + j)) (slice_index self) }
        ensures before { (i : ℕ) → i < from → slice_index dst.new i ≡ slice_index dst.old i }
        ensures after { (i : ℕ) → from + 16 ≤ i → slice_index dst.new i ≡ slice_index dst.old i }
    {
        self.lanes.copy_to_slice(&mut dst[from..]);
    }

    /// Adds in each lane, modulo 2^32.
    #[inline(always)]
    pub fn wrapping_add(self, other: Self) -> Self
        ensures { Hold (slice_index result) (λ j. (slice_index self j + slice_index other j) % 2 ^ 32) }
    {
        WideLanes {
            lanes: self.lanes + other.lanes,
        }
    }

    /// Subtracts in each lane, modulo 2^32.
    #[inline(always)]
    pub fn wrapping_sub(self, other: Self) -> Self
        ensures { Hold (slice_index result) (λ j. (slice_index self j + (2 ^ 32 - slice_index other j)) % 2 ^ 32) }
    {
        WideLanes {
            lanes: self.lanes - other.lanes,
        }
    }

    /// Adds an offset to each number, multiplies by a factor and divides by 2^31 and by a power of
    /// two, as the mean of many samples is had by the reciprocal of their number.
    #[inline(always)]
    pub fn scale(self, offset: u32, factor: u32, shift: u32) -> Self
        requires shift { shift < 32 }
        requires small { (j : ℕ) → j < 16 → slice_index self j + offset < 2 ^ 31 }
        ensures { Hold (slice_index result) (λ j. (slice_index self j + offset) * factor / 2 ^ 31 / 2 ^ shift) }
    {
        // Twice the number, so that the quotient by 2^31 is the product's upper half.
        let raised = self.lanes + u32x16::splat(offset);
        let doubled = (raised + raised).cast::<u64>();
        let products = doubled * u64x16::splat(u64::from(factor));
        let halves = (products >> u64x16::splat(32)).cast::<u32>();
        WideLanes {
            lanes: halves >> u32x16::splat(shift),
        }
    }
}
