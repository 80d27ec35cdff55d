//! Sixteen numbers of 64 bits, as kernels sum samples of four bytes.

ghost use Rattle.std.specs.Prelude.{◌≡◌, ℕ, ◌+◌, ◌-◌, ◌%◌, ◌^◌, ◌<◌, ◌≤◌, length, slice_index};
ghost use Rattle.simd_samples.specs.Lanes.{Hold};

use crate::lanes::Lanes;
use crate::long_lanes::LongLanes;
use std::marker::Model;
use std::simd::prelude::*;

/// Sixteen numbers of 64 bits. A clause sees them as their list, whose number 0 is in the leftmost
/// lane.
#[derive(Clone, Copy)]
pub struct WideLongLanes {
    lanes: u64x16,
}

impl Model for WideLongLanes {
    ghost use Rattle.std.specs.Prelude.{ℕ, List};
    ghost use Rattle.simd_samples.specs.Lanes.{AreLanes};

    ghost Value = { List ℕ };

    ghost view = { λ wide. wide.lanes };

    ghost inverse = { λ numbers. record { lanes = numbers } };

    ghost invariant = { λ wide. AreLanes 18446744073709551616 wide.lanes };
}

impl WideLongLanes {
    /// Widens samples of four bytes.
    #[inline(always)]
    pub fn from_longs(samples: LongLanes) -> Self
        ensures { Hold (slice_index result) (⟦<LongLanes as Lanes>⟧.lane samples) }
    {
        WideLongLanes {
            lanes: samples.lanes.cast::<u64>(),
        }
    }

    /// Narrows numbers that are samples of four bytes.
    #[inline(always)]
    pub fn narrow(self) -> LongLanes
        requires { (j : ℕ) → j < 16 → slice_index self j < 2 ^ 32 }
        ensures { Hold (⟦<LongLanes as Lanes>⟧.lane result) (slice_index self) }
    {
        LongLanes {
            lanes: self.lanes.cast::<u32>(),
        }
    }

    /// Reads sixteen numbers, from number `from` of a row on.
    #[inline(always)]
    pub fn load_at(src: &[u64], from: usize) -> Self
        requires { from + 16 ≤ length src.now }
        ensures { Hold (slice_index result) (λ j. slice_index src.now (from + j)) }
    {
        WideLongLanes {
            lanes: u64x16::from_slice(&src[from..]),
        }
    }

    /// Writes sixteen numbers, from number `from` of a row on. All others are unchanged.
    #[inline(always)]
    pub fn store_at(self, dst: &mut [u64], from: usize)
        requires { from + 16 ≤ length dst.old }
        ensures here { Hold (λ j. slice_index dst.new (from + j)) (slice_index self) }
        ensures before { (i : ℕ) → i < from → slice_index dst.new i ≡ slice_index dst.old i }
        ensures after { (i : ℕ) → from + 16 ≤ i → slice_index dst.new i ≡ slice_index dst.old i }
    {
        self.lanes.copy_to_slice(&mut dst[from..]);
    }

    /// Adds in each lane, modulo 2^64.
    #[inline(always)]
    pub fn wrapping_add(self, other: Self) -> Self
        ensures { Hold (slice_index result) (λ j. (slice_index self j + slice_index other j) % 2 ^ 64) }
    {
        WideLongLanes {
            lanes: self.lanes + other.lanes,
        }
    }

    /// Subtracts in each lane, modulo 2^64.
    #[inline(always)]
    pub fn wrapping_sub(self, other: Self) -> Self
        ensures { Hold (slice_index result) (λ j. (slice_index self j + (2 ^ 64 - slice_index other j)) % 2 ^ 64) }
    {
        WideLongLanes {
            lanes: self.lanes - other.lanes,
        }
    }
}
