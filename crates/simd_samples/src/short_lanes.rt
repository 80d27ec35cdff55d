//! Sixteen numbers of 16 bits, as kernels sum samples of one byte.

ghost use Rattle.std.specs.Prelude.{◌≡◌, ℕ, ◌+◌, ◌-◌, ◌%◌, ◌^◌, ◌<◌, ◌≤◌, length, slice_index};
ghost use Rattle.simd_samples.specs.Lanes.{Hold};

use crate::byte_lanes::ByteLanes;
use crate::lanes::Lanes;
use std::marker::Model;
use std::simd::prelude::*;

/// Sixteen numbers of 16 bits. A clause sees them as their list, whose number 0 is in the leftmost
/// lane.
#[derive(Clone, Copy)]
pub struct ShortLanes {
    lanes: u16x16,
}

impl Model for ShortLanes {
    ghost use Rattle.std.specs.Prelude.{ℕ, List};
    ghost use Rattle.simd_samples.specs.Lanes.{AreLanes};

    ghost Value = { List ℕ };

    ghost view = { λ short. short.lanes };

    ghost inverse = { λ numbers. record { lanes = numbers } };

    ghost invariant = { λ short. AreLanes 65536 short.lanes };
}

impl ShortLanes {
    /// Widens samples of one byte.
    #[inline(always)]
    pub fn from_bytes(samples: ByteLanes) -> Self
        ensures { Hold (slice_index result) (⟦<ByteLanes as Lanes>⟧.lane samples) }
    {
        ShortLanes {
            lanes: samples.lanes.cast::<u16>(),
        }
    }

    /// Reads sixteen numbers, from number `from` of a row on.
    #[inline(always)]
    pub fn load_at(src: &[u16], from: usize) -> Self
        requires { from + 16 ≤ length src.now }
        ensures { Hold (slice_index result) (λ j. slice_index src.now (from + j)) }
    {
        ShortLanes {
            lanes: u16x16::from_slice(&src[from..]),
        }
    }

    /// Writes sixteen numbers, from number `from` of a row on. All others are unchanged.
    #[inline(always)]
    pub fn store_at(self, dst: &mut [u16], from: usize)
        requires { from + 16 ≤ length dst.old }
        ensures here { Hold (λ j. slice_index dst.new (from + j)) (slice_index self) }
        ensures before { (i : ℕ) → i < from → slice_index dst.new i ≡ slice_index dst.old i }
        ensures after { (i : ℕ) → from + 16 ≤ i → slice_index dst.new i ≡ slice_index dst.old i }
    {
        self.lanes.copy_to_slice(&mut dst[from..]);
    }

    /// Adds in each lane, modulo 2^16.
    #[inline(always)]
    pub fn wrapping_add(self, other: Self) -> Self
        ensures { Hold (slice_index result) (λ j. (slice_index self j + slice_index other j) % 2 ^ 16) }
    {
        ShortLanes {
            lanes: self.lanes + other.lanes,
        }
    }

    /// Subtracts in each lane, modulo 2^16.
    #[inline(always)]
    pub fn wrapping_sub(self, other: Self) -> Self
        ensures { Hold (slice_index result) (λ j. (slice_index self j + (2 ^ 16 - slice_index other j)) % 2 ^ 16) }
    {
        ShortLanes {
            lanes: self.lanes - other.lanes,
        }
    }
}
