//! Four numbers of 64 bits, as kernels sum the channels of pixels of four-byte samples.

ghost use Rattle.std.specs.Prelude.{◌≡◌, ℕ, ◌+◌, ◌-◌, ◌%◌, ◌^◌, ◌<◌, ◌≤◌, length, slice_index};

use std::marker::Model;
use std::simd::prelude::*;

/// Four numbers of 64 bits. A clause sees them as their list, whose number 0 is in the leftmost lane.
#[derive(Clone, Copy)]
pub struct FourLongLanes {
    lanes: u64x4,
}

impl Model for FourLongLanes {
    ghost use Rattle.std.specs.Prelude.{◌≡◌, ℕ, List, length};

    ghost Value = { List ℕ };

    ghost view = { λ four. four.lanes };

    ghost inverse = { λ numbers. record { lanes = numbers } };

    ghost invariant = { λ four. length four.lanes ≡ 4 };
}

impl FourLongLanes {
    /// Returns four zeros.
    #[inline(always)]
    pub fn zeros() -> Self
        ensures { (j : ℕ) → j < 4 → slice_index result j ≡ 0 }
    {
        FourLongLanes {
            lanes: u64x4::splat(0),
        }
    }

    /// Reads four numbers, from number `from` of a row on.
    #[inline(always)]
    pub fn load_at(src: &[u64], from: usize) -> Self
        requires { from + 4 ≤ length src.now }
        ensures { (j : ℕ) → j < 4 → slice_index result j ≡ slice_index src.now (from + j) }
    {
        FourLongLanes {
            lanes: u64x4::from_slice(&src[from..]),
        }
    }

    /// Writes four numbers, from number `from` of a row on. All others are unchanged.
    #[inline(always)]
    pub fn store_at(self, dst: &mut [u64], from: usize)
        requires { from + 4 ≤ length dst.old }
        ensures here { (j : ℕ) → j < 4 → slice_index dst.new (from + j) ≡ slice_index self j }
        ensures before { (i : ℕ) → i < from → slice_index dst.new i ≡ slice_index dst.old i }
        ensures after { (i : ℕ) → from + 4 ≤ i → slice_index dst.new i ≡ slice_index dst.old i }
    {
        self.lanes.copy_to_slice(&mut dst[from..]);
    }

    /// Adds in each lane, modulo 2^64.
    #[inline(always)]
    pub fn wrapping_add(self, other: Self) -> Self
        ensures { (j : ℕ) → j < 4 → slice_index result j ≡ (slice_index self j + slice_index other j) % 2 ^ 64 }
    {
        FourLongLanes {
            lanes: self.lanes + other.lanes,
        }
    }

    /// Subtracts in each lane, modulo 2^64.
    #[inline(always)]
    pub fn wrapping_sub(self, other: Self) -> Self
        ensures { (j : ℕ) → j < 4 → slice_index result j ≡ (slice_index self j + (2 ^ 64 - slice_index other j)) % 2 ^ 64 }
    {
        FourLongLanes {
            lanes: self.lanes - other.lanes,
        }
    }
}
