//! The numbers in which columns of samples are summed.

ghost use Rattle.std.specs.Prelude.{slice_index};
ghost use Rattle.std.proofs.Common.{rules};

use crate::columns::{COLUMNS, ColumnSums};
use simd_samples::{
    ByteLanes, FourLanes, FourLongLanes, LongLanes, ShortLanes, WideLanes, WideLongLanes, Widen,
    WordLanes,
};

/// Sums in numbers of 16 bits, of samples of one byte.
#[derive(Drop)]
pub(crate) struct ByteColumns {
    numbers: [u16; COLUMNS],
}

impl ColumnSums<ByteLanes, FourLanes> for ByteColumns {
    ghost sum = { λ s i. slice_index s.numbers i };

    ghost limit = { 65536 };

    fn zeros() -> Self {
        ByteColumns {
            numbers: [0; COLUMNS],
        }
    }

    #[inline(always)]
    fn add(&mut self, at: usize, coming: ByteLanes) {
        ShortLanes::load_at(&self.numbers, at)
            .wrapping_add(ShortLanes::from_bytes(coming))
            .store_at(&mut self.numbers, at);
    }

    #[inline(always)]
    fn slide(&mut self, at: usize, coming: ByteLanes, leaving: ByteLanes) {
        ShortLanes::load_at(&self.numbers, at)
            .wrapping_add(ShortLanes::from_bytes(coming))
            .wrapping_sub(ShortLanes::from_bytes(leaving))
            .store_at(&mut self.numbers, at);
    }

    #[inline(always)]
    fn four(&self, at: usize) -> FourLanes {
        FourLanes::load_short_at(&self.numbers, at)
    }

    ghost room = { Prim.search rules };

    ghost square_room = { Prim.search rules };
}

/// Sums in numbers of 32 bits, of samples of two bytes.
#[derive(Drop)]
pub(crate) struct WordColumns {
    numbers: [u32; COLUMNS],
}

impl ColumnSums<WordLanes, FourLanes> for WordColumns {
    ghost sum = { λ s i. slice_index s.numbers i };

    ghost limit = { 4294967296 };

    fn zeros() -> Self {
        WordColumns {
            numbers: [0; COLUMNS],
        }
    }

    #[inline(always)]
    fn add(&mut self, at: usize, coming: WordLanes) {
        WideLanes::load_at(&self.numbers, at)
            .wrapping_add(coming.widen())
            .store_at(&mut self.numbers, at);
    }

    #[inline(always)]
    fn slide(&mut self, at: usize, coming: WordLanes, leaving: WordLanes) {
        WideLanes::load_at(&self.numbers, at)
            .wrapping_add(coming.widen())
            .wrapping_sub(leaving.widen())
            .store_at(&mut self.numbers, at);
    }

    #[inline(always)]
    fn four(&self, at: usize) -> FourLanes {
        FourLanes::load_at(&self.numbers, at)
    }

    ghost room = { Prim.search rules };

    ghost square_room = { Prim.search rules };
}

/// Sums in numbers of 64 bits, of samples of four bytes.
#[derive(Drop)]
pub(crate) struct LongColumns {
    numbers: [u64; COLUMNS],
}

impl ColumnSums<LongLanes, FourLongLanes> for LongColumns {
    ghost sum = { λ s i. slice_index s.numbers i };

    ghost limit = { 18446744073709551616 };

    fn zeros() -> Self {
        LongColumns {
            numbers: [0; COLUMNS],
        }
    }

    #[inline(always)]
    fn add(&mut self, at: usize, coming: LongLanes) {
        WideLongLanes::load_at(&self.numbers, at)
            .wrapping_add(WideLongLanes::from_longs(coming))
            .store_at(&mut self.numbers, at);
    }

    #[inline(always)]
    fn slide(&mut self, at: usize, coming: LongLanes, leaving: LongLanes) {
        WideLongLanes::load_at(&self.numbers, at)
            .wrapping_add(WideLongLanes::from_longs(coming))
            .wrapping_sub(WideLongLanes::from_longs(leaving))
            .store_at(&mut self.numbers, at);
    }

    #[inline(always)]
    fn four(&self, at: usize) -> FourLongLanes {
        FourLongLanes::load_at(&self.numbers, at)
    }

    ghost room = { Prim.search rules };

    ghost square_room = { Prim.search rules };
}
