//! The numbers in which squares of samples are summed and divided.

ghost use Rattle.std.specs.Prelude.{slice_index};

use crate::divisor::Divisor;
use crate::long_divisor::LongDivisor;
use crate::square_sums::{SUMS, SquareSums};
use simd_samples::{FourLanes, FourLongLanes, LongLanes, WideLongLanes, Widen, store_at};

/// Sums in numbers of 32 bits, of samples of one byte or two.
#[derive(Drop)]
pub(crate) struct WideSquares {
    numbers: [u32; SUMS],
}

impl<L: Widen> SquareSums<L, FourLanes> for WideSquares {
    ghost sum = { λ s i. slice_index s.numbers i };

    type Divisor = Divisor;

    ghost count = { λ d. d.count };

    fn zeros() -> Self {
        WideSquares { numbers: [0; SUMS] }
    }

    fn divisor(samples: u32) -> Divisor {
        Divisor::new(samples)
    }

    #[inline(always)]
    fn store_at(&mut self, at: usize, four: FourLanes) {
        four.store_at(&mut self.numbers, at);
    }

    #[inline(always)]
    fn divide_block(&self, divisor: Divisor, means: &mut [u8], at: usize) {
        divisor.divide_block::<L>(&self.numbers, means, at);
    }
}

/// Sums in numbers of 64 bits, of samples of four bytes.
#[derive(Drop)]
pub(crate) struct LongSquares {
    numbers: [u64; SUMS],
}

impl SquareSums<LongLanes, FourLongLanes> for LongSquares {
    ghost sum = { λ s i. slice_index s.numbers i };

    type Divisor = LongDivisor;

    ghost count = { λ d. d.count };

    fn zeros() -> Self {
        LongSquares { numbers: [0; SUMS] }
    }

    fn divisor(samples: u32) -> LongDivisor {
        LongDivisor::new(samples)
    }

    #[inline(always)]
    fn store_at(&mut self, at: usize, four: FourLongLanes) {
        four.store_at(&mut self.numbers, at);
    }

    #[inline(always)]
    fn divide_block(&self, divisor: LongDivisor, means: &mut [u8], at: usize) {
        let mut quotients = [0; 16];
        for lane in 0..16 {
            quotients[lane] = divisor.mean(self.numbers[at + lane]);
        }
        let wide = WideLongLanes::load_at(&quotients, 0);
        store_at(wide.narrow(), means, at);
    }
}
