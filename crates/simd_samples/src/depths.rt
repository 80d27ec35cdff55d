//! Samples at another depth.

ghost use Rattle.std.specs.Prelude.{◌≡◌, ℕ};
ghost use Rattle.pixel_formats.specs.Sample.{rescaled};
ghost use Rattle.simd_samples.specs.Lanes.{Hold};

use crate::byte_lanes::ByteLanes;
use crate::lanes::Lanes;
use crate::long_lanes::LongLanes;
use crate::positions::DOUBLED;
use crate::word_lanes::WordLanes;
use std::simd::prelude::*;

/// Samples that can be had at the depth of `D`.
pub trait Rescale<D: Lanes>: Lanes {
    /// Returns the samples at the other depth, rounded to the nearest.
    fn rescale(self) -> D
        ensures { Hold (D.lane result) (λ j. rescaled Self.depth D.depth (Self.lane self j)) };
}

impl Rescale<ByteLanes> for ByteLanes {
    #[inline(always)]
    fn rescale(self) -> ByteLanes {
        self
    }
}

impl Rescale<WordLanes> for WordLanes {
    #[inline(always)]
    fn rescale(self) -> WordLanes {
        self
    }
}

impl Rescale<WordLanes> for ByteLanes {
    #[inline(always)]
    fn rescale(self) -> WordLanes {
        // 257 times a byte is the byte twice.
        let bytes = self.lanes.swizzle(DOUBLED);
        WordLanes {
            lanes: u16x16::from_le_bytes(bytes),
        }
    }
}

impl Rescale<ByteLanes> for WordLanes {
    #[inline(always)]
    fn rescale(self) -> ByteLanes {
        // The rounded quotient by 257, without leaving sixteen bits.
        let less = self.lanes - (self.lanes >> u16x16::splat(8));
        let half = u16x16::splat(127) + (self.lanes >> u16x16::splat(15));
        let quotient = (less + half) >> u16x16::splat(8);
        ByteLanes {
            lanes: quotient.cast::<u8>(),
        }
    }
}

impl Rescale<LongLanes> for LongLanes {
    #[inline(always)]
    fn rescale(self) -> LongLanes {
        self
    }
}

impl Rescale<LongLanes> for ByteLanes {
    #[inline(always)]
    fn rescale(self) -> LongLanes {
        // The byte four times.
        LongLanes {
            lanes: self.lanes.cast::<u32>() * u32x16::splat(16_843_009),
        }
    }
}

impl Rescale<LongLanes> for WordLanes {
    #[inline(always)]
    fn rescale(self) -> LongLanes {
        // The word twice.
        LongLanes {
            lanes: self.lanes.cast::<u32>() * u32x16::splat(65_537),
        }
    }
}

impl Rescale<ByteLanes> for LongLanes {
    #[inline(always)]
    fn rescale(self) -> ByteLanes {
        // 255 of 2^32 - 1 parts of each sample.
        let scaled = self.scale_by(LongLanes::splat(255));
        ByteLanes {
            lanes: scaled.lanes.cast::<u8>(),
        }
    }
}

impl Rescale<WordLanes> for LongLanes {
    #[inline(always)]
    fn rescale(self) -> WordLanes {
        // The rounded quotient by 65,537, without leaving thirty-two bits.
        let less = self.lanes - (self.lanes >> u32x16::splat(16));
        let half = u32x16::splat(32_767) + (self.lanes >> u32x16::splat(31));
        let quotient = (less + half) >> u32x16::splat(16);
        WordLanes {
            lanes: quotient.cast::<u16>(),
        }
    }
}
