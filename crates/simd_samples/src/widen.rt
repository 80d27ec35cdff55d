//! Samples that lanes of 32 bits sum.

ghost use Rattle.std.specs.Prelude.{◌≡◌, ℕ, ◌<◌, ◌≤◌, slice_index};
ghost use Rattle.pixel_formats.specs.Sample.{max_sample_of};
ghost use Rattle.simd_samples.specs.Lanes.{Hold};

use crate::lanes::Lanes;
use crate::wide_lanes::WideLanes;

/// Samples of one byte or two, which kernels sum in lanes of 32 bits.
pub trait Widen: Lanes {
    /// Widens each sample to 32 bits.
    fn widen(self) -> WideLanes
        ensures { Hold (slice_index result) (Self.lane self) };

    /// Narrows numbers that are samples.
    fn narrow(wide: WideLanes) -> Self
        requires { (j : ℕ) → j < 16 → slice_index wide j ≤ max_sample_of Self.depth }
        ensures { Hold (Self.lane result) (slice_index wide) };

    ghost narrow_levels: { Self.LEVELS ≤ 65536 };
}
