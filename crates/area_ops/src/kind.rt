//! What operations make of the square around each position.

ghost use Rattle.std.specs.Prelude.{◌≡◌, ℕ, ◌+◌, ◌*◌, ◌≤◌, IfOk, length};
ghost use Rattle.pixel_formats.specs.Format.{channels, depth};
ghost use Rattle.area_kernels.specs.Parts.{HoldsPart, grown, read_samples, square_samples, written_samples};
ghost use Rattle.area_ops.specs.Kinds.{square_value};

use alloc_basics::NoMemory;
use area_kernels::{Area, area_max, area_mean, area_min};
use pixel_formats::Format;
use std::alloc::Global;

/// What becomes of the samples of the square around each position, in each channel.
#[derive(Clone, Copy, Debug, PartialEq, Eq)]
pub enum AreaKind {
    /// Their mean, rounded to the nearest.
    BoxMean,
    /// The largest of them.
    Dilate,
    /// The smallest of them.
    Erode,
}

impl AreaKind {
    /// Writes what becomes of the square around each position. The patch has the part of the result
    /// grown by the radius, read under a policy, and at least sixteen samples after it; it may be
    /// overwritten.
    fn write(self, format: Format, area: Area, patch: &mut [u8], dst: &mut [u8])
        requires read { depth format * (read_samples area (channels format) + 16) ≤ length patch.old }
        requires written { length dst.old ≡ depth format * written_samples area (channels format) }
        ensures { (f : ℕ → ℕ → ℕ → ℕ) (u v : ℕ)
            → HoldsPart format (grown area.radius area.width) (grown area.radius area.height) patch.old f u v
            → HoldsPart format area.width area.height dst.new (λ s t c. square_value self area.radius (square_samples area.radius f s t c)) u v }
    {
        match self {
            AreaKind::BoxMean => area_mean(format, area, patch, dst),
            AreaKind::Dilate => area_max(format, area, patch, dst),
            AreaKind::Erode => area_min(format, area, patch, dst),
        }
    }

    /// Returns the raw bytes of what becomes of the square around each position, as
    /// [`AreaKind::write`] writes them.
    ///
    /// # Errors
    ///
    /// `NoMemory` if memory runs out.
    pub(crate) fn bytes(
        self,
        alloc: Global,
        format: Format,
        area: Area,
        patch: &mut [u8],
    ) -> Result<Vec<u8>, NoMemory>
        requires read { depth format * (read_samples area (channels format) + 16) ≤ length patch.old }
        ensures count { IfOk result (λ bytes. length bytes.items ≡ depth format * written_samples area (channels format)) }
        ensures part { IfOk result (λ bytes. (f : ℕ → ℕ → ℕ → ℕ) (u v : ℕ)
            → HoldsPart format (grown area.radius area.width) (grown area.radius area.height) patch.old f u v
            → HoldsPart format area.width area.height bytes.items (λ s t c. square_value self area.radius (square_samples area.radius f s t c)) u v) }
    {
        let count = area.width * area.height * format.pixel_bytes() as usize;
        let mut bytes = vec![in alloc; 0; count]?;
        self.write(format, area, patch, &mut bytes);
        Ok(bytes)
    }
}
