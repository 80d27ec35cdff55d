//! The largest and the smallest samples of squares.

ghost use Rattle.std.specs.Prelude.{◌≡◌, ℕ, ◌+◌, ◌*◌, ◌<◌, ◌≤◌, length};
ghost use Rattle.area_kernels.specs.Parts.{HoldSquares, HoldsPart, grown, read_samples, written_samples};
ghost use Rattle.area_kernels.specs.Sequences.{best};
ghost use Rattle.model_operations.specs.Windows.{max_of_all, min_of_all};
ghost use Rattle.pixel_formats.specs.Format.{channels, depth};
ghost use Rattle.pixel_formats.specs.Sample.{sample_at};

use crate::area::Area;
use crate::picks::{Largest, Pick, Smallest, pick_windows};
use crate::rows::copy_rows;
use pixel_formats::Format;
use simd_samples::{ByteLanes, Lanes, LongLanes, WordLanes};

/// Puts what is picked of the square that begins at each position in place of its sample.
fn pick_squares<L: Lanes, P: Pick>(area: Area, channels: usize, patch: &mut [u8])
    requires channels { channels ≤ 4 }
    requires read { L.depth * (read_samples area channels + 16) ≤ length patch.old }
    ensures { (x y c : ℕ) → x < area.width → y < area.height → c < channels
        → sample_at L.depth patch.new (y * (grown area.radius area.width * channels) + (x * channels + c))
        ≡ best P.pick (2 * area.radius + 1) (λ i. best P.pick (2 * area.radius + 1) (λ j.
        sample_at L.depth patch.old ((y + j) * (grown area.radius area.width * channels) + ((x + i) * channels + c)))) }
{
    let side = area.side();
    let stride = area.stride(channels);
    pick_windows::<L, P>(patch, stride, side, area.read_rows() * stride);
    pick_windows::<L, P>(patch, channels, side, area.height * stride);
}

/// Writes what is picked of the square around each position. The patch is overwritten.
fn pick_part<L: Lanes, P: Pick>(format: Format, area: Area, patch: &mut [u8], dst: &mut [u8])
    requires depth { depth format ≡ L.depth }
    requires read { depth format * (read_samples area (channels format) + 16) ≤ length patch.old }
    requires written { length dst.old ≡ depth format * written_samples area (channels format) }
    ensures { (f : ℕ → ℕ → ℕ → ℕ) (u v : ℕ)
        → HoldsPart format (grown area.radius area.width) (grown area.radius area.height) patch.old f u v
        → HoldsPart format area.width area.height dst.new
        (λ s t c. best P.pick (2 * area.radius + 1) (λ i. best P.pick (2 * area.radius + 1) (λ j. f (s + i) (t + j) c))) u v }
{
    let channels = format.channels() as usize;
    pick_squares::<L, P>(area, channels, patch);
    let count = area.width * channels;
    copy_rows::<L>(patch, area.stride(channels), dst, count, area.height);
}

/// Writes what is picked of the square around each position, at the depth of the format. The patch is
/// overwritten.
fn pick_format<P: Pick>(format: Format, area: Area, patch: &mut [u8], dst: &mut [u8])
    requires read { depth format * (read_samples area (channels format) + 16) ≤ length patch.old }
    requires written { length dst.old ≡ depth format * written_samples area (channels format) }
    ensures { (f : ℕ → ℕ → ℕ → ℕ) (u v : ℕ)
        → HoldsPart format (grown area.radius area.width) (grown area.radius area.height) patch.old f u v
        → HoldsPart format area.width area.height dst.new
        (λ s t c. best P.pick (2 * area.radius + 1) (λ i. best P.pick (2 * area.radius + 1) (λ j. f (s + i) (t + j) c))) u v }
{
    match format.depth() {
        1 => pick_part::<ByteLanes, P>(format, area, patch, dst),
        2 => pick_part::<WordLanes, P>(format, area, patch, dst),
        4 => pick_part::<LongLanes, P>(format, area, patch, dst),
        _ => unreachable!(),
    }
}

/// Writes the largest sample of the square around each position, in each channel. The patch has the
/// part of the result grown by the radius, read under a policy, and at least sixteen samples after
/// it; it is overwritten. The cost grows with the part that is read and the logarithm of the radius.
pub fn area_max(format: Format, area: Area, patch: &mut [u8], dst: &mut [u8])
    requires read { depth format * (read_samples area (channels format) + 16) ≤ length patch.old }
    requires written { length dst.old ≡ depth format * written_samples area (channels format) }
    ensures { HoldSquares max_of_all format area patch.old dst.new }
{
    pick_format::<Largest>(format, area, patch, dst);
}

/// Writes the smallest sample of the square around each position, in each channel. The patch has the
/// part of the result grown by the radius, read under a policy, and at least sixteen samples after
/// it; it is overwritten. The cost grows with the part that is read and the logarithm of the radius.
pub fn area_min(format: Format, area: Area, patch: &mut [u8], dst: &mut [u8])
    requires read { depth format * (read_samples area (channels format) + 16) ≤ length patch.old }
    requires written { length dst.old ≡ depth format * written_samples area (channels format) }
    ensures { HoldSquares min_of_all format area patch.old dst.new }
{
    pick_format::<Smallest>(format, area, patch, dst);
}
