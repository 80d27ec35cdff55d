//! The means of squares.

ghost use Rattle.std.specs.Prelude.{◌≡◌, ℕ, ◌+◌, ◌*◌, ◌/◌, ◌<◌, ◌≤◌, length};
ghost use Rattle.area_kernels.specs.Parts.{HoldSquares, grown, read_samples, written_samples};
ghost use Rattle.area_kernels.specs.Sequences.{mean_sum, sum_of};
ghost use Rattle.area_kernels.specs.Columns.{HoldsColumns};
ghost use Rattle.model_operations.specs.Windows.{mean_of, window_side};
ghost use Rattle.pixel_formats.specs.Format.{channels, depth};
ghost use Rattle.pixel_formats.specs.Sample.{max_sample_of, sample_at};

use crate::area::Area;
use crate::column_numbers::{ByteColumns, LongColumns, WordColumns};
use crate::columns::{ColumnSums, slide_rows, sum_rows};
use crate::four_sums::FourSums;
use crate::rows::copy_samples;
use crate::square_numbers::{LongSquares, WideSquares};
use crate::square_sums::{SUMS, SquareSums, divide_row};
use crate::sums::sum_row;
use pixel_formats::Format;
use simd_samples::{ByteLanes, FourLanes, FourLongLanes, Lanes, LongLanes, WordLanes};

/// The bytes of as many samples of four bytes as there are sums.
const MEAN_BYTES: usize = 4 * SUMS;

/// Writes the means of the squares of a row, of which the sums of columns are given. The sums after
/// the row are zeros before and after.
fn mean_row<L: Lanes, F: FourSums, C: ColumnSums<L, F>, S: SquareSums<L, F>>(
    area: Area,
    channels: usize,
    divisor: S::Divisor,
    columns: &C,
    squares: &mut S,
    means: &mut [u8],
)
    requires channels { channels ≤ 4 }
    requires count { S.count divisor ≡ (2 * area.radius + 1) * (2 * area.radius + 1) }
    requires small { (i : ℕ) → i < grown area.radius area.width * channels
        → C.sum columns.now i ≤ (2 * area.radius + 1) * max_sample_of L.depth }
    requires means { L.depth * (area.width * channels + 16) ≤ length means.old }
    requires clear { (i : ℕ) → area.width * channels ≤ i → S.sum squares.old i ≡ 0 }
    ensures made { (x c : ℕ) → x < area.width → c < channels → sample_at L.depth means.new (x * channels + c)
        ≡ mean_sum (S.count divisor) (sum_of (2 * area.radius + 1) (λ i. C.sum columns.now ((x + i) * channels + c))) }
    ensures clear { (i : ℕ) → area.width * channels ≤ i → S.sum squares.new i ≡ 0 }
{
    sum_row::<L, F, C, S>(columns, channels, 2 * area.radius, area.width, squares);
    divide_row::<L, F, S>(squares, divisor, means, area.width * channels);
}

/// Makes the sums of columns those of the rows from the next one on, where the result has a row
/// there.
fn next_columns<L: Lanes, F: FourSums, C: ColumnSums<L, F>>(
    patch: &[u8],
    stride: usize,
    area: Area,
    row: usize,
    columns: &mut C,
)
    requires row { row < area.height }
    requires narrow { stride ≤ 768 }
    requires patch { L.depth * ((area.height + 2 * area.radius) * stride + 16) ≤ length patch.now }
    requires columns { HoldsColumns L.depth stride (2 * area.radius + 1) row patch.now (C.sum columns.old) }
    ensures { row + 1 < area.height → HoldsColumns L.depth stride (2 * area.radius + 1) (row + 1) patch.now (C.sum columns.new) }
{
    if row + 1 < area.height {
        slide_rows::<L, F, C>(patch, stride, area.side(), row, columns);
    }
}

/// Writes the means of the squares of all rows.
fn mean_rows<L: Lanes, F: FourSums, C: ColumnSums<L, F> + Drop, S: SquareSums<L, F> + Drop>(
    area: Area,
    channels: usize,
    patch: &[u8],
    dst: &mut [u8],
)
    requires channels { channels ≤ 4 }
    requires read { L.depth * (read_samples area channels + 16) ≤ length patch.now }
    requires written { L.depth * written_samples area channels ≤ length dst.old }
    ensures { (x y c : ℕ) → x < area.width → y < area.height → c < channels
        → sample_at L.depth dst.new (y * (area.width * channels) + (x * channels + c))
        ≡ mean_sum ((2 * area.radius + 1) * (2 * area.radius + 1)) (sum_of (2 * area.radius + 1) (λ i. sum_of (2 * area.radius + 1) (λ j.
        sample_at L.depth patch.now ((y + j) * (grown area.radius area.width * channels) + ((x + i) * channels + c))))) }
{
    let side = area.side();
    let stride = area.stride(channels);
    let count = area.width * channels;
    let divisor = S::divisor((side * side) as u32);
    let mut squares = S::zeros();
    let mut means = [0; MEAN_BYTES];
    let mut columns = sum_rows::<L, F, C>(patch, stride, side);
    for y in 0..area.height {
        mean_row::<L, F, C, S>(area, channels, divisor, &columns, &mut squares, &mut means);
        copy_samples::<L>(&means, 0, dst, y * count, count);
        next_columns::<L, F, C>(patch, stride, area, y, &mut columns);
    }
}

/// Writes the means of the squares of a part.
fn mean_part<L: Lanes, F: FourSums, C: ColumnSums<L, F> + Drop, S: SquareSums<L, F> + Drop>(
    format: Format,
    area: Area,
    patch: &[u8],
    dst: &mut [u8],
)
    requires depth { depth format ≡ L.depth }
    requires read { depth format * (read_samples area (channels format) + 16) ≤ length patch.now }
    requires written { length dst.old ≡ depth format * written_samples area (channels format) }
    ensures { HoldSquares (mean_of (window_side area.radius * window_side area.radius)) format area patch.now dst.new }
{
    mean_rows::<L, F, C, S>(area, format.channels() as usize, patch, dst);
}

/// Writes the mean of the square around each position, rounded to the nearest, in each channel. The
/// patch has the part of the result grown by the radius, read under a policy, and at least sixteen
/// samples after it. The cost grows with the part that is read, and not with the number of samples
/// of a square.
pub fn area_mean(format: Format, area: Area, patch: &[u8], dst: &mut [u8])
    requires read { depth format * (read_samples area (channels format) + 16) ≤ length patch.now }
    requires written { length dst.old ≡ depth format * written_samples area (channels format) }
    ensures { HoldSquares (mean_of (window_side area.radius * window_side area.radius)) format area patch.now dst.new }
{
    match format.depth() {
        1 => mean_part::<ByteLanes, FourLanes, ByteColumns, WideSquares>(format, area, patch, dst),
        2 => mean_part::<WordLanes, FourLanes, WordColumns, WideSquares>(format, area, patch, dst),
        4 => mean_part::<LongLanes, FourLongLanes, LongColumns, LongSquares>(
            format, area, patch, dst,
        ),
        _ => unreachable!(),
    }
}
