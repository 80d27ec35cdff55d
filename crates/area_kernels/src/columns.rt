//! Sums of columns of samples, which slide from row to row.

ghost use Rattle.std.specs.Prelude.{◌≡◌, ℕ, ◌+◌, ◌-◌, ◌*◌, ◌%◌, ◌<◌, ◌≤◌, length};
ghost use Rattle.area_kernels.specs.{Columns.HoldsColumns, Sequences.sum_of};
ghost use Rattle.pixel_formats.specs.Sample.{max_sample_of, sample_at};

use crate::four_sums::FourSums;
use simd_samples::{Lanes, load_at};

/// How many sums there are: those of the samples of the longest row that is read, of 192 pixels of
/// four channels, and sixteen more.
pub(crate) const COLUMNS: usize = 4 * 192 + 16;

/// Sums of columns of samples, in numbers that have room for the sums of 130 samples. Four of them are
/// read as numbers that have room for the sums of 16,641 samples.
pub(crate) trait ColumnSums<L: Lanes, F: FourSums> {
    /// Each sum.
    ghost sum: { Self → ℕ → ℕ };

    /// One more than the largest number.
    ghost limit: { ℕ };

    /// Returns sums that are 0.
    fn zeros() -> Self
        ensures { (i : ℕ) → sum result i ≡ 0 };

    /// Adds sixteen samples to sums, from number `at` on. All others are unchanged.
    fn add(&mut self, at: usize, coming: L)
        requires { at + 16 ≤ COLUMNS }
        ensures here { (j : ℕ) → j < 16 → sum self.new (at + j) ≡ (sum self.old (at + j) + L.lane coming j) % limit }
        ensures before { (i : ℕ) → i < at → sum self.new i ≡ sum self.old i }
        ensures after { (i : ℕ) → at + 16 ≤ i → sum self.new i ≡ sum self.old i };

    /// Adds sixteen samples to sums, from number `at` on, and takes sixteen others away. All others
    /// are unchanged.
    fn slide(&mut self, at: usize, coming: L, leaving: L)
        requires { at + 16 ≤ COLUMNS }
        ensures here { (j : ℕ) → j < 16 → sum self.new (at + j)
            ≡ ((sum self.old (at + j) + L.lane coming j) % limit + (limit - L.lane leaving j)) % limit }
        ensures before { (i : ℕ) → i < at → sum self.new i ≡ sum self.old i }
        ensures after { (i : ℕ) → at + 16 ≤ i → sum self.new i ≡ sum self.old i };

    /// Returns four sums, from number `at` on.
    fn four(&self, at: usize) -> F
        requires { at + 4 ≤ COLUMNS }
        ensures { (j : ℕ) → j < 4 → F.lane result j ≡ sum self.now (at + j) };

    ghost room: { 130 * max_sample_of L.depth < limit };

    ghost square_room: { 16641 * max_sample_of L.depth < F.limit };
}

/// Adds a row of `count` samples to the sums of columns and takes another away, of which the numbers
/// of the first samples are given. Up to fifteen sums after them are overwritten.
fn slide_row<L: Lanes, F: FourSums, C: ColumnSums<L, F>>(
    samples: &[u8],
    coming: usize,
    leaving: usize,
    columns: &mut C,
    count: usize,
)
    requires coming { L.depth * (coming + count + 16) ≤ length samples.now }
    requires leaving { L.depth * (leaving + count + 16) ≤ length samples.now }
    requires few { count ≤ 768 }
    ensures { (i : ℕ) → i < count → C.sum columns.new i
        ≡ ((C.sum columns.old i + sample_at L.depth samples.now (coming + i)) % C.limit
        + (C.limit - sample_at L.depth samples.now (leaving + i))) % C.limit }
{
    for block in 0..count.div_ceil(16) {
        let at = 16 * block;
        let added = load_at(samples, coming + at);
        let taken = load_at(samples, leaving + at);
        columns.slide(at, added, taken);
    }
}

/// Makes sixteen sums that are 0, from number `at` on, those of the columns of the first `side` rows. All
/// others are unchanged. The rows are read down a block of columns, so that its sums need not be
/// written after each row.
fn sum_block<L: Lanes, F: FourSums, C: ColumnSums<L, F>>(
    samples: &[u8],
    stride: usize,
    side: usize,
    at: usize,
    columns: &mut C,
)
    requires few { side ≤ 129 }
    requires narrow { stride ≤ 768 }
    requires inside { at < stride }
    requires samples { L.depth * (side * stride + 16) ≤ length samples.now }
    requires clear { (j : ℕ) → j < 16 → C.sum columns.old (at + j) ≡ 0 }
    ensures here { (j : ℕ) → j < 16 → C.sum columns.new (at + j)
        ≡ sum_of side (λ row. sample_at L.depth samples.now (row * stride + (at + j))) }
    ensures before { (i : ℕ) → i < at → C.sum columns.new i ≡ C.sum columns.old i }
    ensures after { (i : ℕ) → at + 16 ≤ i → C.sum columns.new i ≡ C.sum columns.old i }
{
    for row in 0..side {
        columns.add(at, load_at(samples, row * stride + at));
    }
}

/// Returns the sums of the columns of the first `side` rows.
pub(crate) fn sum_rows<L: Lanes, F: FourSums, C: ColumnSums<L, F>>(
    samples: &[u8],
    stride: usize,
    side: usize,
) -> C
    requires few { side ≤ 129 }
    requires narrow { stride ≤ 768 }
    requires samples { L.depth * (side * stride + 16) ≤ length samples.now }
    ensures { HoldsColumns L.depth stride side 0 samples.now (C.sum result) }
{
    let mut columns = C::zeros();
    for block in 0..stride.div_ceil(16) {
        sum_block(samples, stride, side, 16 * block, &mut columns);
    }
    columns
}

/// Makes the sums of the columns of `side` rows from row number `first` on those from the row after
/// it on.
pub(crate) fn slide_rows<L: Lanes, F: FourSums, C: ColumnSums<L, F>>(
    samples: &[u8],
    stride: usize,
    side: usize,
    first: usize,
    columns: &mut C,
)
    requires few { side ≤ 129 }
    requires early { first ≤ 64 }
    requires narrow { stride ≤ 768 }
    requires samples { L.depth * ((first + side + 1) * stride + 16) ≤ length samples.now }
    requires columns { HoldsColumns L.depth stride side first samples.now (C.sum columns.old) }
    ensures { HoldsColumns L.depth stride side (first + 1) samples.now (C.sum columns.new) }
{
    let (coming, leaving) = ((first + side) * stride, first * stride);
    slide_row(samples, coming, leaving, columns, stride);
}
