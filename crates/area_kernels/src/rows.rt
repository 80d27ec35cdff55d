//! Rows of samples that are copied.

ghost use Rattle.std.specs.Prelude.{◌≡◌, ℕ, ◌+◌, ◌*◌, ◌<◌, ◌≤◌, length};
ghost use Rattle.pixel_formats.specs.Sample.{sample_at};

use simd_samples::Lanes;

/// Copies `count` samples from number `first` of a row on to number `at` of another on. All others
/// are unchanged.
pub(crate) fn copy_samples<L: Lanes>(
    from: &[u8],
    first: usize,
    to: &mut [u8],
    at: usize,
    count: usize,
)
    requires read { L.depth * (first + count) ≤ length from.now }
    requires written { L.depth * (at + count) ≤ length to.old }
    ensures here { (i : ℕ) → i < count → sample_at L.depth to.new (at + i) ≡ sample_at L.depth from.now (first + i) }
    ensures before { (i : ℕ) → i < at → sample_at L.depth to.new i ≡ sample_at L.depth to.old i }
{
    let bytes = L::BYTES / 16;
    let source = &from[bytes * first..bytes * (first + count)];
    to[bytes * at..bytes * (at + count)].copy_from_slice(source);
}

/// Copies the first `count` samples of each of so many rows, which begin `stride` samples apart, to
/// rows that follow one another.
pub(crate) fn copy_rows<L: Lanes>(
    from: &[u8],
    stride: usize,
    to: &mut [u8],
    count: usize,
    rows: usize,
)
    requires narrow { count ≤ stride }
    requires read { L.depth * (rows * stride) ≤ length from.now }
    requires written { L.depth * (rows * count) ≤ length to.old }
    ensures { (y i : ℕ) → y < rows → i < count → sample_at L.depth to.new (y * count + i) ≡ sample_at L.depth from.now (y * stride + i) }
{
    for y in 0..rows {
        copy_samples::<L>(from, y * stride, to, y * count, count);
    }
}
