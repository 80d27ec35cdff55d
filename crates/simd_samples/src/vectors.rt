//! Vectors of sixteen samples, and several one after the other, in rows of bytes.

ghost use Rattle.std.specs.Prelude.{◌≡◌, ℕ, ◌+◌, ◌*◌, ◌^◌, ◌<◌, ◌≤◌, length, slice_index};
ghost use Rattle.simd_samples.specs.Lanes.{Hold, HoldTwo, HoldThree, HoldFour};
ghost use Rattle.pixel_formats.specs.Sample.{sample_at};

use crate::lanes::Lanes;

/// Returns the byte at which a sample begins.
#[inline(always)]
fn first_byte<L: Lanes>(sample: usize) -> usize
    requires { L.depth * sample < 2 ^ 64 }
    ensures { result ≡ L.depth * sample }
{
    L::BYTES / 16 * sample
}

/// Reads sixteen samples, from sample `from` of a row of bytes on.
#[inline(always)]
pub fn load_at<L: Lanes>(src: &[u8], from: usize) -> L
    requires { L.depth * (from + 16) ≤ length src.now }
    ensures { Hold (L.lane result) (λ j. sample_at L.depth src.now (from + j)) }
{
    L::load(&src[first_byte::<L>(from)..])
}

/// Writes sixteen samples, from sample `from` of a row of bytes on. All others are unchanged, and so
/// are all other bytes.
#[inline(always)]
pub fn store_at<L: Lanes>(lanes: L, dst: &mut [u8], from: usize)
    requires { L.depth * (from + 16) ≤ length dst.old }
    ensures here { Hold (λ j. sample_at L.depth dst.new (from + j)) (L.lane lanes) }
    ensures before { (i : ℕ) → i < from → sample_at L.depth dst.new i ≡ sample_at L.depth dst.old i }
    ensures after { (i : ℕ) → from + 16 ≤ i → sample_at L.depth dst.new i ≡ sample_at L.depth dst.old i }
    ensures bytes_before { (k : ℕ) → k < L.depth * from → slice_index dst.new k ≡ slice_index dst.old k }
    ensures bytes_after { (k : ℕ) → L.depth * (from + 16) ≤ k → slice_index dst.new k ≡ slice_index dst.old k }
{
    lanes.store(&mut dst[first_byte::<L>(from)..]);
}

/// Reads the first thirty-two samples of a row of bytes.
#[inline(always)]
pub fn load_two<L: Lanes>(src: &[u8]) -> (L, L)
    requires { 2 * L.BYTES ≤ length src.now }
    ensures { HoldTwo (L.lane result.0) (L.lane result.1) (sample_at L.depth src.now) }
{
    (load_at(src, 0), load_at(src, 16))
}

/// Reads forty-eight samples of a row of bytes, after `from` times sixteen.
#[inline(always)]
pub fn load_three<L: Lanes>(src: &[u8], from: usize) -> (L, L, L)
    requires { (from + 3) * L.BYTES ≤ length src.now }
    ensures { HoldThree (L.lane result.0) (L.lane result.1) (L.lane result.2) (λ j. sample_at L.depth src.now (16 * from + j)) }
{
    (
        load_at(src, 16 * from),
        load_at(src, 16 * from + 16),
        load_at(src, 16 * from + 32),
    )
}

/// Reads the first sixty-four samples of a row of bytes.
#[inline(always)]
pub fn load_four<L: Lanes>(src: &[u8]) -> (L, L, L, L)
    requires { 4 * L.BYTES ≤ length src.now }
    ensures { HoldFour (L.lane result.0) (L.lane result.1) (L.lane result.2) (L.lane result.3) (sample_at L.depth src.now) }
{
    (
        load_at(src, 0),
        load_at(src, 16),
        load_at(src, 32),
        load_at(src, 48),
    )
}

/// Writes the first thirty-two samples of a row of bytes. Those after them are unchanged.
#[inline(always)]
pub fn store_two<L: Lanes>(first: L, second: L, dst: &mut [u8])
    requires { 2 * L.BYTES ≤ length dst.old }
    ensures here { (s : ℕ → ℕ) → HoldTwo (L.lane first) (L.lane second) s → (i : ℕ) → i < 32 → sample_at L.depth dst.new i ≡ s i }
    ensures after { (k : ℕ) → 2 * L.BYTES ≤ k → slice_index dst.new k ≡ slice_index dst.old k }
{
    store_at(first, dst, 0);
    store_at(second, dst, 16);
}

/// Writes the first forty-eight samples of a row of bytes. Those after them are unchanged.
#[inline(always)]
pub fn store_three<L: Lanes>(first: L, second: L, third: L, dst: &mut [u8])
    requires { 3 * L.BYTES ≤ length dst.old }
    ensures here { (s : ℕ → ℕ) → HoldThree (L.lane first) (L.lane second) (L.lane third) s → (i : ℕ) → i < 48 → sample_at L.depth dst.new i ≡ s i }
    ensures after { (k : ℕ) → 3 * L.BYTES ≤ k → slice_index dst.new k ≡ slice_index dst.old k }
{
    store_two(first, second, dst);
    store_at(third, dst, 32);
}

/// Writes the first sixty-four samples of a row of bytes. Those after them are unchanged.
#[inline(always)]
pub fn store_four<L: Lanes>(first: L, second: L, third: L, fourth: L, dst: &mut [u8])
    requires { 4 * L.BYTES ≤ length dst.old }
    ensures here { (s : ℕ → ℕ) → HoldFour (L.lane first) (L.lane second) (L.lane third) (L.lane fourth) s → (i : ℕ) → i < 64 → sample_at L.depth dst.new i ≡ s i }
    ensures after { (k : ℕ) → 4 * L.BYTES ≤ k → slice_index dst.new k ≡ slice_index dst.old k }
{
    store_three(first, second, third, dst);
    store_at(fourth, dst, 48);
}
