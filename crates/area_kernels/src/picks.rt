//! What picks one of two samples, and what is picked of many.

ghost use Rattle.std.specs.Prelude.{◌≡◌, ℕ, ◌+◌, ◌-◌, ◌*◌, ◌<◌, ◌≤◌, length, max, min};
ghost use Rattle.area_kernels.specs.Sequences.{Picks, best};
ghost use Rattle.area_kernels.specs.PickLaws.{max-Picks, min-Picks};
ghost use Rattle.pixel_formats.specs.Sample.{sample_at};
ghost use Rattle.simd_samples.specs.Lanes.{Hold};

use simd_samples::{Lanes, load_at, store_at};

/// What picks one of two samples.
pub(crate) trait Pick {
    /// The sample that is picked of two.
    ghost pick: { ℕ → ℕ → ℕ };

    /// Picks in each lane.
    fn pick<L: Lanes>(a: L, b: L) -> L
        ensures { Hold (L.lane result) (λ j. pick (L.lane a j) (L.lane b j)) };

    ghost picks: { Picks pick };
}

/// Picks the largest sample.
pub(crate) struct Largest;

impl Pick for Largest {
    ghost pick = { max };

    #[inline(always)]
    fn pick<L: Lanes>(a: L, b: L) -> L {
        a.max(b)
    }

    ghost picks = { max-Picks };
}

/// Picks the smallest sample.
pub(crate) struct Smallest;

impl Pick for Smallest {
    ghost pick = { min };

    #[inline(always)]
    fn pick<L: Lanes>(a: L, b: L) -> L {
        a.min(b)
    }

    ghost picks = { min-Picks };
}

/// Picks, of each of sixteen samples from number `at` on and the one that is `by` samples after it,
/// one, in place. All others are unchanged.
#[inline(always)]
fn pick_block<L: Lanes, P: Pick>(samples: &mut [u8], at: usize, by: usize)
    requires { L.depth * (at + by + 16) ≤ length samples.old }
    ensures here { (j : ℕ) → j < 16 → sample_at L.depth samples.new (at + j)
        ≡ P.pick (sample_at L.depth samples.old (at + j)) (sample_at L.depth samples.old (at + by + j)) }
    ensures before { (i : ℕ) → i < at → sample_at L.depth samples.new i ≡ sample_at L.depth samples.old i }
    ensures after { (i : ℕ) → at + 16 ≤ i → sample_at L.depth samples.new i ≡ sample_at L.depth samples.old i }
{
    let picked = P::pick::<L>(load_at(samples, at), load_at(samples, at + by));
    store_at(picked, samples, at);
}

/// Picks, of each of the first `count` samples and the one that is `by` samples after it, one, in
/// place. Up to fifteen samples after them are overwritten.
fn pick_each<L: Lanes, P: Pick>(samples: &mut [u8], by: usize, count: usize)
    requires { L.depth * (count + by + 16) ≤ length samples.old }
    ensures { (i : ℕ) → i < count → sample_at L.depth samples.new i
        ≡ P.pick (sample_at L.depth samples.old i) (sample_at L.depth samples.old (i + by)) }
{
    for block in 0..count.div_ceil(16) {
        pick_block::<L, P>(samples, 16 * block, by);
    }
}

/// Picks, of each `size` samples that are `by` samples apart and among the first `valid`, one, and
/// puts it in place of the first of them. Doubles how many were picked of, so that the passes grow
/// with the logarithm of `size`.
pub(crate) fn pick_windows<L: Lanes, P: Pick>(
    samples: &mut [u8],
    by: usize,
    size: usize,
    valid: usize,
)
    requires some { 0 < size }
    requires few { size * by ≤ valid }
    requires room { L.depth * (valid + 16) ≤ length samples.old }
    ensures { (i : ℕ) → i + size * by < valid + by → sample_at L.depth samples.new i
        ≡ best P.pick size (λ k. sample_at L.depth samples.old (i + k * by)) }
{
    let mut picked = 1;
    while picked <= size / 2 {
        pick_each::<L, P>(samples, picked * by, valid + by - 2 * picked * by);
        picked *= 2;
    }
    pick_each::<L, P>(samples, (size - picked) * by, valid + by - size * by);
}
