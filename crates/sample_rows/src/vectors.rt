//! Kernels over the vectors of two rows.

ghost use Rattle.std.specs.Prelude.{◌≡◌, ℕ, ◌+◌, ◌*◌, ◌/◌, ◌<◌, length};
ghost use Rattle.sample_rows.specs.Groups.{MapsPairs, SameGroups, groups};
ghost use Rattle.sample_rows.specs.SizeLaws.{some_count, vector_blocks};

use crate::blocks::{PairKernel, transform_rows};
use simd_samples::Lanes;
use std::marker::PhantomData;

/// What is made of two rows, vector by vector.
pub(crate) trait VectorKernel<L: Lanes>: Copy {
    /// What a group of samples of the first row and one of the second become.
    ghost value: { Self → (ℕ → ℕ) → (ℕ → ℕ) → ℕ → ℕ };

    /// How many samples a group has.
    ghost size: { ℕ };

    /// How many groups a vector has.
    ghost count: { ℕ };

    /// Makes one vector of two.
    fn vector(&self, a: L, b: L) -> L
        ensures { (k i : ℕ) → k < count → i < size
            → L.lane result (k * size + i) ≡ value self.now (λ j. L.lane a (k * size + j)) (λ j. L.lane b (k * size + j)) i };

    ghost sixteen: { count * size ≡ 16 };

    /// What two groups become depends on their samples alone.
    ghost value_of_groups: { (s : Self) (a b c d : ℕ → ℕ) → ((i : ℕ) → i < size → a i ≡ c i) → ((i : ℕ) → i < size → b i ≡ d i)
        → (i : ℕ) → i < size → value s a b i ≡ value s c d i };
}

/// A kernel over vectors, as one over blocks of bytes.
#[derive(Clone, Copy)]
struct Vectors<L, K> {
    kernel: K,
    of: PhantomData<L>,
}

impl<L: Lanes, K: VectorKernel<L>> PairKernel for Vectors<L, K> {
    ghost value = { λ s. K.value s.kernel };

    ghost first = { groups K.size L.depth };

    ghost second = { groups K.size L.depth };

    ghost to = { groups K.size L.depth };

    ghost count = { K.count };

    ghost FIRST = { L.BYTES };

    ghost SECOND = { L.BYTES };

    ghost WRITTEN = { L.BYTES };

    const FIRST: usize = L::BYTES;

    const SECOND: usize = L::BYTES;

    const WRITTEN: usize = L::BYTES;

    #[inline(always)]
    fn block(&self, a: &[u8], b: &[u8], dst: &mut [u8]) {
        self.kernel.vector(L::load(a), L::load(b)).store(dst);
    }

    ghost some_groups = { some_count K.count K.size K.sixteen };

    ghost first_blocks = { vector_blocks L.BYTES L.depth L.sixteen L.few L.some_depth K.count K.size K.sixteen };

    ghost second_blocks = { vector_blocks L.BYTES L.depth L.sixteen L.few L.some_depth K.count K.size K.sixteen };

    ghost written_blocks = { vector_blocks L.BYTES L.depth L.sixteen L.few L.some_depth K.count K.size K.sixteen };
}

/// Makes one row of two others, vector by vector.
pub(crate) fn transform_vectors<L: Lanes, K: VectorKernel<L>>(
    kernel: K,
    a: &[u8],
    b: &[u8],
    dst: &mut [u8],
)
    requires first { SameGroups (groups K.size L.depth) (groups K.size L.depth) a.now dst.old }
    requires second { SameGroups (groups K.size L.depth) (groups K.size L.depth) b.now dst.old }
    ensures { MapsPairs (groups K.size L.depth) (groups K.size L.depth) (groups K.size L.depth) (length dst.new / (K.size * L.depth))
        (K.value kernel) a.now b.now dst.new }
{
    let vectors = Vectors::<L, K> {
        kernel,
        of: PhantomData,
    };
    transform_rows(&vectors, a, b, dst);
}
