//! Kernels over blocks of bytes, and the rows that are made by them.

ghost use Rattle.std.specs.Prelude.{◌≡◌, ℕ, ◌+◌, ◌*◌, ◌/◌, ◌<◌, ◌≤◌, length, slice_index};
ghost use Rattle.sample_rows.specs.Groups.{Blocks, Groups, group_at, group_bytes, Maps, MapsPairs, MapsTriples, SameGroups};

/// The most bytes that a block has.
const MAX_BLOCK_BYTES: usize = 384;

/// What is made of three rows, block by block.
pub(crate) trait TripleKernel {
    /// What a group of samples of each of the three rows become.
    ghost value: { Self → (ℕ → ℕ) → (ℕ → ℕ) → (ℕ → ℕ) → ℕ → ℕ };

    /// How the samples of the first row are grouped.
    ghost first: { Groups };

    /// How the samples of the second row are grouped.
    ghost second: { Groups };

    /// How the samples of the third row are grouped.
    ghost third: { Groups };

    /// How the samples of the row that is written are grouped.
    ghost to: { Groups };

    /// How many groups a block has.
    ghost count: { ℕ };

    ghost FIRST: { ℕ };

    ghost SECOND: { ℕ };

    ghost THIRD: { ℕ };

    ghost WRITTEN: { ℕ };

    /// The bytes of a block of the first row.
    const FIRST: usize;

    /// The bytes of a block of the second row.
    const SECOND: usize;

    /// The bytes of a block of the third row.
    const THIRD: usize;

    /// The bytes of a block that is written.
    const WRITTEN: usize;

    /// Reads the first block of each of three rows and writes the first of another.
    fn block(&self, a: &[u8], b: &[u8], c: &[u8], dst: &mut [u8])
        requires first { FIRST ≤ length a.now }
        requires second { SECOND ≤ length b.now }
        requires third { THIRD ≤ length c.now }
        requires written { WRITTEN ≤ length dst.old }
        ensures { MapsTriples first second third to count (value self.now) a.now b.now c.now dst.new };

    ghost some_groups: { 0 < count };

    ghost first_blocks: { Blocks FIRST count first };

    ghost second_blocks: { Blocks SECOND count second };

    ghost third_blocks: { Blocks THIRD count third };

    ghost written_blocks: { Blocks WRITTEN count to };
}

/// Makes one row of three others.
pub(crate) fn transform_triples<K: TripleKernel>(
    kernel: &K,
    a: &[u8],
    b: &[u8],
    c: &[u8],
    dst: &mut [u8],
)
    requires first { SameGroups K.first K.to a.now dst.old }
    requires second { SameGroups K.second K.to b.now dst.old }
    requires third { SameGroups K.third K.to c.now dst.old }
    ensures { MapsTriples K.first K.second K.third K.to (length dst.new / group_bytes K.to) (K.value kernel.now) a.now b.now c.now dst.new }
{
    let blocks = dst.len() / K::WRITTEN;
    for block in 0..blocks {
        transform_block(kernel, a, b, c, dst, block);
    }
    if dst.len() % K::WRITTEN > 0 {
        transform_rest(kernel, a, b, c, dst, blocks);
    }
}

/// Makes block number `block` of a row.
#[inline(always)]
fn transform_block<K: TripleKernel>(
    kernel: &K,
    a: &[u8],
    b: &[u8],
    c: &[u8],
    dst: &mut [u8],
    block: usize,
)
    requires first { (block + 1) * K.FIRST ≤ length a.now }
    requires second { (block + 1) * K.SECOND ≤ length b.now }
    requires third { (block + 1) * K.THIRD ≤ length c.now }
    requires written { (block + 1) * K.WRITTEN ≤ length dst.old }
    ensures kept { (p : ℕ) → p < block * K.WRITTEN → slice_index dst.new p ≡ slice_index dst.old p }
    ensures made { (k i : ℕ) → k < K.count → i < K.to.size
        → group_at K.to dst.new (block * K.count + k) i
        ≡ K.value kernel.now (group_at K.first a.now (block * K.count + k)) (group_at K.second b.now (block * K.count + k)) (group_at K.third c.now (block * K.count + k)) i }
{
    kernel.block(
        &a[K::FIRST * block..],
        &b[K::SECOND * block..],
        &c[K::THIRD * block..],
        &mut dst[K::WRITTEN * block..],
    );
}

/// Makes what is left of a row after so many blocks, which is less than a block.
fn transform_rest<K: TripleKernel>(
    kernel: &K,
    a: &[u8],
    b: &[u8],
    c: &[u8],
    dst: &mut [u8],
    blocks: usize,
)
    requires first_begun { blocks * K.FIRST ≤ length a.now }
    requires first_short { length a.now < (blocks + 1) * K.FIRST }
    requires second_begun { blocks * K.SECOND ≤ length b.now }
    requires second_short { length b.now < (blocks + 1) * K.SECOND }
    requires third_begun { blocks * K.THIRD ≤ length c.now }
    requires third_short { length c.now < (blocks + 1) * K.THIRD }
    requires written_begun { blocks * K.WRITTEN ≤ length dst.old }
    requires written_short { length dst.old < (blocks + 1) * K.WRITTEN }
    ensures kept { (p : ℕ) → p < blocks * K.WRITTEN → slice_index dst.new p ≡ slice_index dst.old p }
    ensures made { (k i : ℕ) → blocks * K.count + k < length dst.old / group_bytes K.to → i < K.to.size
        → group_at K.to dst.new (blocks * K.count + k) i
        ≡ K.value kernel.now (group_at K.first a.now (blocks * K.count + k)) (group_at K.second b.now (blocks * K.count + k)) (group_at K.third c.now (blocks * K.count + k)) i }
{
    let first = padded(&a[K::FIRST * blocks..]);
    let second = padded(&b[K::SECOND * blocks..]);
    let third = padded(&c[K::THIRD * blocks..]);
    let mut written = [0; MAX_BLOCK_BYTES];
    kernel.block(&first, &second, &third, &mut written);
    let rest = &mut dst[K::WRITTEN * blocks..];
    let len = rest.len();
    rest.copy_from_slice(&written[..len]);
}

/// Returns the bytes of a row, and zeros after it.
fn padded(row: &[u8]) -> [u8; MAX_BLOCK_BYTES]
    requires { length row.now ≤ 384 }
    ensures { (p : ℕ) → slice_index result p ≡ slice_index row.now p }
{
    let mut bytes = [0; MAX_BLOCK_BYTES];
    bytes[..row.len()].copy_from_slice(row);
    bytes
}

/// What is made of two rows, block by block.
pub(crate) trait PairKernel: Copy {
    /// What a group of samples of the first row and one of the second become.
    ghost value: { Self → (ℕ → ℕ) → (ℕ → ℕ) → ℕ → ℕ };

    /// How the samples of the first row are grouped.
    ghost first: { Groups };

    /// How the samples of the second row are grouped.
    ghost second: { Groups };

    /// How the samples of the row that is written are grouped.
    ghost to: { Groups };

    /// How many groups a block has.
    ghost count: { ℕ };

    ghost FIRST: { ℕ };

    ghost SECOND: { ℕ };

    ghost WRITTEN: { ℕ };

    /// The bytes of a block of the first row.
    const FIRST: usize;

    /// The bytes of a block of the second row.
    const SECOND: usize;

    /// The bytes of a block that is written.
    const WRITTEN: usize;

    /// Reads the first block of each of two rows and writes the first of another.
    fn block(&self, a: &[u8], b: &[u8], dst: &mut [u8])
        requires first { FIRST ≤ length a.now }
        requires second { SECOND ≤ length b.now }
        requires written { WRITTEN ≤ length dst.old }
        ensures { MapsPairs first second to count (value self.now) a.now b.now dst.new };

    ghost some_groups: { 0 < count };

    ghost first_blocks: { Blocks FIRST count first };

    ghost second_blocks: { Blocks SECOND count second };

    ghost written_blocks: { Blocks WRITTEN count to };
}

/// A kernel over two rows, as one over three rows that leaves the third aside.
#[derive(Clone, Copy)]
struct Both<K>(K);

impl<K: PairKernel> TripleKernel for Both<K> {
    ghost value = { λ k a b c. K.value k.0 a b };

    ghost first = { K.first };

    ghost second = { K.second };

    ghost third = { K.first };

    ghost to = { K.to };

    ghost count = { K.count };

    ghost FIRST = { K.FIRST };

    ghost SECOND = { K.SECOND };

    ghost THIRD = { K.FIRST };

    ghost WRITTEN = { K.WRITTEN };

    const FIRST: usize = K::FIRST;

    const SECOND: usize = K::SECOND;

    const THIRD: usize = K::FIRST;

    const WRITTEN: usize = K::WRITTEN;

    #[inline(always)]
    fn block(&self, a: &[u8], b: &[u8], _c: &[u8], dst: &mut [u8]) {
        self.0.block(a, b, dst);
    }

    ghost some_groups = { K.some_groups };

    ghost first_blocks = { K.first_blocks };

    ghost second_blocks = { K.second_blocks };

    ghost third_blocks = { K.first_blocks };

    ghost written_blocks = { K.written_blocks };
}

/// Makes one row of two others.
pub(crate) fn transform_rows<K: PairKernel>(kernel: &K, a: &[u8], b: &[u8], dst: &mut [u8])
    requires first { SameGroups K.first K.to a.now dst.old }
    requires second { SameGroups K.second K.to b.now dst.old }
    ensures { MapsPairs K.first K.second K.to (length dst.new / group_bytes K.to) (K.value kernel.now) a.now b.now dst.new }
{
    transform_triples(&Both(*kernel), a, b, a, dst);
}

/// What is made of one row, block by block.
pub(crate) trait RowKernel: Copy {
    /// What a group of samples becomes.
    ghost value: { Self → (ℕ → ℕ) → ℕ → ℕ };

    /// How the samples of the row that is read are grouped.
    ghost from: { Groups };

    /// How the samples of the row that is written are grouped.
    ghost to: { Groups };

    /// How many groups a block has.
    ghost count: { ℕ };

    ghost READ: { ℕ };

    ghost WRITTEN: { ℕ };

    /// The bytes of a block that is read.
    const READ: usize;

    /// The bytes of a block that is written.
    const WRITTEN: usize;

    /// Reads the first block of one row and writes the first of the other.
    fn block(&self, src: &[u8], dst: &mut [u8])
        requires read { READ ≤ length src.now }
        requires written { WRITTEN ≤ length dst.old }
        ensures { Maps from to count (value self.now) src.now dst.new };

    ghost some_groups: { 0 < count };

    ghost read_blocks: { Blocks READ count from };

    ghost written_blocks: { Blocks WRITTEN count to };
}

/// A kernel over one row, as one over two rows that leaves the second aside.
#[derive(Clone, Copy)]
struct Alone<K>(K);

impl<K: RowKernel> PairKernel for Alone<K> {
    ghost value = { λ k a b. K.value k.0 a };

    ghost first = { K.from };

    ghost second = { K.from };

    ghost to = { K.to };

    ghost count = { K.count };

    ghost FIRST = { K.READ };

    ghost SECOND = { K.READ };

    ghost WRITTEN = { K.WRITTEN };

    const FIRST: usize = K::READ;

    const SECOND: usize = K::READ;

    const WRITTEN: usize = K::WRITTEN;

    #[inline(always)]
    fn block(&self, a: &[u8], _b: &[u8], dst: &mut [u8]) {
        self.0.block(a, dst);
    }

    ghost some_groups = { K.some_groups };

    ghost first_blocks = { K.read_blocks };

    ghost second_blocks = { K.read_blocks };

    ghost written_blocks = { K.written_blocks };
}

/// Makes one row of another.
pub(crate) fn transform_row<K: RowKernel>(kernel: K, src: &[u8], dst: &mut [u8])
    requires { SameGroups K.from K.to src.now dst.old }
    ensures { Maps K.from K.to (length dst.new / group_bytes K.to) (K.value kernel) src.now dst.new }
{
    transform_rows(&Alone(kernel), src, src, dst);
}
