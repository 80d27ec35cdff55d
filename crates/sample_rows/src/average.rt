//! Halving two rows to one.

ghost use Rattle.std.specs.Prelude.{◌≡◌, ℕ, ◌+◌, ◌*◌, ◌/◌, ◌%◌, ◌<◌, ◌≤◌, length, refl};
ghost use Rattle.std.proofs.Common.{rules};
ghost use Rattle.pixel_formats.specs.Average.{mean_of_four, mean_pixel};
ghost use Rattle.pixel_formats.specs.Row.{HasPixels, pixel_at, sample_at};
ghost use Rattle.pixel_formats.specs.Format.{depth, pixel_bytes};
ghost use Rattle.sample_rows.specs.Groups.{MapsPairs, SameGroups, groups};
ghost use Rattle.sample_rows.specs.SizeLaws.{pair_blocks, vector_blocks, vectors_blocks};
ghost use Rattle.sample_rows.specs.Averages.{Averages};
ghost use Rattle.simd_samples.specs.Lanes.{HoldTwo};

use crate::blocks::{PairKernel, transform_rows};
use crate::depths::{Depth, depth_of};
use pixel_formats::Format;
use simd_pixels::{AlphaOfFour, AlphaOfTwo, Layout, Opaque};
use simd_samples::{ByteLanes, Lanes, LongLanes, WordLanes, load_three, load_two, store_three};
use std::marker::PhantomData;

/// Writes to `dst` a row half as long as `up` and `down`, the row below it: each of its pixels is
/// the mean of two neighbors of the one and the two below them, in each channel and rounded to
/// the nearest.
pub fn row_average4(f: Format, up: &[u8], down: &[u8], dst: &mut [u8])
    requires whole { length dst.old % pixel_bytes f ≡ 0 }
    requires up_length { length up.now ≡ 2 * length dst.old }
    requires down_length { length down.now ≡ 2 * length dst.old }
    ensures { HasPixels f dst.new (λ k. mean_pixel
        (pixel_at f up.now (2 * k)) (pixel_at f up.now (2 * k + 1)) (pixel_at f down.now (2 * k)) (pixel_at f down.now (2 * k + 1))) }
{
    match depth_of(f) {
        Depth::Byte => average_samples::<ByteLanes>(f, up, down, dst),
        Depth::Word => average_samples::<WordLanes>(f, up, down, dst),
        Depth::Long => average_samples::<LongLanes>(f, up, down, dst),
    }
}

fn average_samples<L: Lanes>(f: Format, up: &[u8], down: &[u8], dst: &mut [u8])
    requires depth { depth f ≡ L.depth }
    requires whole { length dst.old % pixel_bytes f ≡ 0 }
    requires up_length { length up.now ≡ 2 * length dst.old }
    requires down_length { length down.now ≡ 2 * length dst.old }
    ensures { HasPixels f dst.new (λ k. mean_pixel
        (pixel_at f up.now (2 * k)) (pixel_at f up.now (2 * k + 1)) (pixel_at f down.now (2 * k)) (pixel_at f down.now (2 * k + 1))) }
{
    match f.channels() {
        1 => average_pixels::<L, Opaque>(up, down, dst),
        2 => average_pixels::<L, AlphaOfTwo>(up, down, dst),
        3 => average_colors::<L>(up, down, dst),
        _ => average_pixels::<L, AlphaOfFour>(up, down, dst),
    }
}

fn average_pixels<L: Lanes, P: Layout>(up: &[u8], down: &[u8], dst: &mut [u8])
    requires first { SameGroups (groups (2 * P.channels) L.depth) (groups P.channels L.depth) up.now dst.old }
    requires second { SameGroups (groups (2 * P.channels) L.depth) (groups P.channels L.depth) down.now dst.old }
    ensures { Averages P.channels L.depth up.now down.now dst.new }
{
    transform_rows(&Average::<L, P> { of: PhantomData }, up, down, dst);
}

fn average_colors<L: Lanes>(up: &[u8], down: &[u8], dst: &mut [u8])
    requires first { SameGroups (groups 6 L.depth) (groups 3 L.depth) up.now dst.old }
    requires second { SameGroups (groups 6 L.depth) (groups 3 L.depth) down.now dst.old }
    ensures { Averages 3 L.depth up.now down.now dst.new }
{
    transform_rows(&AverageColors::<L> { of: PhantomData }, up, down, dst);
}

/// The means of two pixels of one row and the two below them.
#[derive(Clone, Copy)]
struct Average<L, P> {
    of: PhantomData<(L, P)>,
}

impl<L: Lanes, P: Layout> PairKernel for Average<L, P> {
    ghost value = { λ s up down i. mean_of_four (up i) (up (P.channels + i)) (down i) (down (P.channels + i)) };

    ghost first = { groups (2 * P.channels) L.depth };

    ghost second = { groups (2 * P.channels) L.depth };

    ghost to = { groups P.channels L.depth };

    ghost count = { P.pixels };

    ghost FIRST = { 2 * L.BYTES };

    ghost SECOND = { 2 * L.BYTES };

    ghost WRITTEN = { L.BYTES };

    const FIRST: usize = 2 * L::BYTES;

    const SECOND: usize = 2 * L::BYTES;

    const WRITTEN: usize = L::BYTES;

    #[inline(always)]
    fn block(&self, a: &[u8], b: &[u8], dst: &mut [u8]) {
        mean_of_pixels::<L, P>(load_two(a), load_two(b)).store(dst);
    }

    ghost some_groups = { P.some_pixels };

    ghost first_blocks = { pair_blocks L.BYTES L.depth L.sixteen L.few L.some_depth P.pixels P.channels P.sixteen };

    ghost second_blocks = { pair_blocks L.BYTES L.depth L.sixteen L.few L.some_depth P.pixels P.channels P.sixteen };

    ghost written_blocks = { vector_blocks L.BYTES L.depth L.sixteen L.few L.some_depth P.pixels P.channels P.sixteen };
}

/// Returns the means of each two pixels of two vectors and the two of two others.
#[inline(always)]
fn mean_of_pixels<L: Lanes, P: Layout>(up: (L, L), down: (L, L)) -> L
    ensures { (s t : ℕ → ℕ) → HoldTwo (L.lane up.0) (L.lane up.1) s → HoldTwo (L.lane down.0) (L.lane down.1) t
        → (k i : ℕ) → k < P.pixels → i < P.channels → L.lane result (k * P.channels + i)
        ≡ mean_of_four (s (k * (2 * P.channels) + i)) (s (k * (2 * P.channels) + (P.channels + i)))
        (t (k * (2 * P.channels) + i)) (t (k * (2 * P.channels) + (P.channels + i))) }
{
    let (first, second) = P::halves(up.0, up.1);
    let (third, fourth) = P::halves(down.0, down.1);
    first.mean_of_four(second, third, fourth)
}

/// The same of pixels of three colors, which do not fill vectors.
#[derive(Clone, Copy)]
struct AverageColors<L> {
    of: PhantomData<L>,
}

impl<L: Lanes> PairKernel for AverageColors<L> {
    ghost value = { λ s up down i. mean_of_four (up i) (up (3 + i)) (down i) (down (3 + i)) };

    ghost first = { groups 6 L.depth };

    ghost second = { groups 6 L.depth };

    ghost to = { groups 3 L.depth };

    ghost count = { 16 };

    ghost FIRST = { 6 * L.BYTES };

    ghost SECOND = { 6 * L.BYTES };

    ghost WRITTEN = { 3 * L.BYTES };

    const FIRST: usize = 6 * L::BYTES;

    const SECOND: usize = 6 * L::BYTES;

    const WRITTEN: usize = 3 * L::BYTES;

    #[inline(always)]
    fn block(&self, a: &[u8], b: &[u8], dst: &mut [u8]) {
        let up = load_colors::<L>(a);
        let down = load_colors::<L>(b);
        let red = mean_of_pixels::<L, Opaque>(up.red, down.red);
        let green = mean_of_pixels::<L, Opaque>(up.green, down.green);
        let blue = mean_of_pixels::<L, Opaque>(up.blue, down.blue);
        let (first, second, third) = red.join_thirds(green, blue);
        store_three(first, second, third, dst);
    }

    ghost some_groups = { Prim.search rules };

    ghost first_blocks = { vectors_blocks L.BYTES L.depth L.sixteen L.few L.some_depth 6 (6 * L.BYTES) refl (Prim.search rules) (Prim.search rules) };

    ghost second_blocks = { vectors_blocks L.BYTES L.depth L.sixteen L.few L.some_depth 6 (6 * L.BYTES) refl (Prim.search rules) (Prim.search rules) };

    ghost written_blocks = { vectors_blocks L.BYTES L.depth L.sixteen L.few L.some_depth 3 (3 * L.BYTES) refl (Prim.search rules) (Prim.search rules) };
}

/// The planes of thirty-two pixels of three colors, each of two vectors.
#[derive(Clone, Copy)]
struct WideColors<L> {
    red: (L, L),
    green: (L, L),
    blue: (L, L),
}

#[inline(always)]
fn load_colors<L: Lanes>(src: &[u8]) -> WideColors<L>
    requires { 6 * L.BYTES ≤ length src.now }
    ensures red { HoldTwo (L.lane result.red.0) (L.lane result.red.1) (λ j. sample_at L.depth src.now (3 * j)) }
    ensures green { HoldTwo (L.lane result.green.0) (L.lane result.green.1) (λ j. sample_at L.depth src.now (3 * j + 1)) }
    ensures blue { HoldTwo (L.lane result.blue.0) (L.lane result.blue.1) (λ j. sample_at L.depth src.now (3 * j + 2)) }
{
    let (first, second, third) = load_three::<L>(src, 0);
    let (fourth, fifth, sixth) = load_three::<L>(src, 3);
    let near = first.split_thirds(second, third);
    let far = fourth.split_thirds(fifth, sixth);
    WideColors {
        red: (near.0, far.0),
        green: (near.1, far.1),
        blue: (near.2, far.2),
    }
}
