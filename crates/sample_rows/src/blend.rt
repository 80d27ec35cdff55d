//! Mixing two rows by a mask.

ghost use Rattle.std.specs.Prelude.{◌≡◌, ℕ, ◌+◌, ◌*◌, ◌/◌, ◌%◌, ◌<◌, ◌≤◌, length, refl};
ghost use Rattle.std.proofs.Common.{rules};
ghost use Rattle.pixel_formats.specs.Blend.{blended, blended_pixel};
ghost use Rattle.pixel_formats.specs.Format.{depth, max_sample_of, pixel_bytes};
ghost use Rattle.pixel_formats.specs.Row.{HasPixels, pixel_at, pixel_count, sample_at};
ghost use Rattle.sample_rows.specs.Groups.{MapsTriples, SameGroups, groups};
ghost use Rattle.sample_rows.specs.SizeLaws.{planes_blocks, vector_blocks};

use crate::blocks::{TripleKernel, transform_triples};
use crate::depths::{Depth, depth_of};
use pixel_formats::Format;
use simd_pixels::{Colors, ColorsAlpha, Gray, GrayAlpha, Planes};
use simd_samples::{ByteLanes, Lanes, LongLanes, WordLanes};
use std::marker::PhantomData;

/// Pixels mixed with others, each by a sample of its own.
#[derive(Clone, Copy)]
struct Blend<L, P> {
    of: PhantomData<(L, P)>,
}

impl<L: Lanes, P: Planes<L>> TripleKernel for Blend<L, P> {
    ghost value = { λ s base made mask i. blended (max_sample_of L.depth) (base i) (made i) (mask 0) };

    ghost first = { groups P.channels L.depth };

    ghost second = { groups P.channels L.depth };

    ghost third = { groups 1 L.depth };

    ghost to = { groups P.channels L.depth };

    ghost count = { 16 };

    ghost FIRST = { P.BYTES };

    ghost SECOND = { P.BYTES };

    ghost THIRD = { L.BYTES };

    ghost WRITTEN = { P.BYTES };

    const FIRST: usize = P::BYTES;

    const SECOND: usize = P::BYTES;

    const THIRD: usize = L::BYTES;

    const WRITTEN: usize = P::BYTES;

    #[inline(always)]
    fn block(&self, a: &[u8], b: &[u8], c: &[u8], dst: &mut [u8]) {
        P::blend(a, b, L::load(c), dst);
    }

    ghost some_groups = { Prim.search rules };

    ghost first_blocks = { planes_blocks L.BYTES L.depth L.sixteen L.few L.some_depth P.channels P.BYTES P.sizes };

    ghost second_blocks = { planes_blocks L.BYTES L.depth L.sixteen L.few L.some_depth P.channels P.BYTES P.sizes };

    ghost third_blocks = { vector_blocks L.BYTES L.depth L.sixteen L.few L.some_depth 16 1 refl };

    ghost written_blocks = { planes_blocks L.BYTES L.depth L.sixteen L.few L.some_depth P.channels P.BYTES P.sizes };
}

/// Writes to `dst` the row `base` mixed with the row `made`, in every channel and rounded to the
/// nearest: where the mask's sample of a pixel is 0, the base is unchanged, and where it is the
/// largest sample, the pixel is that of `made`. The mask is a row of gray samples without alpha,
/// as deep as those of `f`.
pub fn row_blend(f: Format, base: &[u8], made: &[u8], mask: &[u8], dst: &mut [u8])
    requires whole { length base.now % pixel_bytes f ≡ 0 }
    requires made_length { length made.now ≡ length base.now }
    requires mask_length { length mask.now ≡ pixel_count f base.now * depth f }
    requires written_length { length dst.old ≡ length base.now }
    ensures { HasPixels f dst.new (λ k. blended_pixel f (pixel_at f base.now k) (pixel_at f made.now k) (sample_at (depth f) mask.now k)) }
{
    match depth_of(f) {
        Depth::Byte => blend_samples::<ByteLanes>(f, base, made, mask, dst),
        Depth::Word => blend_samples::<WordLanes>(f, base, made, mask, dst),
        Depth::Long => blend_samples::<LongLanes>(f, base, made, mask, dst),
    }
}

fn blend_samples<L: Lanes>(f: Format, base: &[u8], made: &[u8], mask: &[u8], dst: &mut [u8])
    requires depth { depth f ≡ L.depth }
    requires whole { length base.now % pixel_bytes f ≡ 0 }
    requires made_length { length made.now ≡ length base.now }
    requires mask_length { length mask.now ≡ pixel_count f base.now * depth f }
    requires written_length { length dst.old ≡ length base.now }
    ensures { HasPixels f dst.new (λ k. blended_pixel f (pixel_at f base.now k) (pixel_at f made.now k) (sample_at (depth f) mask.now k)) }
{
    match f.channels() {
        1 => blend_pixels::<L, Gray<L>>(base, made, mask, dst),
        2 => blend_pixels::<L, GrayAlpha<L>>(base, made, mask, dst),
        3 => blend_pixels::<L, Colors<L>>(base, made, mask, dst),
        _ => blend_pixels::<L, ColorsAlpha<L>>(base, made, mask, dst),
    }
}

fn blend_pixels<L: Lanes, P: Planes<L>>(base: &[u8], made: &[u8], mask: &[u8], dst: &mut [u8])
    requires first { SameGroups (groups P.channels L.depth) (groups P.channels L.depth) base.now dst.old }
    requires second { SameGroups (groups P.channels L.depth) (groups P.channels L.depth) made.now dst.old }
    requires third { SameGroups (groups 1 L.depth) (groups P.channels L.depth) mask.now dst.old }
    ensures { MapsTriples (groups P.channels L.depth) (groups P.channels L.depth) (groups 1 L.depth) (groups P.channels L.depth) (length dst.new / (P.channels * L.depth))
        (λ base made mask i. blended (max_sample_of L.depth) (base i) (made i) (mask 0)) base.now made.now mask.now dst.new }
{
    transform_triples(&Blend::<L, P> { of: PhantomData }, base, made, mask, dst);
}
