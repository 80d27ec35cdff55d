//! Scaling a row by a mask.

ghost use Rattle.std.specs.Prelude.{◌≡◌, ℕ, ◌+◌, ◌*◌, ◌/◌, ◌%◌, ◌<◌, ◌≤◌, length, refl};
ghost use Rattle.std.proofs.Common.{rules};
ghost use Rattle.pixel_formats.specs.Format.{depth, max_sample_of, pixel_bytes};
ghost use Rattle.pixel_formats.specs.Mask.{masked_pixel, scaled_by};
ghost use Rattle.pixel_formats.specs.Row.{HasPixels, pixel_at, pixel_count, sample_at};
ghost use Rattle.sample_rows.specs.Groups.{MapsPairs, SameGroups, groups};
ghost use Rattle.sample_rows.specs.SizeLaws.{planes_blocks, vector_blocks};

use crate::blocks::{PairKernel, transform_rows};
use crate::depths::{Depth, depth_of};
use pixel_formats::Format;
use simd_pixels::{Colors, ColorsAlpha, Gray, GrayAlpha, Planes};
use simd_samples::{ByteLanes, Lanes, LongLanes, WordLanes};
use std::marker::PhantomData;

/// Pixels scaled each by a sample of its own.
#[derive(Clone, Copy)]
struct Mask<L, P> {
    of: PhantomData<(L, P)>,
}

impl<L: Lanes, P: Planes<L>> PairKernel for Mask<L, P> {
    ghost value = { λ s pixel mask i. scaled_by (max_sample_of L.depth) (pixel i) (mask 0) };

    ghost first = { groups P.channels L.depth };

    ghost second = { groups 1 L.depth };

    ghost to = { groups P.channels L.depth };

    ghost count = { 16 };

    ghost FIRST = { P.BYTES };

    ghost SECOND = { L.BYTES };

    ghost WRITTEN = { P.BYTES };

    const FIRST: usize = P::BYTES;

    const SECOND: usize = L::BYTES;

    const WRITTEN: usize = P::BYTES;

    #[inline(always)]
    fn block(&self, a: &[u8], b: &[u8], dst: &mut [u8]) {
        P::load(a).scale_by(L::load(b)).store(dst);
    }

    ghost some_groups = { Prim.search rules };

    ghost first_blocks = { planes_blocks L.BYTES L.depth L.sixteen L.few L.some_depth P.channels P.BYTES P.sizes };

    ghost second_blocks = { vector_blocks L.BYTES L.depth L.sixteen L.few L.some_depth 16 1 refl };

    ghost written_blocks = { planes_blocks L.BYTES L.depth L.sixteen L.few L.some_depth P.channels P.BYTES P.sizes };
}

/// Writes the row `src` to `dst` with each sample scaled by the mask's sample of its pixel: the
/// largest leaves it as it is, and 0 makes it 0. The mask is a row of gray samples without alpha,
/// as deep as those of `f`.
pub fn row_mask(f: Format, src: &[u8], mask: &[u8], dst: &mut [u8])
    requires whole { length src.now % pixel_bytes f ≡ 0 }
    requires mask_length { length mask.now ≡ pixel_count f src.now * depth f }
    requires same_length { length dst.old ≡ length src.now }
    ensures { HasPixels f dst.new (λ k. masked_pixel f (pixel_at f src.now k) (sample_at (depth f) mask.now k)) }
{
    match depth_of(f) {
        Depth::Byte => mask_samples::<ByteLanes>(f, src, mask, dst),
        Depth::Word => mask_samples::<WordLanes>(f, src, mask, dst),
        Depth::Long => mask_samples::<LongLanes>(f, src, mask, dst),
    }
}

fn mask_samples<L: Lanes>(f: Format, src: &[u8], mask: &[u8], dst: &mut [u8])
    requires depth { depth f ≡ L.depth }
    requires whole { length src.now % pixel_bytes f ≡ 0 }
    requires mask_length { length mask.now ≡ pixel_count f src.now * depth f }
    requires same_length { length dst.old ≡ length src.now }
    ensures { HasPixels f dst.new (λ k. masked_pixel f (pixel_at f src.now k) (sample_at (depth f) mask.now k)) }
{
    match f.channels() {
        1 => mask_pixels::<L, Gray<L>>(src, mask, dst),
        2 => mask_pixels::<L, GrayAlpha<L>>(src, mask, dst),
        3 => mask_pixels::<L, Colors<L>>(src, mask, dst),
        _ => mask_pixels::<L, ColorsAlpha<L>>(src, mask, dst),
    }
}

fn mask_pixels<L: Lanes, P: Planes<L>>(src: &[u8], mask: &[u8], dst: &mut [u8])
    requires first { SameGroups (groups P.channels L.depth) (groups P.channels L.depth) src.now dst.old }
    requires second { SameGroups (groups 1 L.depth) (groups P.channels L.depth) mask.now dst.old }
    ensures { MapsPairs (groups P.channels L.depth) (groups 1 L.depth) (groups P.channels L.depth) (length dst.new / (P.channels * L.depth))
        (λ pixel mask i. scaled_by (max_sample_of L.depth) (pixel i) (mask 0)) src.now mask.now dst.new }
{
    transform_rows(&Mask::<L, P> { of: PhantomData }, src, mask, dst);
}
