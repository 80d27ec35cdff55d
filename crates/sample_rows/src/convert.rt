//! Converting rows from one format to another.

ghost use Rattle.std.specs.Prelude.{◌≡◌, ℕ, ◌+◌, ◌*◌, ◌/◌, ◌%◌, ◌<◌, ◌≤◌, length};
ghost use Rattle.std.proofs.Common.{rules};
ghost use Rattle.pixel_formats.specs.Convert.{converted_pixel, rescaled};
ghost use Rattle.pixel_formats.specs.Format.{channels, depth, max_sample_of, pixel_bytes};
ghost use Rattle.pixel_formats.specs.Row.{HasPixels, pixel_at, pixel_count};
ghost use Rattle.sample_rows.specs.Groups.{Maps, SameGroups, groups};
ghost use Rattle.sample_rows.specs.SizeLaws.{planes_blocks};
ghost use Rattle.simd_pixels.specs.Components.{component_for};

use crate::blocks::{RowKernel, transform_row};
use crate::depths::{Depth, depth_of};
use pixel_formats::Format;
use simd_pixels::{Colors, ColorsAlpha, Components, FromComponents, Gray, GrayAlpha};
use simd_samples::{ByteLanes, Lanes, LongLanes, Rescale, WordLanes};
use std::marker::PhantomData;

/// Writes the row `src` of one format to `dst` in another: first the channels are converted, at
/// the depth that they have, and then the depth. Gray becomes three equal colors, three colors
/// their mean; alpha is kept, left out, or added as the largest sample. Samples are rounded to
/// the nearest.
pub fn convert_row(from: Format, src: &[u8], to: Format, dst: &mut [u8])
    requires whole { length src.now % pixel_bytes from ≡ 0 }
    requires same_count { length dst.old ≡ pixel_count from src.now * pixel_bytes to }
    ensures { HasPixels to dst.new (λ k. converted_pixel from to (pixel_at from src.now k)) }
{
    if from == to {
        dst.copy_from_slice(src);
        return;
    }
    match (depth_of(from), depth_of(to)) {
        (Depth::Byte, Depth::Byte) => convert_layout::<ByteLanes, ByteLanes>(from, src, to, dst),
        (Depth::Byte, Depth::Word) => convert_layout::<ByteLanes, WordLanes>(from, src, to, dst),
        (Depth::Byte, Depth::Long) => convert_layout::<ByteLanes, LongLanes>(from, src, to, dst),
        (Depth::Word, Depth::Byte) => convert_layout::<WordLanes, ByteLanes>(from, src, to, dst),
        (Depth::Word, Depth::Word) => convert_layout::<WordLanes, WordLanes>(from, src, to, dst),
        (Depth::Word, Depth::Long) => convert_layout::<WordLanes, LongLanes>(from, src, to, dst),
        (Depth::Long, Depth::Byte) => convert_layout::<LongLanes, ByteLanes>(from, src, to, dst),
        (Depth::Long, Depth::Word) => convert_layout::<LongLanes, WordLanes>(from, src, to, dst),
        (Depth::Long, Depth::Long) => convert_layout::<LongLanes, LongLanes>(from, src, to, dst),
    }
}

fn convert_layout<S: Rescale<D>, D: Lanes>(from: Format, src: &[u8], to: Format, dst: &mut [u8])
    requires depth { depth from ≡ S.depth }
    requires to_depth { depth to ≡ D.depth }
    requires whole { length src.now % pixel_bytes from ≡ 0 }
    requires same_count { length dst.old ≡ pixel_count from src.now * pixel_bytes to }
    ensures { HasPixels to dst.new (λ k. converted_pixel from to (pixel_at from src.now k)) }
{
    if from.channels() == to.channels() {
        return convert_pixels::<S, D, Gray<S>, Gray<D>>(src, dst);
    }
    match from.channels() {
        1 => convert_channels::<S, D, Gray<S>>(src, to, dst),
        2 => convert_channels::<S, D, GrayAlpha<S>>(src, to, dst),
        3 => convert_channels::<S, D, Colors<S>>(src, to, dst),
        _ => convert_channels::<S, D, ColorsAlpha<S>>(src, to, dst),
    }
}

fn convert_channels<S: Rescale<D>, D: Lanes, P: Components<S>>(
    src: &[u8],
    to: Format,
    dst: &mut [u8],
)
    requires { SameGroups (groups P.channels S.depth) (groups (channels to) D.depth) src.now dst.old }
    ensures { Maps (groups P.channels S.depth) (groups (channels to) D.depth) (length dst.new / (channels to * D.depth))
        (λ pixel i. rescaled S.depth D.depth (P.components (max_sample_of S.depth) pixel (component_for (channels to) i))) src.now dst.new }
{
    match to.channels() {
        1 => convert_pixels::<S, D, P, Gray<D>>(src, dst),
        2 => convert_pixels::<S, D, P, GrayAlpha<D>>(src, dst),
        3 => convert_pixels::<S, D, P, Colors<D>>(src, dst),
        _ => convert_pixels::<S, D, P, ColorsAlpha<D>>(src, dst),
    }
}

/// Pixels of one layout and depth from those of another.
#[derive(Clone, Copy)]
struct Conversion<S, D, P, Q> {
    of: PhantomData<(S, D, P, Q)>,
}

impl<S: Rescale<D>, D: Lanes, P: Components<S>, Q: FromComponents<D>> RowKernel
    for Conversion<S, D, P, Q> {
    ghost value = { λ s pixel i. rescaled S.depth D.depth (P.components (max_sample_of S.depth) pixel (component_for Q.channels i)) };

    ghost from = { groups P.channels S.depth };

    ghost to = { groups Q.channels D.depth };

    ghost count = { 16 };

    ghost READ = { P.BYTES };

    ghost WRITTEN = { Q.BYTES };

    const READ: usize = P::BYTES;

    const WRITTEN: usize = Q::BYTES;

    #[inline(always)]
    fn block(&self, src: &[u8], dst: &mut [u8]) {
        Q::from_components::<S, P>(P::load(src)).store(dst);
    }

    ghost some_groups = { Prim.search rules };

    ghost read_blocks = { planes_blocks S.BYTES S.depth S.sixteen S.few S.some_depth P.channels P.BYTES P.sizes };

    ghost written_blocks = { planes_blocks D.BYTES D.depth D.sixteen D.few D.some_depth Q.channels Q.BYTES Q.sizes };
}

fn convert_pixels<S: Rescale<D>, D: Lanes, P: Components<S>, Q: FromComponents<D>>(
    src: &[u8],
    dst: &mut [u8],
)
    requires { SameGroups (groups P.channels S.depth) (groups Q.channels D.depth) src.now dst.old }
    ensures { Maps (groups P.channels S.depth) (groups Q.channels D.depth) (length dst.new / (Q.channels * D.depth))
        (λ pixel i. rescaled S.depth D.depth (P.components (max_sample_of S.depth) pixel (component_for Q.channels i))) src.now dst.new }
{
    transform_row(Conversion::<S, D, P, Q> { of: PhantomData }, src, dst);
}
