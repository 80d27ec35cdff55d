//! Laying one row over another.

ghost use Rattle.std.specs.Prelude.{◌≡◌, ℕ, ◌+◌, ◌*◌, ◌/◌, ◌%◌, ◌<◌, ◌≤◌, IsTrue, length};
ghost use Rattle.pixel_formats.specs.Format.{depth, max_sample_of, has_alpha, pixel_bytes};
ghost use Rattle.pixel_formats.specs.Over.{composited, over_pixel};
ghost use Rattle.pixel_formats.specs.Row.{HasPixels, pixel_at};
ghost use Rattle.sample_rows.specs.Groups.{MapsPairs, SameGroups, groups};

use crate::depths::{Depth, depth_of};
use crate::vectors::{VectorKernel, transform_vectors};
use pixel_formats::Format;
use simd_pixels::{AlphaOfFour, AlphaOfTwo, Layout};
use simd_samples::{ByteLanes, Lanes, LongLanes, WordLanes};
use std::marker::PhantomData;

/// Pixels of a layout over others.
#[derive(Clone, Copy)]
struct Over<P> {
    of: PhantomData<P>,
}

impl<L: Lanes, P: Layout> VectorKernel<L> for Over<P> {
    ghost value = { λ s top bottom i. composited (max_sample_of L.depth) (P.cap (max_sample_of L.depth) top) (top i) (bottom i) };

    ghost size = { P.channels };

    ghost count = { P.pixels };

    #[inline(always)]
    fn vector(&self, a: L, b: L) -> L {
        let left = L::max_sample().saturating_sub(P::caps(a));
        a.saturating_add(b.scale_by(left))
    }

    ghost sixteen = { P.sixteen };

    ghost value_of_groups = { λ s a b c d same same_bottom i within t.
        composited (max_sample_of L.depth) (P.cap_of_pixel (max_sample_of L.depth) a c same t) (same i within t) (same_bottom i within t) };
}

/// Writes to `dst` the row `top` composited over the row `bottom`: of each lower sample the part that
/// the upper pixel's alpha leaves is added to the upper one. A sum above the largest sample
/// becomes the largest sample.
pub fn row_over(f: Format, top: &[u8], bottom: &[u8], dst: &mut [u8])
    requires alpha { IsTrue (has_alpha f) }
    requires whole { length top.now % pixel_bytes f ≡ 0 }
    requires same_length { length bottom.now ≡ length top.now }
    requires written_length { length dst.old ≡ length top.now }
    ensures { HasPixels f dst.new (λ k. over_pixel f (pixel_at f top.now k) (pixel_at f bottom.now k)) }
{
    match depth_of(f) {
        Depth::Byte => over_samples::<ByteLanes>(f, top, bottom, dst),
        Depth::Word => over_samples::<WordLanes>(f, top, bottom, dst),
        Depth::Long => over_samples::<LongLanes>(f, top, bottom, dst),
    }
}

fn over_samples<L: Lanes>(f: Format, top: &[u8], bottom: &[u8], dst: &mut [u8])
    requires depth { depth f ≡ L.depth }
    requires alpha { IsTrue (has_alpha f) }
    requires whole { length top.now % pixel_bytes f ≡ 0 }
    requires same_length { length bottom.now ≡ length top.now }
    requires written_length { length dst.old ≡ length top.now }
    ensures { HasPixels f dst.new (λ k. over_pixel f (pixel_at f top.now k) (pixel_at f bottom.now k)) }
{
    match f.channels() {
        2 => over_pixels::<L, AlphaOfTwo>(top, bottom, dst),
        4 => over_pixels::<L, AlphaOfFour>(top, bottom, dst),
        _ => unreachable!(),
    }
}

fn over_pixels<L: Lanes, P: Layout>(top: &[u8], bottom: &[u8], dst: &mut [u8])
    requires first { SameGroups (groups P.channels L.depth) (groups P.channels L.depth) top.now dst.old }
    requires second { SameGroups (groups P.channels L.depth) (groups P.channels L.depth) bottom.now dst.old }
    ensures { MapsPairs (groups P.channels L.depth) (groups P.channels L.depth) (groups P.channels L.depth) (length dst.new / (P.channels * L.depth))
        (λ a b i. composited (max_sample_of L.depth) (P.cap (max_sample_of L.depth) a) (a i) (b i)) top.now bottom.now dst.new }
{
    transform_vectors::<L, Over<P>>(Over { of: PhantomData }, top, bottom, dst);
}
