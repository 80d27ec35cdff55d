//! The operations and their arguments.

use pixel_formats::{Abyss, Format, PixelSamples};
use plane_rect::Rect;

/// An operation on whole images, with its arguments. Coordinates, sizes and radii are in pixels,
/// and samples are from 0 to the format's largest. A color is at most its cap: the alpha of its
/// pixel, or the largest sample where the format has none.
#[derive(Clone, Drop, PartialEq, Eq)]
pub enum IntOp {
    /// One pixel over a rectangle, a sample for each channel. GEGL's `gegl:color`.
    Color {
        format: Format,
        rect: Rect,
        samples: PixelSamples,
    },
    /// Squares of `size` pixels a side over a rectangle, from the origin on: the colors are `v1` in
    /// the square at the origin and `v2` in those beside it, alpha is full. GEGL's
    /// `gegl:checkerboard`.
    Checker {
        format: Format,
        rect: Rect,
        size: u32,
        v1: u32,
        v2: u32,
    },
    /// The input in another format. GEGL's `gegl:convert-format`.
    Convert {
        format: Format,
    },
    /// Each color subtracted from its cap. GEGL's `gegl:invert-gamma`.
    Invert,
    /// Each color at its cap where it reaches `at`, and else 0. GEGL's `gegl:threshold`.
    Threshold {
        at: u32,
    },
    /// Each color times `num` and divided by `den`, up to its cap. The nearest of GEGL's is
    /// `gegl:multiply` with a value.
    Gain {
        num: u32,
        den: u32,
    },
    /// The input moved right by `dx` and down by `dy`. GEGL's `gegl:translate`.
    Translate {
        dx: i64,
        dy: i64,
    },
    /// The input's part in a rectangle. GEGL's `gegl:crop`.
    Crop {
        rect: Rect,
    },
    /// The input mirrored in its own box: left and right where `sideways`, else top and bottom.
    /// GEGL's `gegl:reflect`, about the middle of the box.
    Flip {
        sideways: bool,
    },
    /// The mean of the square of `2 * radius + 1` pixels a side around each position. GEGL's
    /// `gegl:box-blur`.
    BoxMean {
        radius: u32,
        abyss: Abyss,
    },
    /// The largest sample of that square. GEGL's `gegl:median-blur` over a square, at percentile
    /// 100.
    Dilate {
        radius: u32,
        abyss: Abyss,
    },
    /// The smallest sample of that square. GEGL's `gegl:median-blur` over a square, at percentile 0.
    Erode {
        radius: u32,
        abyss: Abyss,
    },
    /// The sum of two inputs, up to the largest sample. GEGL's `gegl:add`.
    Add,
    /// The first input composited over the second. GEGL's `gegl:over`.
    Over,
    /// The first input scaled by the second, which has one channel. GEGL's `gegl:opacity` with its
    /// second input.
    Mask,
}
