//! The boxes and the formats of nodes.

ghost use Rattle.std.specs.Prelude.{◌≡◌, slice_index_or};
ghost use Rattle.plane_rect.specs.Rectangle.{IsRectangle};
ghost use Rattle.model_graphs.specs.{Facts.stated_shapes, Shapes.no_shape};

use model_graphs::NodeFact;
use pixel_formats::Format;
use plane_rect::Rect;
use std::marker::Model;

/// The box and the format of a node's image.
#[derive(Clone, Copy)]
pub(crate) struct Shape {
    pub(crate) bounds: Rect,
    pub(crate) format: Format,
}

impl Model for Shape {
    ghost use Rattle.model_graphs.specs.Shapes.{Shape};

    ghost Value = { Shape };

    ghost view = { λ shape. record { box = shape.bounds; format = shape.format } };

    ghost inverse = { λ shape. record { bounds = shape.box; format = shape.format } };
}

impl Shape {
    /// The shape of the image without a pixel.
    const NONE: Shape = Shape {
        bounds: Rect::EMPTY,
        format: Format::Y8,
    };

    /// Returns the shape of this box and this format.
    pub(crate) fn new(bounds: Rect, format: Format) -> Shape
        ensures value { result ≡ record { box = bounds; format = format } }
        ensures rectangle { IsRectangle bounds }
    {
        // `first_column` is called for its clause that the box is a rectangle of the plane.
        let _ = bounds.first_column();
        Shape { bounds, format }
    }
}

/// Returns the shape at a position, and that of the image without a pixel past the last.
pub(crate) fn shape_at(shapes: &[Shape], index: usize) -> Shape
    ensures { result ≡ slice_index_or shapes.now index no_shape }
{
    shapes.get(index).copied().unwrap_or(Shape::NONE)
}

/// Returns the stated shape at a position, and that of the image without a pixel past the last.
pub(crate) fn stated_at<Op>(facts: &[NodeFact<Op>], index: usize) -> Shape
    ensures { result ≡ slice_index_or (stated_shapes facts.now) index no_shape }
{
    match facts.get(index) {
        Some(fact) => Shape {
            bounds: fact.bounds,
            format: fact.format,
        },
        None => Shape::NONE,
    }
}
