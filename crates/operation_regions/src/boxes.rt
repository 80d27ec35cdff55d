//! The boxes of what operations give.

ghost use Rattle.std.specs.Prelude.{◌≡◌, IfSome};
ghost use Rattle.plane_rect.specs.Rectangle.{InLimits, if_in_limits};
ghost use Rattle.model_operations.specs.Boxes.{area_box, box_in_limits, box_of, box_with, result_box};
ghost use Rattle.model_operations.specs.Inputs.{input_box};

use crate::formats::input_count;
use model_operations::IntOp;
use pixel_formats::Abyss;
use plane_rect::{Rect, RectRefused};

/// Returns the box of an operation's result on inputs of these boxes, and None exactly where their
/// number is wrong or the box is too large for an image.
pub fn box_of(op: &IntOp, boxes: &[Rect]) -> Option<Rect>
    ensures { result ≡ box_of op.now boxes.now }
{
    if boxes.len() != input_count(op) {
        return None;
    }
    box_with(op, &input_box(boxes, 0), &input_box(boxes, 1))
}

/// Returns the box of an operation's result, which is empty where there is none.
pub(crate) fn result_box(op: &IntOp, boxes: &[Rect]) -> Rect
    ensures { result ≡ result_box op.now boxes.now }
{
    box_of(op, boxes).unwrap_or(Rect::EMPTY)
}

/// Returns the box of an input, which is empty where there is no such input.
pub(crate) fn input_box(boxes: &[Rect], input: usize) -> Rect
    ensures { result ≡ input_box boxes.now input }
{
    boxes.get(input).copied().unwrap_or(Rect::EMPTY)
}

/// Returns the box of an operation's result on inputs of two boxes.
fn box_with(op: &IntOp, a: &Rect, b: &Rect) -> Option<Rect>
    ensures { result ≡ box_with op.now a.now b.now }
{
    match op {
        IntOp::Color { rect, .. } | IntOp::Checker { rect, .. } => in_limits(*rect),
        IntOp::Convert { .. }
        | IntOp::Invert
        | IntOp::Threshold { .. }
        | IntOp::Gain { .. }
        | IntOp::Flip { .. } => in_limits(*a),
        IntOp::Translate { dx, dy } => if_in_limits(a.shift(*dx, *dy)),
        IntOp::Crop { rect } => in_limits(a.meet(rect)),
        IntOp::BoxMean { radius, abyss }
        | IntOp::Dilate { radius, abyss }
        | IntOp::Erode { radius, abyss } => area_box(*radius, *abyss, a),
        IntOp::Add | IntOp::Over => in_limits(a.hull(b)),
        IntOp::Mask => in_limits(a.meet(b)),
    }
}

/// Returns the box of an area operation's result.
fn area_box(radius: u32, abyss: Abyss, input: &Rect) -> Option<Rect>
    ensures { result ≡ area_box radius abyss input.now }
{
    match abyss {
        Abyss::None => if_in_limits(input.grow(radius)),
        Abyss::Clamp | Abyss::Black | Abyss::White => in_limits(*input),
        Abyss::Loop => None,
    }
}

/// Returns a rectangle, where it is in the limits of an image.
fn in_limits(rect: Rect) -> Option<Rect>
    ensures { result ≡ box_in_limits rect }
{
    if_in_limits(Ok(rect))
}

/// Returns the rectangle, where there is one in the limits of an image.
fn if_in_limits(rect: Result<Rect, RectRefused>) -> Option<Rect>
    ensures value { result ≡ if_in_limits rect }
    ensures limits { IfSome result InLimits }
{
    match rect {
        Ok(rect) if rect.in_limits() => Some(rect),
        _ => None,
    }
}
