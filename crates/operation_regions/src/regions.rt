//! What an operation reads of an input for a region, and what of its result a change of an input
//! reaches.

ghost use Rattle.std.specs.Prelude.{◌≡◌};
ghost use Rattle.plane_rect.specs.Rectangle.{meet};
ghost use Rattle.model_operations.specs.Regions.{invalidated, reached_from, read_for, required};

use crate::areas::{area_read, surrounded};
use crate::boxes::{input_box, result_box};
use crate::moves::{mirrored_part, moved, moved_back};
use model_operations::IntOp;
use plane_rect::Rect;

/// Returns the positions of an input, counted from 0, that an operation needs for a region of its
/// result. They are in the input's box.
pub fn required(op: &IntOp, boxes: &[Rect], input: usize, out: Rect) -> Rect
    ensures { result ≡ required op.now boxes.now input out }
{
    let part = out.meet(&result_box(op, boxes));
    read_within(op, &input_box(boxes, input), &part)
}

/// Returns the positions of an operation's result that may change where a region of an input,
/// counted from 0, changes. They are in the result's box.
pub fn invalidated(op: &IntOp, boxes: &[Rect], input: usize, changed: Rect) -> Rect
    ensures { result ≡ invalidated op.now boxes.now input changed }
{
    let input = input_box(boxes, input);
    reached_within(op, &input, &changed.meet(&input), &result_box(op, boxes))
}

/// Returns the positions of an input's box that an operation reads for a part of its result.
fn read_within(op: &IntOp, input: &Rect, part: &Rect) -> Rect
    ensures { result ≡ meet (read_for op.now input.now part.now) input.now }
{
    match op {
        IntOp::Translate { dx, dy } => moved_back(part, *dx, *dy, input),
        IntOp::Flip { sideways } => mirrored_part(*sideways, input, part, input),
        IntOp::BoxMean { radius, abyss }
        | IntOp::Dilate { radius, abyss }
        | IntOp::Erode { radius, abyss } => area_read(*radius, *abyss, part, input),
        _ => part.meet(input),
    }
}

/// Returns what is in a box of the positions whose samples depend on a part of an input.
fn reached_within(op: &IntOp, input: &Rect, part: &Rect, within: &Rect) -> Rect
    ensures { result ≡ meet (reached_from op.now input.now part.now) within.now }
{
    match op {
        IntOp::Translate { dx, dy } => moved(part, *dx, *dy, within),
        IntOp::Flip { sideways } => mirrored_part(*sideways, input, part, within),
        IntOp::BoxMean { radius, .. }
        | IntOp::Dilate { radius, .. }
        | IntOp::Erode { radius, .. } => surrounded(*radius, part, within),
        _ => part.meet(within),
    }
}
