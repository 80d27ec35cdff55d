//! The kit of the fifteen operations: what each asks of its inputs, and how it is applied.

ghost use Rattle.std.specs.Prelude.{◌≡◌, ◌<◌, All, IfOk, IfSome, IsSome, length};
ghost use Rattle.plane_rect.specs.Rectangle.{Includes};
ghost use Rattle.model_images.specs.Paint.{cut};
ghost use Rattle.model_graphs.specs.{Meanings.result_box, Permits.Takes, Windows.IsWholeWindow};
ghost use Rattle.model_operations.specs.Meanings.{int_meanings, same_operation};
ghost use Rattle.op_contracts.specs.Applying.{CopiesInput, HaveRequired, IsInOneTile, bounds_of, result_of_windows, window_bounds, window_formats};
ghost use Rattle.int_ops.specs.Lone.{IsLone};

use crate::area_op::AreaOp;
use crate::purse::{IntPermit, IntPurse};
use alloc_basics::NoMemory;
use model_operations::IntOp;
use op_contracts::{OpKit, Window};
use patch_abyss::Patch;
use pixel_formats::Format;
use plane_rect::Rect;
use std::alloc::Global;

/// Carries out the fifteen operations.
#[derive(Clone, Copy, Debug, Drop)]
pub struct IntKit;

impl OpKit for IntKit {
    type Op = IntOp;

    type Purse = IntPurse;

    type Permit = IntPermit;

    ghost permits = { λ purse. purse.left };

    fn arity(&self, op: &IntOp) -> u32 {
        operation_regions::input_count(op) as u32
    }

    fn check(&self, op: &IntOp, formats: &[Format]) -> Option<Format> {
        operation_regions::format_of(op, formats)
    }

    fn bounds(&self, op: &IntOp, boxes: &[Rect]) -> Option<Rect> {
        operation_regions::box_of(op, boxes).filter(Rect::in_limits)
    }

    fn required(&self, op: &IntOp, boxes: &[Rect], input: usize, out: Rect) -> Rect {
        operation_regions::required(op, boxes, input, out)
    }

    fn invalidated(&self, op: &IntOp, boxes: &[Rect], input: usize, changed: Rect) -> Rect {
        operation_regions::invalidated(op, boxes, input, changed)
    }

    fn copied_input(&self, op: &IntOp, boxes: &[Rect], out: Rect) -> Option<usize> {
        match op {
            IntOp::Crop { .. } => Some(0),
            IntOp::Add | IntOp::Over => lone_input(&boxes[0], &boxes[1], &out),
            _ => None,
        }
    }

    fn left(&self, purse: &IntPurse) -> u64 {
        purse.left()
    }

    fn take(&self, purse: &mut IntPurse) -> Option<IntPermit> {
        purse.take()
    }

    fn steady(&self, op: &IntOp) -> bool {
        !matches!(
            op,
            IntOp::Color { .. }
                | IntOp::Checker { .. }
                | IntOp::Translate { .. }
                | IntOp::Flip { .. }
        )
    }

    fn same(&self, a: &IntOp, b: &IntOp) -> bool {
        a == b
    }

    fn copy_op(&self, _alloc: Global, op: &IntOp) -> Result<IntOp, NoMemory> {
        Ok(op.clone()?)
    }

    fn apply(
        &self,
        alloc: Global,
        _permit: IntPermit,
        op: &IntOp,
        _boxes: &[Rect],
        windows: &[Window],
        out: Rect,
    ) -> Result<Patch, NoMemory> {
        match AreaOp::of(op) {
            Some(area) => area.apply(alloc, windows, out),
            None => point_ops::apply(alloc, op, windows, out),
        }
    }
}

/// Returns which of two boxes, 0 or 1, contains a part of which the other has no position, where one does.
fn lone_input(first: &Rect, second: &Rect, part: &Rect) -> Option<usize>
    ensures { IfSome result (IsLone first.now second.now part.now) }
{
    if second.contains(part) && first.meet(part).is_empty() {
        return Some(1);
    }
    if first.contains(part) && second.meet(part).is_empty() {
        return Some(0);
    }
    None
}
