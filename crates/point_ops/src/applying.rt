//! The call that carries out an operation.

ghost use Rattle.std.specs.Prelude.{◌≡◌, ◌↔◌, All, IfOk, IsSome, IsTrue, length};
ghost use Rattle.plane_rect.specs.Rectangle.{Includes};
ghost use Rattle.model_images.specs.Paint.{cut};
ghost use Rattle.model_graphs.specs.{Meanings.result_box, Windows.IsWholeWindow};
ghost use Rattle.model_operations.specs.Meanings.{int_meanings};
ghost use Rattle.op_contracts.specs.Applying.{IsInOneTile, bounds_of, result_of_windows, window_bounds, window_formats};
ghost use Rattle.point_ops.specs.PointOps.{IsPointOp};

use crate::change::{Change, changed_part};
use crate::checker::checker_part;
use crate::combine::{Combination, combined_part};
use crate::flip::flipped_part;
use crate::moves::translated_part;
use alloc_basics::NoMemory;
use model_operations::IntOp;
use op_contracts::Window;
use patch_abyss::{Patch, solid_patch};
use plane_rect::Rect;
use std::alloc::Global;

/// Returns a part of the result that an operation gives of the images that windows show. The part is
/// in one tile. Takes time in proportion to the part's pixels and to the number of the windows' tiles.
///
/// # Errors
///
/// `NoMemory` if memory runs out.
#[tactic(auto, using(crate::proofs::Results::tile_in_limits))]
pub fn apply(alloc: Global, op: &IntOp, windows: &[Window], out: Rect) -> Result<Patch, NoMemory>
    requires point { IsPointOp op.now }
    requires inputs { length windows.now ≡ int_meanings.input_count op.now }
    requires format { IsSome (int_meanings.format op.now (window_formats windows.now)) }
    requires bounds { IsSome (bounds_of int_meanings op.now (window_bounds windows.now)) }
    requires part { Includes (result_box int_meanings op.now (window_bounds windows.now)) out }
    requires tile { IsInOneTile out }
    requires whole { All IsWholeWindow windows.now }
    ensures { IfOk result (λ patch. patch ≡ cut (result_of_windows int_meanings op.now windows.now) out) }
{
    prove!(out.area() <= 1 << 25);
    match op {
        IntOp::Color {
            format,
            samples,
            ..
        } => solid_patch(alloc, *format, samples.as_slice(), out),
        IntOp::Checker {
            format,
            size,
            v1,
            v2,
            ..
        } => checker_part(alloc, *format, *size, *v1, *v2, out),
        IntOp::Convert { format } => {
            changed_part(alloc, Change::Convert { format: *format }, &windows[0], out)
        }
        IntOp::Invert => changed_part(alloc, Change::Invert, &windows[0], out),
        IntOp::Threshold { at } => changed_part(
            alloc,
            Change::Threshold { at: *at },
            &windows[0],
            out,
        ),
        IntOp::Gain { num, den } => {
            changed_part(
                alloc,
                Change::Gain {
                    num: *num,
                    den: *den,
                },
                &windows[0],
                out,
            )
        }
        IntOp::Translate { dx, dy } => translated_part(alloc, *dx, *dy, &windows[0], out),
        IntOp::Crop { .. } => windows[0].part(alloc, out),
        IntOp::Flip { sideways } => flipped_part(alloc, *sideways, &windows[0], out),
        IntOp::Add => combined_part(alloc, Combination::Add, &windows[0], &windows[1], out),
        IntOp::Over => combined_part(alloc, Combination::Over, &windows[0], &windows[1], out),
        IntOp::Mask => combined_part(alloc, Combination::Mask, &windows[0], &windows[1], out),
        IntOp::BoxMean { .. } | IntOp::Dilate { .. } | IntOp::Erode { .. } => unreachable!(),
    }
}

/// Returns whether each pixel of an operation's result is of one pixel of every input.
pub fn is_point_op(op: &IntOp) -> bool
    ensures { IsTrue result ↔ IsPointOp op.now }
{
    !matches!(
        op,
        IntOp::BoxMean { .. } | IntOp::Dilate { .. } | IntOp::Erode { .. }
    )
}
