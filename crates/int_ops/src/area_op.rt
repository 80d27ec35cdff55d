//! Operations on squares, taken apart.

ghost use Rattle.std.specs.Prelude.{◌≡◌, All, IfOk, IfSome, IsNone, IsSome, length};
ghost use Rattle.plane_rect.specs.Rectangle.{Includes};
ghost use Rattle.model_images.specs.Paint.{cut};
ghost use Rattle.model_graphs.specs.{Meanings.result_box, Windows.IsWholeWindow};
ghost use Rattle.model_operations.specs.Meanings.{int_meanings};
ghost use Rattle.op_contracts.specs.Applying.{IsInOneTile, result_of_windows, window_bounds, window_formats};
ghost use Rattle.area_ops.specs.Kinds.{operation_of};
ghost use Rattle.point_ops.specs.PointOps.{IsPointOp};

use alloc_basics::NoMemory;
use area_ops::{AreaKind, area_part};
use model_operations::IntOp;
use op_contracts::Window;
use patch_abyss::{Abyss, Patch};
use plane_rect::Rect;
use std::alloc::Global;

/// What an operation makes of the square around each position, the square's radius, and the policy.
#[derive(Clone, Copy, Debug)]
pub(crate) struct AreaOp {
    kind: AreaKind,
    radius: u32,
    abyss: Abyss,
}

impl AreaOp {
    /// Returns an operation on squares, taken apart. None where it isn't one.
    pub fn of(op: &IntOp) -> Option<AreaOp>
        ensures area { IfSome result (λ area. op.now ≡ operation_of area.kind area.radius area.abyss) }
        ensures point { IsNone result → IsPointOp op.now }
    {
        let (kind, radius, abyss) = match op {
            IntOp::BoxMean { radius, abyss } => (AreaKind::BoxMean, *radius, *abyss),
            IntOp::Dilate { radius, abyss } => (AreaKind::Dilate, *radius, *abyss),
            IntOp::Erode { radius, abyss } => (AreaKind::Erode, *radius, *abyss),
            _ => return None,
        };
        Some(AreaOp {
            kind,
            radius,
            abyss,
        })
    }

    /// Returns a part of the result that the operation gives of the image that the one window shows. The
    /// part is in one tile.
    ///
    /// # Errors
    ///
    /// `NoMemory` if memory runs out.
    pub fn apply(self, alloc: Global, windows: &[Window], out: Rect) -> Result<Patch, NoMemory>
        requires inputs { length windows.now ≡ 1 }
        requires format { IsSome (int_meanings.format (operation_of self.kind self.radius self.abyss) (window_formats windows.now)) }
        requires part { Includes (result_box int_meanings (operation_of self.kind self.radius self.abyss) (window_bounds windows.now)) out }
        requires tile { IsInOneTile out }
        requires whole { All IsWholeWindow windows.now }
        ensures { IfOk result (λ patch. patch ≡ cut (result_of_windows int_meanings (operation_of self.kind self.radius self.abyss) windows.now) out) }
    {
        area_part(alloc, self.kind, self.radius, self.abyss, &windows[0], out)
    }
}
