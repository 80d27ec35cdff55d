//! Images that are moved or mirrored.

ghost use Rattle.std.specs.Prelude.{◌≡◌, ◌∷◌, [], IfOk, min, ◌+◌, ◌-◌};
ghost use Rattle.plane_rect.specs.Rectangle.{InLimits, Includes, IsRectangle};
ghost use Rattle.model_images.specs.Image.{at, image_from_fn};
ghost use Rattle.model_graphs.specs.Windows.{IsWholeWindow, window_image};
ghost use Rattle.model_operations.specs.{Boxes.result_box, Moves.source_index, declared.operation.IntOp.IntOp};
ghost use Rattle.point_ops.specs.Moved.{moved_source};

use crate::patches::patch_of_slice;
use alloc_basics::NoMemory;
use op_contracts::Window;
use patch_abyss::Patch;
use plane_rect::Rect;
use std::alloc::Global;

/// Returns a part of what a window shows, moved right by `dx` and down by `dy`. Takes time in
/// proportion to the part's pixels.
///
/// # Errors
///
/// `NoMemory` if memory runs out.
pub(crate) fn translated_part(
    alloc: Global,
    dx: i64,
    dy: i64,
    window: &Window,
    out: Rect,
) -> Result<Patch, NoMemory>
    requires whole { IsWholeWindow window.now }
    requires limits { InLimits out }
    requires part { Includes (result_box (IntOp.Translate dx dy) (window.now.bounds ∷ [])) out }
    ensures { IfOk result (λ patch. patch ≡ image_from_fn out window.now.format
        (λ u v. at (window_image window.now) (source_index dx u) (source_index dy v))) }
{
    let source = moved_source(dx, dy, &window.bounds, &out);
    let bytes = window.part_bytes(alloc, source)?;
    patch_of_slice(alloc, out, window.format, bytes.as_slice())
}

/// Returns what is in a box of the positions that become those of a part when moved right by `dx` and
/// down by `dy`.
fn moved_source(dx: i64, dy: i64, bounds: &Rect, out: &Rect) -> Rect
    ensures value { result ≡ moved_source dx dy bounds.now out.now }
    ensures rectangle { IsRectangle out.now }
{
    Rect::spanning(
        source_index(dx, out.first_column(), bounds.end_column()),
        source_index(dy, out.first_row(), bounds.end_row()),
        source_index(dx, out.end_column(), bounds.end_column()),
        source_index(dy, out.end_row(), bounds.end_row()),
    )
}

/// Returns the column, or the row, that becomes this one when moved by a distance, or the exclusive
/// end where it is after that. It isn't before the plane's corner.
fn source_index(distance: i64, index: u32, end: u32) -> u32
    ensures { result ≡ min (source_index distance index) end }
{
    let index = u64::from(index);
    let by = distance.unsigned_abs();
    let source = if distance < 0 {
        index.saturating_add(by)
    } else {
        index.saturating_sub(by)
    };
    source.min(u64::from(end)) as u32
}
