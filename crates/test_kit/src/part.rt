//! An operation on windows, for a part in one tile, in whatever kit.

ghost use Rattle.std.specs.Prelude.{◌≡◌, All, IfOk, IfSome, IsSome, IsTrue, length};
ghost use Rattle.std.specs.Bool.{OnTrue};
ghost use Rattle.plane_rect.specs.Rectangle.{Includes};
ghost use Rattle.model_images.specs.Paint.{cut};
ghost use Rattle.model_graphs.specs.{Meanings.result_box, Windows.IsWholeWindow};
ghost use Rattle.op_contracts.specs.Applying.{HaveRequired, bounds_of, result_of_windows, window_bounds, window_formats};
ghost use Rattle.test_kit.specs.Applicable.{IsApplicable};

use alloc_basics::NoMemory;
use op_contracts::{OpKit, Window};
use patch_abyss::Patch;
use pixel_formats::Format;
use plane_rect::{Rect, TileAt};
use std::alloc::Global;

/// Applies an operation for a part that a tile contains. None where the windows or the part don't suit,
/// or where no permit is left.
pub fn applied_part<K: OpKit>(
    kit: &K,
    alloc: Global,
    purse: &mut K::Purse,
    op: &K::Op,
    windows: &[Window],
    tile: TileAt,
    out: Rect,
) -> Result<Option<Patch>, NoMemory>
    ensures { IfOk result (λ given. IfSome given (λ patch. patch ≡ cut (result_of_windows K.Op.meanings op.now windows.now) out)) }
{
    let boxes = boxes_of(alloc, windows)?;
    let formats = formats_of(alloc, windows)?;
    if !is_applicable(kit, op, windows, &formats, &boxes, tile, &out) {
        return Ok(None);
    }
    match kit.take(purse) {
        Some(permit) => Ok(Some(kit.apply(alloc, permit, op, &boxes, windows, out)?)),
        None => Ok(None),
    }
}

/// Returns the boxes of the images that windows show.
pub fn boxes_of(alloc: Global, windows: &[Window]) -> Result<Vec<Rect>, NoMemory>
    ensures { IfOk result (λ boxes. boxes.items ≡ window_bounds windows.now) }
{
    Ok(windows.iter().map(|window| window.bounds).collect(alloc)?)
}

/// Returns the formats of the images that windows show.
pub fn formats_of(alloc: Global, windows: &[Window]) -> Result<Vec<Format>, NoMemory>
    ensures { IfOk result (λ formats. formats.items ≡ window_formats windows.now) }
{
    Ok(windows.iter().map(|window| window.format).collect(alloc)?)
}

/// Returns whether an operation may be applied to windows for a part that a tile contains.
pub fn is_applicable<K: OpKit>(
    kit: &K,
    op: &K::Op,
    windows: &[Window],
    formats: &[Format],
    boxes: &[Rect],
    tile: TileAt,
    out: &Rect,
) -> bool
    requires formats { formats.now ≡ window_formats windows.now }
    requires boxes { boxes.now ≡ window_bounds windows.now }
    ensures { OnTrue result (IsApplicable K.Op.meanings op.now windows.now out.now) }
{
    if windows.len() != kit.arity(op) as usize {
        return false;
    }
    if kit.check(op, formats).is_none() || !has_part(kit, op, boxes, out) {
        return false;
    }
    if !tile.rect().contains(out) || !are_whole(windows) {
        return false;
    }
    have_required(kit, op, boxes, windows, *out)
}

/// Returns whether an operation has a box in limits, which contains a part.
fn has_part<K: OpKit>(kit: &K, op: &K::Op, boxes: &[Rect], out: &Rect) -> bool
    requires { length boxes.now ≡ K.Op.meanings.input_count op.now }
    ensures bounds { OnTrue result (IsSome (bounds_of K.Op.meanings op.now boxes.now)) }
    ensures part { OnTrue result (Includes (result_box K.Op.meanings op.now boxes.now) out.now) }
{
    match kit.bounds(op, boxes) {
        Some(bounds) => bounds.contains(out),
        None => false,
    }
}

/// Returns whether each window is whole.
fn are_whole(windows: &[Window]) -> bool
    ensures { OnTrue result (All IsWholeWindow windows.now) }
{
    windows.iter().all(|window| window.is_whole())
}

/// Returns whether each window is needed at all that a part requires of it.
fn have_required<K: OpKit>(
    kit: &K,
    op: &K::Op,
    boxes: &[Rect],
    windows: &[Window],
    out: Rect,
) -> bool
    requires boxes { length boxes.now ≡ K.Op.meanings.input_count op.now }
    requires windows { length windows.now ≡ K.Op.meanings.input_count op.now }
    requires bounds { IsSome (bounds_of K.Op.meanings op.now boxes.now) }
    ensures { OnTrue result (HaveRequired K.Op.meanings op.now boxes.now windows.now out) }
{
    for (input, window) in windows.iter().enumerate() {
        if !window.need.contains(&kit.required(op, boxes, input, out)) {
            return false;
        }
    }
    true
}
