//! What a render does for one tile, in small, for whatever kit.

ghost use Rattle.std.specs.Prelude.{◌≡◌, IfOk, IfSome};
ghost use Rattle.plane_rect.specs.{Rectangle.meet, Tile.tile_rectangle};
ghost use Rattle.model_images.specs.Paint.{cut};
ghost use Rattle.model_graphs.specs.Meanings.{result_box};
ghost use Rattle.op_contracts.specs.Applying.{result_of_windows, window_bounds};

use alloc_basics::NoMemory;
use op_contracts::{OpKit, Window};
use patch_abyss::Patch;
use plane_rect::TileAt;
use std::alloc::Global;

/// Applies an operation of one input over what its result has of a tile. None where the window doesn't
/// suit, or where no permit is left.
pub fn applied_tile<K: OpKit>(
    kit: &K,
    alloc: Global,
    purse: &mut K::Purse,
    op: &K::Op,
    windows: &[Window],
    at: TileAt,
) -> Result<Option<Patch>, NoMemory>
    ensures { IfOk result (λ given. IfSome given (λ patch.
        patch ≡ cut (result_of_windows K.Op.meanings op.now windows.now)
        (meet (tile_rectangle at) (result_box K.Op.meanings op.now (window_bounds windows.now))))) }
{
    if windows.len() != 1 || kit.arity(op) != 1 {
        return Ok(None);
    }
    let window = &windows[0];
    let boxes = [window.bounds];
    if !window.is_whole() || kit.check(op, &[window.format]).is_none() {
        return Ok(None);
    }
    let Some(bounds) = kit.bounds(op, &boxes) else {
        return Ok(None);
    };
    let out = at.rect().meet(&bounds);
    if !window.need.contains(&kit.required(op, &boxes, 0, out)) {
        return Ok(None);
    }
    match kit.take(purse) {
        Some(permit) => Ok(Some(kit.apply(alloc, permit, op, &boxes, windows, out)?)),
        None => Ok(None),
    }
}
