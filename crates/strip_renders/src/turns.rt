//! The next needed tile of a strip, held.

ghost use Rattle.std.specs.Prelude.{◌≡◌, ◌+◌, ◌≤◌, Some, length, slice_get, take};
ghost use Rattle.std.specs.List.{AllByRecursion};
ghost use Rattle.strip_renders.specs.Ahead.{AreNext};
ghost use Rattle.strip_renders.specs.Moments.{AreOver, render_state};
ghost use Rattle.strip_renders.specs.Steps.{HoldsNext};
ghost use Rattle.strip_renders.specs.Strips.{AreSizedPairs, AreStatedWith, HoldsNeed, IsStripOf, needed_from};

use crate::ahead::{AheadTiles, look_ahead};
use crate::evaluator::Evaluator;
use crate::needed::needed_tile;
use chain_owners::{ChainMeaning, SwapRefused};
use node_cache::PairStore;
use node_tiles::StripTiles;
use op_contracts::{OpKit, SourceTiles};
use plane_rect::TileAt;
use roi_planner::Strip;
use std::thread::Threads;
use worker_pieces::Workers;

/// Holds a needed tile, which is that at an index of a strip, and returns whether the cache had it: looks its pair up, and where it
/// isn't there evaluates and keeps the tile. Where a batch begins at the index, the tiles of it that the cache hasn't are
/// made ahead of their turn.
///
/// # Errors
///
/// `SwapFault` only where the swap's count of I/O errors rose in this call, `SwapFull` only where the
/// chain's names and one more can fill the swap, and `NoMemory` if memory runs out. The cached pairs are
/// then right where they were, and a permit may be spent for each tile that is needed from the index on, by the strips
/// after this one too.
pub(crate) fn hold_next<H: ChainMeaning, S: SourceTiles<H>, C: PairStore<H>, K: OpKit + Sync, R>(
    by: &Evaluator<'_, K>,
    tiles: &mut StripTiles,
    sources: &mut S,
    cache: &mut C,
    chain: &mut H,
    purse: &mut K::Purse,
    strip: &Strip,
    later: &[Strip],
    index: usize,
    node: u32,
    at: TileAt,
    workers: Workers<'_, R>,
    ahead: &mut AheadTiles,
) -> Result<bool, SwapRefused>
where
    K::Op: Sync,
    K::Permit: Send,
    R: Threads + Sync,
    requires stated { AreStatedWith K.Op.meanings (S.facts sources.old) by.now.nodes.now by.now.inputs.now }
    requires strip { IsStripOf K.Op.meanings by.now.nodes.now strip.now }
    requires later { AllByRecursion (IsStripOf K.Op.meanings by.now.nodes.now) later.now }
    requires entry { slice_get strip.now.need index ≡ Some (node, at) }
    requires held { HoldsNeed by.now.nodes.now (take index strip.now.need) tiles.old }
    requires over { AreOver (render_state H.ChainMeaning S.SourceTiles C.PairStore sources.old cache.old chain.old (K.permits purse.old)) }
    requires sized { AreSizedPairs by.now.nodes.now (C.sizes cache.old (H.held chain.old)) }
    requires ahead { AreNext by.now.nodes.now (C.pairs cache.old) (needed_from strip.now later.now index) ahead.old }
    requires permits { length (needed_from strip.now later.now index) ≤ K.permits purse.old + length ahead.old }
    ensures { HoldsNext K.Op.meanings by.now.nodes.now strip.now later.now index (node, at) tiles.old tiles.new ahead.old ahead.new
        (render_state H.ChainMeaning S.SourceTiles C.PairStore sources.old cache.old chain.old (K.permits purse.old))
        (render_state H.ChainMeaning S.SourceTiles C.PairStore sources.new cache.new chain.new (K.permits purse.new)) result }
{
    look_ahead(
        by, tiles, sources, cache, chain, purse, strip, later, index, workers, ahead,
    )?;
    let made = ahead.take(node, at);
    let (tile, found) = needed_tile(by, tiles, sources, cache, chain, purse, node, at, made)?;
    tiles.hold(node, at, tile)?;
    Ok(found)
}
