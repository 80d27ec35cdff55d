//! One strip of a render.

ghost use Rattle.std.specs.Prelude.{◌+◌, ◌≤◌, length};
ghost use Rattle.std.specs.List.{AllByRecursion};
ghost use Rattle.strip_renders.specs.Ahead.{AreNext};
ghost use Rattle.strip_renders.specs.Moments.{AreOver, render_state};
ghost use Rattle.strip_renders.specs.Steps.{RendersStrip};
ghost use Rattle.strip_renders.specs.Strips.{AreSizedPairs, AreStatedWith, IsStripOf, needed_from};

use crate::ahead::AheadTiles;
use crate::evaluator::Evaluator;
use crate::turns::hold_next;
use chain_owners::{ChainMeaning, SwapRefused};
use node_cache::PairStore;
use node_tiles::StripTiles;
use op_contracts::{OpKit, SourceTiles};
use roi_planner::Strip;
use std::thread::Threads;
use worker_pieces::Workers;

/// What a strip has done: the tiles that it needs, how many of them were evaluated and how many the
/// cache had.
#[derive(Drop)]
pub struct StripDone {
    pub tiles: StripTiles,
    pub applied: u64,
    pub reused: u64,
}

/// Renders one strip of a request: for each tile that it needs, in order, looks its pair up in the cache,
/// and evaluates and keeps the tile where it isn't there. Each needed tile is held while the strip is in
/// work, so nothing is looked up twice, also where a pair falls off the cache. The cached pairs and the
/// counts are those of the list after these pairs are looked up, also where no bytes are known.
///
/// Where there are several workers, the tiles of a node that the cache hasn't are evaluated by as many of
/// them as these tiles are worth, before the first is looked up, and where only this node's are needed also those
/// of strips after this one: these are kept ahead, with their permits, for the next call. The result is that of one
/// worker.
///
/// # Errors
///
/// `SwapFault` only where the swap's count of I/O errors rose in this call, `SwapFull` only where the
/// chain's names and one more for each needed tile can fill the swap, and, where each cached name has one
/// owner, the names of a full cache and one more can too; and `NoMemory` if memory runs out.
/// The cached pairs are then those of a part of the strip, and right where they were, and a permit may be spent for
/// each tile that is needed, by the strips after this one too.
pub fn render_strip<H: ChainMeaning, S: SourceTiles<H>, C: PairStore<H>, K: OpKit + Sync, R>(
    by: &Evaluator<'_, K>,
    sources: &mut S,
    cache: &mut C,
    chain: &mut H,
    purse: &mut K::Purse,
    strip: &Strip,
    later: &[Strip],
    workers: Workers<'_, R>,
    ahead: &mut AheadTiles,
) -> Result<StripDone, SwapRefused>
where
    K::Op: Sync,
    K::Permit: Send,
    R: Threads + Sync,
    requires over { AreOver (render_state H.ChainMeaning S.SourceTiles C.PairStore sources.old cache.old chain.old (K.permits purse.old)) }
    requires sized { AreSizedPairs by.now.nodes.now (C.sizes cache.old (H.held chain.old)) }
    requires stated { AreStatedWith K.Op.meanings (S.facts sources.old) by.now.nodes.now by.now.inputs.now }
    requires strip { IsStripOf K.Op.meanings by.now.nodes.now strip.now }
    requires later { AllByRecursion (IsStripOf K.Op.meanings by.now.nodes.now) later.now }
    requires ahead { AreNext by.now.nodes.now (C.pairs cache.old) (needed_from strip.now later.now 0) ahead.old }
    requires permits { length (needed_from strip.now later.now 0) ≤ K.permits purse.old + length ahead.old }
    ensures { RendersStrip K.Op.meanings by.now.nodes.now strip.now later.now ahead.old ahead.new
        (render_state H.ChainMeaning S.SourceTiles C.PairStore sources.old cache.old chain.old (K.permits purse.old))
        (render_state H.ChainMeaning S.SourceTiles C.PairStore sources.new cache.new chain.new (K.permits purse.new)) result }
{
    let mut tiles = StripTiles::new(by.alloc);
    tiles.reserve(strip.need.as_slice().len())?;
    let mut applied = 0;
    let mut reused = 0;
    for (index, entry) in strip.need.as_slice().iter().enumerate() {
        let found = hold_next(
            by, &mut tiles, sources, cache, chain, purse, strip, later, index, entry.0, entry.1,
            workers, ahead,
        )?;
        if found {
            reused += 1;
        } else {
            applied += 1;
        }
    }
    Ok(StripDone {
        tiles,
        applied,
        reused,
    })
}
