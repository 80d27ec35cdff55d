//! One needed tile of a strip.

ghost use Rattle.std.specs.Prelude.{◌+◌, ◌<◌};
ghost use Rattle.model_graphs.specs.Facts.{specs_of, stated_shapes};
ghost use Rattle.model_states.specs.Cache.{IsPairOf, pair_of};
ghost use Rattle.node_tiles.specs.Stated.{HaveLengths, IsReady};
ghost use Rattle.strip_renders.specs.Ahead.{IsMade, permits_of};
ghost use Rattle.strip_renders.specs.Moments.{AreOver, render_state};
ghost use Rattle.strip_renders.specs.Steps.{GivesNeeded};
ghost use Rattle.strip_renders.specs.Strips.{AreSizedPairs, AreStatedWith};

use crate::evaluator::Evaluator;
use crate::fresh::made_or_evaluated;
use chain_owners::{ChainMeaning, SwapRefused};
use node_cache::PairStore;
use node_tiles::StripTiles;
use op_contracts::{OpKit, SourceTiles};
use plane_rect::TileAt;
use tile_cow::Tile;

/// How many pixels a tile has.
const TILE_PIXELS: u32 = 64 * 64;

/// Returns a needed tile, and whether the cache had it: looks its pair up, and where it isn't there keeps
/// the tile that was made ahead, or else evaluates and keeps it.
///
/// # Errors
///
/// `SwapFault` only where the swap's count of I/O errors rose in this call, `SwapFull` only where the
/// chain's names and one more can fill the swap, and `NoMemory` if memory runs out. The cached pairs are
/// then unchanged, and a permit may be spent.
pub(crate) fn needed_tile<H: ChainMeaning, S: SourceTiles<H>, C: PairStore<H>, K: OpKit + Sync>(
    by: &Evaluator<'_, K>,
    held: &StripTiles,
    sources: &mut S,
    cache: &mut C,
    chain: &mut H,
    purse: &mut K::Purse,
    node: u32,
    at: TileAt,
    made: Option<Tile>,
) -> Result<(Tile, bool), SwapRefused>
where
    K::Op: Sync,
    K::Permit: Send,
    requires stated { AreStatedWith K.Op.meanings (S.facts sources.old) by.now.nodes.now by.now.inputs.now }
    requires ready { IsReady K.Op.meanings by.now.nodes.now held.now node at }
    requires of_nodes { IsPairOf (specs_of by.now.nodes.now) (stated_shapes by.now.nodes.now) (pair_of (specs_of by.now.nodes.now) (node, at)) }
    requires lengths { HaveLengths by.now.nodes.now held.now }
    requires over { AreOver (render_state H.ChainMeaning S.SourceTiles C.PairStore sources.old cache.old chain.old (K.permits purse.old)) }
    requires sized { AreSizedPairs by.now.nodes.now (C.sizes cache.old (H.held chain.old)) }
    requires made { IsMade by.now.nodes.now (C.pairs cache.old) (node, at) made }
    requires permits { 0 < K.permits purse.old + permits_of made }
    ensures { GivesNeeded K.Op.meanings by.now.nodes.now held.now (node, at) made
        (render_state H.ChainMeaning S.SourceTiles C.PairStore sources.old cache.old chain.old (K.permits purse.old))
        (render_state H.ChainMeaning S.SourceTiles C.PairStore sources.new cache.new chain.new (K.permits purse.new)) result }
{
    let nodes = by.nodes;
    let fact = &nodes[node as usize];
    let len = TILE_PIXELS * fact.format.pixel_bytes();
    if let Some(tile) = cache.look(chain, fact.spec.name, at, len)? {
        return Ok((tile, true));
    }
    let tile = made_or_evaluated(by, held, node, at, made, sources, chain, purse)?;
    let share = tile.share(by.alloc)?;
    cache.keep(chain, fact.spec.name, at, share)?;
    Ok((tile, false))
}
