//! A needed tile that the cache hasn't.

ghost use Rattle.std.specs.Prelude.{◌≡◌, ◌+◌, ◌<◌, IfOk, IfSome, MatchResult, Some, length};
ghost use Rattle.model_graphs.specs.{Evaluation.Buffers, Permits.Spent};
ghost use Rattle.node_tiles.specs.Stated.{AreTilesOf, HaveLengths, IsReady, bytes_at, length_at};
ghost use Rattle.strip_renders.specs.Ahead.{IsMadeOf, IsRefusedAt, permits_of};
ghost use Rattle.strip_renders.specs.Moments.{ReadsTiles, source_state};
ghost use Rattle.strip_renders.specs.Strips.{AreStatedWith};

use crate::evaluator::Evaluator;
use chain_owners::{ChainMeaning, SwapRefused};
use node_tiles::{StripTiles, apply_job, tile_job};
use op_contracts::{OpKit, SourceTiles};
use plane_rect::TileAt;
use tile_cow::Tile;

/// Returns a tile of the node at a position: the one that was made ahead, with its permit, or else carries out its job,
/// by one permit.
///
/// # Errors
///
/// `SwapFault` only where the swap's count of I/O errors rose in this call, `SwapFull` only where the
/// chain's names can fill the swap, and `NoMemory` if memory runs out. The permit may then be spent.
pub(crate) fn made_or_evaluated<H: ChainMeaning, S: SourceTiles<H>, K: OpKit + Sync>(
    by: &Evaluator<'_, K>,
    held: &StripTiles,
    node: u32,
    at: TileAt,
    made: Option<Tile>,
    sources: &mut S,
    chain: &mut H,
    purse: &mut K::Purse,
) -> Result<Tile, SwapRefused>
where
    K::Op: Sync,
    K::Permit: Send,
    requires stated { AreStatedWith K.Op.meanings (S.facts sources.old) by.now.nodes.now by.now.inputs.now }
    requires ready { IsReady K.Op.meanings by.now.nodes.now held.now node at }
    requires lengths { HaveLengths by.now.nodes.now held.now }
    requires made { IfSome made (λ tile. length tile ≡ length_at by.now.nodes.now node) }
    requires over { S.is_over sources.old (H.held chain.old) }
    requires permits { 0 < K.permits purse.old + permits_of made }
    ensures length { IfOk result (λ tile. length tile ≡ length_at by.now.nodes.now node) }
    ensures bytes { (images : Buffers) → S.images sources.old (H.held chain.old) ≡ Some images →
        AreTilesOf K.Op.meanings by.now.nodes.now images held.now →
        IsMadeOf K.Op.meanings by.now.nodes.now images (node, at) made →
        IfOk result (λ tile. tile ≡ bytes_at K.Op.meanings by.now.nodes.now images node at) }
    ensures permits { MatchResult result (λ _. Spent (K.permits purse.old + permits_of made) (K.permits purse.new) 1)
        (λ _. IsRefusedAt (K.permits purse.old) (K.permits purse.new) made) }
    ensures read { ReadsTiles (source_state H.ChainMeaning S.SourceTiles sources.old chain.old)
        (source_state H.ChainMeaning S.SourceTiles sources.new chain.new) result }
{
    if let Some(tile) = made {
        return Ok(tile);
    }
    let job = tile_job(
        by.kit, by.alloc, by.nodes, by.inputs, held, sources, chain, purse, node, at,
    )?;
    Ok(apply_job(by.kit, by.alloc, by.nodes, by.inputs, job)?)
}
