//! Tiles of nodes that wait to be made.

ghost use Rattle.std.specs.Prelude.{◌≡◌, ℕ, ◌+◌, ◌<◌, IfErr, IfOk, IfSome, MatchResult, Some};
ghost use Rattle.chain_owners.specs.Counts.{Grows};
ghost use Rattle.model_images.specs.{Paint.cut, Raw.tile_bytes};
ghost use Rattle.model_graphs.specs.{Evaluation.Buffers, Facts.shapes_of_facts, Permits.Spent};
ghost use Rattle.model_states.specs.Valid.{AreStated};
ghost use Rattle.chain_owners.specs.Cause.{HasSwapCause};
ghost use Rattle.op_contracts.specs.Applying.{result_of_windows};
ghost use Rattle.roi_planner.specs.Inputs.{all_inputs};
ghost use Rattle.node_tiles.specs.Jobs.{IsApplicable, IsTileJob, job_bytes};
ghost use Rattle.node_tiles.specs.Reads.{Reads, seen};
ghost use Rattle.node_tiles.specs.Stated.{AreTilesOf, HaveLengths, IsReady, bytes_at};

use crate::input_windows::input_windows;
use crate::strip_tiles::StripTiles;
use alloc_basics::NoMemory;
use chain_owners::{ChainMeaning, SwapRefused};
use model_graphs::{Body, NodeFact};
use op_contracts::{OpKit, SourceTiles, Window};
use plane_rect::{Rect, TileAt, tile_part};
use roi_planner::NodeInputs;
use std::alloc::Global;
use std::marker::Model;
use tile_cow::Tile;

/// A tile of a node that waits to be made, with all that this takes: the windows of its inputs and a permit. So jobs
/// are carried out in any order, and on any thread. A clause sees the job without its permit.
#[derive(Drop)]
pub struct TileJob<P> {
    /// The position of the node among the nodes.
    pub node: u32,
    /// The tile.
    pub at: TileAt,
    part: Rect,
    windows: Vec<Window>,
    permit: P,
    nanoseconds: u64,
}

impl<P> Model for TileJob<P> {
    ghost use Rattle.node_tiles.specs.Jobs.{Job};

    ghost Value = { Job };

    ghost view = { λ job. record {
      node = job.node;
      at = job.at;
      part = job.part;
      windows = job.windows.items;
    } };
}

impl<P> TileJob<P> {
    /// Returns about how many nanoseconds it takes to carry the job out, as the kit said when it was made.
    pub fn nanoseconds(&self) -> u64 {
        self.nanoseconds
    }
}

/// Makes the job of a tile of the node at a position, which is an operation: reads its inputs from the tiles that are
/// held and from the sources, and takes a permit. Over images that are known the job makes the tile of the node's
/// image, if the held tiles are those of theirs. Takes time in proportion to the tiles that it requires.
///
/// # Errors
///
/// `SwapFault` only where the swap's count of I/O errors rose in this call, `SwapFull` only where the chain's names can
/// fill the swap, and `NoMemory` if memory runs out. No permit is then spent.
pub fn tile_job<H: ChainMeaning, S: SourceTiles<H>, K: OpKit>(
    kit: &K,
    alloc: Global,
    nodes: &[NodeFact<K::Op>],
    inputs: &[NodeInputs],
    held: &StripTiles,
    sources: &mut S,
    chain: &mut H,
    purse: &mut K::Purse,
    node: u32,
    at: TileAt,
) -> Result<TileJob<K::Permit>, SwapRefused>
    requires stated { AreStated K.Op.meanings (shapes_of_facts (S.facts sources.old)) nodes.now }
    requires inputs { inputs.now ≡ all_inputs nodes.now }
    requires ready { IsReady K.Op.meanings nodes.now held.now node at }
    requires lengths { HaveLengths nodes.now held.now }
    requires over { S.is_over sources.old (H.held chain.old) }
    requires permits { 0 < K.permits purse.old }
    ensures node { IfOk result (λ job. job.node ≡ node) }
    ensures tile { IfOk result (λ job. job.at ≡ at) }
    ensures job { IfOk result (IsTileJob K.Op.meanings nodes.now) }
    ensures bytes { (images : Buffers) → S.images sources.old (H.held chain.old) ≡ Some images →
        AreTilesOf K.Op.meanings nodes.now images held.now →
        IfOk result (λ job. job_bytes K.Op.meanings nodes.now job ≡ bytes_at K.Op.meanings nodes.now images node at) }
    ensures permits { MatchResult result (λ _. Spent (K.permits purse.old) (K.permits purse.new) 1)
        (λ _. K.permits purse.new ≡ K.permits purse.old) }
    ensures over { S.is_over sources.new (H.held chain.new) }
    ensures reads { Reads
        (seen (S.facts sources.old) (S.images sources.old (H.held chain.old)) (S.names sources.old) (H.held chain.old) (H.counts chain.old) (H.loans chain.old))
        (seen (S.facts sources.new) (S.images sources.new (H.held chain.new)) (S.names sources.new) (H.held chain.new) (H.counts chain.new) (H.loans chain.new)) }
    ensures cause { IfErr result (HasSwapCause (H.counts chain.old) (H.counts chain.new) (H.counts chain.old).names) }
    ensures valid { H.is_valid chain.old → H.is_valid chain.new }
{
    let fact = &nodes[node as usize];
    let Body::Compute { op, .. } = &fact.spec.body else {
        unreachable!()
    };
    let inputs = &inputs[node as usize];
    let part = tile_part(&at, &fact.bounds);
    let windows = input_windows(kit, alloc, nodes, inputs, held, sources, chain, op, part)?;
    let nanoseconds = kit.nanoseconds(op, &windows);
    let permit = kit.take(purse).unwrap();
    Ok(TileJob {
        node,
        at,
        part,
        windows,
        permit,
        nanoseconds,
    })
}

/// Carries a job out: applies its node's operation to its windows, by its permit. Returns the whole tile, zero outside
/// the node's box.
///
/// # Errors
///
/// `NoMemory` if memory runs out.
pub fn apply_job<K: OpKit>(
    kit: &K,
    alloc: Global,
    nodes: &[NodeFact<K::Op>],
    inputs: &[NodeInputs],
    job: TileJob<K::Permit>,
) -> Result<Tile, NoMemory>
    requires inputs { inputs.now ≡ all_inputs nodes.now }
    requires job { IsTileJob K.Op.meanings nodes.now job }
    ensures { IfOk result (λ tile. tile ≡ job_bytes K.Op.meanings nodes.now job) }
{
    let node = job.node as usize;
    let fact = &nodes[node];
    let Body::Compute { op, .. } = &fact.spec.body else {
        unreachable!()
    };
    let inputs = &inputs[node];
    let boxes = inputs.boxes();
    if let Some(tile) = copied_tile(kit, op, boxes, &job) {
        return tile.share(alloc);
    }
    let patch = kit.apply(alloc, job.permit, op, boxes, &job.windows, job.part)?;
    patch.tile(alloc, job.at)
}

/// Returns the tile of a job's window that the job is to make, where its operation copies an input over the whole tile:
/// then it is given another owner, which takes no memory where the tile can be shared.
fn copied_tile<'a, K: OpKit>(
    kit: &K,
    op: &K::Op,
    boxes: &[Rect],
    job: &'a TileJob<K::Permit>,
) -> Option<&'a Tile>
    requires { IsApplicable K.Op.meanings op.now boxes.now job.now.windows job.now.part }
    ensures { IfSome result (λ tile. tile.now
        ≡ tile_bytes (cut (result_of_windows K.Op.meanings op.now job.now.windows) job.now.part) job.now.at) }
{
    let square = job.at.rect();
    if square.is_empty() || job.part != square {
        return None;
    }
    let input = kit.copied_input(op, boxes, job.part)?;
    job.windows.get(input)?.tile(job.at)
}
