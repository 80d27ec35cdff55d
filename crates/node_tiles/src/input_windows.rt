//! Windows of the inputs of a tile, of tiles that are held and of those of sources.

ghost use Rattle.std.specs.Prelude.{◌≡◌, ◌≤◌, IfErr, IfOk, length};
ghost use Rattle.chain_owners.specs.Counts.{Grows};
ghost use Rattle.plane_rect.specs.Tile.{tiles};
ghost use Rattle.pixel_formats.specs.Limits.{max_nodes};
ghost use Rattle.chain_owners.specs.Cause.{HasSwapCause};
ghost use Rattle.op_contracts.specs.TileList.{tiles_in};
ghost use Rattle.roi_planner.specs.Inputs.{SuitsInputs};
ghost use Rattle.node_tiles.specs.Inputs.{AreInputTiles, AreInputWindows, AreInputsThere, AreThere, IsInputTile, IsInputWindow, IsThere};
ghost use Rattle.node_tiles.specs.Reads.{Reads, seen};

use crate::strip_tiles::StripTiles;
use chain_owners::{ChainMeaning, SwapRefused};
use model_graphs::{Body, NodeFact};
use op_contracts::{OpKit, SourceTiles, Window, WindowTiles};
use plane_rect::{Rect, TileAt};
use roi_planner::NodeInputs;
use std::alloc::Global;
use tile_cow::Tile;

/// Returns a tile of a node of this body: a share of the held one, or the tile of a source's buffer.
///
/// # Errors
///
/// `NoMemory` if memory runs out, and those of the sources.
fn input_tile<H: ChainMeaning, S: SourceTiles<H>, Op>(
    alloc: Global,
    body: &Body<Op>,
    held: &StripTiles,
    sources: &mut S,
    chain: &mut H,
    node: u32,
    at: TileAt,
) -> Result<Tile, SwapRefused>
    requires over { S.is_over sources.old (H.held chain.old) }
    requires there { IsThere (S.facts sources.old) held.now body.now node at }
    ensures tile { IfOk result
        (IsInputTile (S.facts sources.old) (S.images sources.old (H.held chain.old)) held.now body.now node at) }
    ensures over { S.is_over sources.new (H.held chain.new) }
    ensures reads { Reads
        (seen (S.facts sources.old) (S.images sources.old (H.held chain.old)) (S.names sources.old) (H.held chain.old) (H.counts chain.old) (H.loans chain.old))
        (seen (S.facts sources.new) (S.images sources.new (H.held chain.new)) (S.names sources.new) (H.held chain.new) (H.counts chain.new) (H.loans chain.new)) }
    ensures cause { IfErr result (HasSwapCause (H.counts chain.old) (H.counts chain.new) (H.counts chain.old).names) }
    ensures valid { H.is_valid chain.old → H.is_valid chain.new }
{
    match body {
        Body::Source { buffer } => sources.tile(chain, *buffer, at),
        Body::Compute { .. } => Ok(held.tile(node, at).unwrap().share(alloc)?),
    }
}

/// Returns the tiles of a node of this body that meet a rectangle, in their order. Takes time in proportion to
/// their number.
///
/// # Errors
///
/// `NoMemory` if memory runs out, and those of the sources.
pub fn input_tiles<H: ChainMeaning, S: SourceTiles<H>, Op>(
    alloc: Global,
    body: &Body<Op>,
    held: &StripTiles,
    sources: &mut S,
    chain: &mut H,
    node: u32,
    need: Rect,
) -> Result<WindowTiles, SwapRefused>
    requires over { S.is_over sources.old (H.held chain.old) }
    requires there { AreThere (S.facts sources.old) held.now body.now node need }
    ensures positions { IfOk result (λ entries. tiles_in entries ≡ tiles need) }
    ensures each { IfOk result
        (AreInputTiles (S.facts sources.old) (S.images sources.old (H.held chain.old)) held.now body.now node) }
    ensures over { S.is_over sources.new (H.held chain.new) }
    ensures reads { Reads
        (seen (S.facts sources.old) (S.images sources.old (H.held chain.old)) (S.names sources.old) (H.held chain.old) (H.counts chain.old) (H.loans chain.old))
        (seen (S.facts sources.new) (S.images sources.new (H.held chain.new)) (S.names sources.new) (H.held chain.new) (H.counts chain.new) (H.loans chain.new)) }
    ensures cause { IfErr result (HasSwapCause (H.counts chain.old) (H.counts chain.new) (H.counts chain.old).names) }
    ensures valid { H.is_valid chain.old → H.is_valid chain.new }
{
    let mut entries = Vec::new(alloc);
    for at in need.tiles() {
        let tile = input_tile(alloc, body, held, sources, chain, node, at)?;
        entries.push((at, tile))?;
    }
    Ok(WindowTiles::new(entries))
}

/// Returns a window of a node for a rectangle, by its tiles that meet the rectangle. Takes time in
/// proportion to their number.
///
/// # Errors
///
/// `NoMemory` if memory runs out, and those of the sources.
fn input_window<H: ChainMeaning, S: SourceTiles<H>, Op>(
    alloc: Global,
    fact: &NodeFact<Op>,
    held: &StripTiles,
    sources: &mut S,
    chain: &mut H,
    node: u32,
    need: Rect,
) -> Result<Window, SwapRefused>
    requires over { S.is_over sources.old (H.held chain.old) }
    requires there { AreThere (S.facts sources.old) held.now fact.now.spec.body node need }
    ensures window { IfOk result
        (IsInputWindow (S.facts sources.old) (S.images sources.old (H.held chain.old)) held.now fact.now node need) }
    ensures over { S.is_over sources.new (H.held chain.new) }
    ensures reads { Reads
        (seen (S.facts sources.old) (S.images sources.old (H.held chain.old)) (S.names sources.old) (H.held chain.old) (H.counts chain.old) (H.loans chain.old))
        (seen (S.facts sources.new) (S.images sources.new (H.held chain.new)) (S.names sources.new) (H.held chain.new) (H.counts chain.new) (H.loans chain.new)) }
    ensures cause { IfErr result (HasSwapCause (H.counts chain.old) (H.counts chain.new) (H.counts chain.old).names) }
    ensures valid { H.is_valid chain.old → H.is_valid chain.new }
{
    let tiles = input_tiles(alloc, &fact.spec.body, held, sources, chain, node, need)?;
    Ok(Window::new(need, fact.format, fact.bounds, tiles))
}

/// Returns a window of each input of an operation, for what a part of its result requires of it.
///
/// # Errors
///
/// `NoMemory` if memory runs out, and those of the sources.
pub(crate) fn input_windows<H: ChainMeaning, S: SourceTiles<H>, K: OpKit>(
    kit: &K,
    alloc: Global,
    nodes: &[NodeFact<K::Op>],
    inputs: &NodeInputs,
    held: &StripTiles,
    sources: &mut S,
    chain: &mut H,
    op: &K::Op,
    part: Rect,
) -> Result<Vec<Window>, SwapRefused>
    requires over { S.is_over sources.old (H.held chain.old) }
    requires few { length nodes.now ≤ max_nodes }
    requires suits { SuitsInputs K.Op.meanings op.now inputs.now (length nodes.now) }
    requires there { AreInputsThere K.Op.meanings (S.facts sources.old) held.now nodes.now op.now inputs.now part }
    ensures windows { IfOk result (λ windows. AreInputWindows K.Op.meanings (S.facts sources.old)
        (S.images sources.old (H.held chain.old)) held.now nodes.now op.now inputs.now part windows.items) }
    ensures over { S.is_over sources.new (H.held chain.new) }
    ensures reads { Reads
        (seen (S.facts sources.old) (S.images sources.old (H.held chain.old)) (S.names sources.old) (H.held chain.old) (H.counts chain.old) (H.loans chain.old))
        (seen (S.facts sources.new) (S.images sources.new (H.held chain.new)) (S.names sources.new) (H.held chain.new) (H.counts chain.new) (H.loans chain.new)) }
    ensures cause { IfErr result (HasSwapCause (H.counts chain.old) (H.counts chain.new) (H.counts chain.old).names) }
    ensures valid { H.is_valid chain.old → H.is_valid chain.new }
{
    let mut windows = Vec::new(alloc);
    for (input, position) in inputs.positions().iter().enumerate() {
        let need = kit.required(op, inputs.boxes(), input, part);
        let fact = &nodes[*position];
        let node = *position as u32;
        let window = input_window(alloc, fact, held, sources, chain, node, need)?;
        windows.push(window)?;
    }
    Ok(windows)
}
