//! What tiles of nodes ask of the nodes before them.

ghost use Rattle.std.specs.Prelude.{◌≡◌, ◌≢◌, ℕ, ◌∷◌, [], ◌++◌, ◌<◌, List, IfOk, OnOk, length};
ghost use Rattle.model_graphs.specs.Facts.{stated_shapes};
ghost use Rattle.model_states.specs.Need.{Asked, asked_by, asked_of};
ghost use Rattle.model_states.specs.Regions.{tiles_of_any};
ghost use Rattle.roi_planner.specs.Asked.{AreAsked, MeetSameTiles, asked_of_body, asked_of_part};
ghost use Rattle.roi_planner.specs.Inputs.{AreStatedOverSome, SuitsBody, SuitsInputs, all_inputs, box_at, step_at};

use crate::inputs::NodeInputs;
use crate::region::Region;
use alloc_basics::NoMemory;
use model_graphs::{Body, NodeFact};
use op_contracts::OpKit;
use plane_rect::{Rect, TileAt, tile_part};
use std::alloc::Global;

/// Returns so many regions, of which nothing is asked.
pub(crate) fn no_regions(alloc: Global, count: usize) -> Result<Vec<Region>, NoMemory>
    ensures count { IfOk result (λ regions. length regions.items ≡ count) }
    ensures asked { IfOk result (λ regions. AreAsked regions.items []) }
{
    let mut regions = Vec::with_capacity(alloc, count)?;
    for _ in 0..count {
        regions.push(Region::new(alloc))?;
    }
    Ok(regions)
}

/// Adds a rectangle that is asked of the node at a position.
pub(crate) fn ask_one(
    regions: &mut Vec<Region>,
    position: usize,
    rect: Rect,
) -> Result<(), NoMemory>
    requires { position < length regions.old.items }
    ensures asked { (asked : List Asked) → AreAsked regions.old.items asked →
        OnOk result (AreAsked regions.new.items (asked ++ (position, rect) ∷ [])) }
    ensures count { length regions.new.items ≡ length regions.old.items }
{
    let region = &mut regions[position];
    region.add(rect)
}

/// Adds what a part of an operation's result asks of its inputs.
fn ask_part<K: OpKit>(
    kit: &K,
    regions: &mut Vec<Region>,
    op: &K::Op,
    inputs: &NodeInputs,
    part: Rect,
) -> Result<(), NoMemory>
    requires { SuitsInputs K.Op.meanings op.now inputs.now (length regions.old.items) }
    ensures asked { (asked : List Asked) → AreAsked regions.old.items asked →
        OnOk result (AreAsked regions.new.items (asked ++ asked_of_part K.Op.meanings op.now inputs.now part)) }
    ensures count { length regions.new.items ≡ length regions.old.items }
{
    for (input, position) in inputs.positions().iter().enumerate() {
        let required = kit.required(op, inputs.boxes(), input, part);
        ask_one(regions, *position, required)?;
    }
    Ok(())
}

/// Adds what tiles of a node of this body ask, each for its part of the node's box.
fn ask_body<K: OpKit>(
    kit: &K,
    regions: &mut Vec<Region>,
    body: &Body<K::Op>,
    inputs: &NodeInputs,
    bounds: &Rect,
    tiles: &[TileAt],
) -> Result<(), NoMemory>
    requires { SuitsBody K.Op.meanings body.now inputs.now (length regions.old.items) }
    ensures asked { (asked : List Asked) → AreAsked regions.old.items asked →
        OnOk result (AreAsked regions.new.items
        (asked ++ asked_of_body K.Op.meanings body.now inputs.now bounds.now tiles.now)) }
    ensures count { length regions.new.items ≡ length regions.old.items }
{
    let Body::Compute { op, .. } = body else {
        return Ok(());
    };
    for tile in tiles {
        ask_part(kit, regions, op, inputs, tile_part(tile, bounds))?;
    }
    Ok(())
}

/// Returns the tiles that are needed of the node at a position, of which all is known that is asked;
/// adds what they ask of its inputs.
pub(crate) fn ask_node<K: OpKit>(
    kit: &K,
    alloc: Global,
    nodes: &[NodeFact<K::Op>],
    inputs: &[NodeInputs],
    regions: &mut Vec<Region>,
    node: usize,
) -> Result<Vec<TileAt>, NoMemory>
    requires node { node < length nodes.now }
    requires stated { AreStatedOverSome K.Op.meanings nodes.now }
    requires inputs { inputs.now ≡ all_inputs nodes.now }
    requires count { length regions.old.items ≡ length nodes.now }
    ensures tiles { (asked : List Asked) → AreAsked regions.old.items asked →
        IfOk result (λ tiles. tiles.items ≡ tiles_of_any (asked_of asked node)) }
    ensures asked { (asked : List Asked) → AreAsked regions.old.items asked →
        OnOk result (AreAsked regions.new.items
        (asked ++ asked_by K.Op.meanings (stated_shapes nodes.now) (step_at nodes.now node)
        (box_at nodes.now node) (tiles_of_any (asked_of asked node)))) }
    ensures count { length regions.new.items ≡ length regions.old.items }
{
    let tiles = regions[node].tiles(alloc)?;
    let fact = &nodes[node];
    let (body, bounds) = (&fact.spec.body, &fact.bounds);
    ask_body(kit, regions, body, &inputs[node], bounds, &tiles)?;
    Ok(tiles)
}
