//! What a strip needs.

ghost use Rattle.std.specs.Prelude.{◌≡◌, ℕ, ◌++◌, ◌^◌, ◌<◌, ◌≤◌, List, IfOk, OnOk, length, reverse, take};
ghost use Rattle.model_graphs.specs.Facts.{specs_of, stated_shapes};
ghost use Rattle.model_graphs.specs.{Node.step_of, declared.node.NodeFact.NodeFact as Fact};
ghost use Rattle.model_states.specs.Need.{Asked, needed, needed_of, strip_of};
ghost use Rattle.model_states.specs.Valid.{steps_of};
ghost use Rattle.roi_planner.specs.Inputs.{AreStatedOverSome, all_inputs};
ghost use Rattle.roi_planner.specs.Asked.{AreAsked};

use crate::asks::{ask_node, ask_one, no_regions};
use crate::inputs::{NodeInputs, all_inputs};
use crate::region::Region;
use alloc_basics::NoMemory;
use model_graphs::{Body, NodeFact};
use model_states::{NeedList, Strip};
use op_contracts::OpKit;
use plane_rect::{Rect, TileAt};
use std::alloc::Global;

/// Returns what is needed for a rectangle of the node at a position, which are fewer than 2^32 tiles:
/// the rectangle is a request cut to one row of tiles. Takes time in proportion to the needed tiles and
/// to the inputs times the nodes.
///
/// # Errors
///
/// `NoMemory` if memory runs out.
pub fn strip_need<K: OpKit>(
    kit: &K,
    alloc: Global,
    nodes: &[NodeFact<K::Op>],
    node: u32,
    rect: Rect,
) -> Result<Strip, NoMemory>
    requires node { node < length nodes.now }
    requires stated { AreStatedOverSome K.Op.meanings nodes.now }
    ensures strip { IfOk result (λ strip. strip ≡ strip_of K.Op.meanings nodes.now node rect) }
    ensures few { IfOk result (λ strip. length strip.need < 2 ^ 32) }
{
    let inputs = all_inputs(alloc, nodes)?;
    Ok(strip_of(kit, alloc, nodes, &inputs, node, rect)?)
}

/// Returns what [`strip_need`] returns, where the inputs of all nodes are known. Takes time in
/// proportion to the needed tiles and to the nodes.
///
/// # Errors
///
/// `NoMemory` if memory runs out.
pub(crate) fn strip_of<K: OpKit>(
    kit: &K,
    alloc: Global,
    nodes: &[NodeFact<K::Op>],
    inputs: &[NodeInputs],
    node: u32,
    rect: Rect,
) -> Result<Strip, NoMemory>
    requires node { node < length nodes.now }
    requires stated { AreStatedOverSome K.Op.meanings nodes.now }
    requires inputs { inputs.now ≡ all_inputs nodes.now }
    ensures strip { IfOk result (λ strip. strip ≡ strip_of K.Op.meanings nodes.now node rect) }
    ensures few { IfOk result (λ strip. length strip.need < 2 ^ 32) }
{
    let index = node as usize;
    let mut regions = no_regions(alloc, nodes.len())?;
    let part = rect.meet(&nodes[index].bounds);
    ask_one(&mut regions, index, part)?;
    let list = needed(kit, alloc, nodes, inputs, &mut regions, index + 1)?;
    let need = NeedList::new(list);
    Ok(Strip { rect, need })
}

/// Returns what is needed of the first `count` nodes, where the regions are asked of them: in the order
/// of the nodes, those of a node row by row.
fn needed<K: OpKit>(
    kit: &K,
    alloc: Global,
    nodes: &[NodeFact<K::Op>],
    inputs: &[NodeInputs],
    regions: &mut Vec<Region>,
    count: usize,
) -> Result<Vec<(u32, TileAt)>, NoMemory>
    requires count { count ≤ length nodes.now }
    requires stated { AreStatedOverSome K.Op.meanings nodes.now }
    requires inputs { inputs.now ≡ all_inputs nodes.now }
    requires regions { length regions.old.items ≡ length nodes.now }
    ensures { (asked : List Asked) → AreAsked regions.old.items asked →
        IfOk result (λ list. list.items ≡ needed K.Op.meanings (stated_shapes nodes.now)
        asked (reverse (take count (steps_of (specs_of nodes.now))))) }
{
    if count == 0 {
        return Ok(Vec::new(alloc));
    }
    let node = count - 1;
    let tiles = ask_node(kit, alloc, nodes, inputs, regions, node)?;
    let mut list = needed(kit, alloc, nodes, inputs, regions, node)?;
    let last = &nodes[node];
    add_needed(&mut list, node as u32, &last.spec.body, &tiles)?;
    Ok(list)
}

/// Adds the tiles of a node that is no source.
fn add_needed<Op>(
    list: &mut Vec<(u32, TileAt)>,
    node: u32,
    body: &Body<Op>,
    tiles: &[TileAt],
) -> Result<(), NoMemory>
    ensures { (facts : List (Fact Op)) → OnOk result (list.new.items ≡ list.old.items
        ++ needed_of node (step_of (specs_of facts) body.now) tiles.now) }
{
    if let Body::Source { .. } = body {
        return Ok(());
    }
    for tile in tiles {
        list.push((node, *tile))?;
    }
    Ok(())
}
