//! The tiles that are needed for a rectangle of a node, strip by strip.

ghost use Rattle.std.specs.Prelude.{◌≡◌, ◌++◌, ◌+◌, ◌^◌, ◌<◌, ◌≤◌, IfOk, List, OnOk, length, map, reverse, slice_index_or, take};
ghost use Rattle.model_graphs.specs.Facts.{specs_of, stated_shapes};
ghost use Rattle.model_graphs.specs.Node.{Node, index_of, step_of};
ghost use Rattle.model_graphs.specs.Shapes.{no_shape};
ghost use Rattle.model_operations.specs.{declared.operation.IntOp.IntOp, Meanings.int_meanings};
ghost use Rattle.model_states.specs.Need.{asked_by, asked_of, need, needed, needed_of, strip_of};
ghost use Rattle.model_states.specs.Valid.{input_boxes, steps_of};
ghost use Rattle.model_states.specs.Regions.{tiles_of_any};
ghost use Rattle.plain_graphs.specs.Needs.{AreBelow, AreStripsBelow, asked_of_tiles, asked_within, step_at};

use crate::names::fact_index;
use crate::shapes::stated_at;
use crate::tiles::tiles_of_any;
use alloc_basics::NoMemory;
use model_graphs::{Body, NodeFact};
use model_operations::IntOp;
use model_states::{NeedList, Strip};
use operation_regions::required;
use plane_rect::{Name, Rect, TileAt, strip_rects, tile_part};
use std::alloc::Global;

/// Returns what is needed for a rectangle of the node at a position: a strip for each row of tiles
/// that it meets, from the top.
///
/// # Errors
///
/// No memory was left.
pub fn need(
    alloc: Global,
    facts: &[NodeFact<IntOp>],
    node: u32,
    request: Rect,
) -> Result<Vec<Strip>, NoMemory>
    requires node { node < length facts.now }
    requires few { length facts.now < 2 ^ 32 }
    ensures need { IfOk result (λ strips. strips.items ≡ need int_meanings facts.now node request) }
    ensures indices { IfOk result (λ strips. AreStripsBelow (length facts.now) strips.items) }
{
    let mut strips = Vec::new(alloc);
    for rectangle in &strip_rects(alloc, &request)? {
        strips.push(strip_of(alloc, facts, node, *rectangle)?)?;
    }
    Ok(strips)
}

/// Returns what is needed for a rectangle of the node at a position.
fn strip_of(
    alloc: Global,
    facts: &[NodeFact<IntOp>],
    node: u32,
    rect: Rect,
) -> Result<Strip, NoMemory>
    requires node { node < length facts.now }
    requires few { length facts.now < 2 ^ 32 }
    ensures strip { IfOk result (λ strip. strip ≡ strip_of int_meanings facts.now node rect) }
    ensures indices { IfOk result (λ strip. AreBelow (length facts.now) strip.need) }
{
    let index = node as usize;
    let part = rect.meet(&stated_at(facts, index).bounds);
    let asked = vec![in alloc; (index, part)]?;
    let need = NeedList::new(needed(alloc, facts, asked, index + 1)?);
    Ok(Strip { rect, need })
}

/// Returns what is needed of the first `count` nodes where this is asked of them: in the order of the
/// nodes, those of a node row by row.
fn needed(
    alloc: Global,
    facts: &[NodeFact<IntOp>],
    asked: Vec<(usize, Rect)>,
    count: usize,
) -> Result<Vec<(u32, TileAt)>, NoMemory>
    requires count { count ≤ length facts.now }
    requires few { length facts.now < 2 ^ 32 }
    ensures needed { IfOk result (λ list. list.items ≡ needed int_meanings (stated_shapes facts.now)
        asked.items (reverse (take count (steps_of (specs_of facts.now))))) }
    ensures indices { IfOk result (λ list. AreBelow count list.items) }
{
    if count == 0 {
        return Ok(Vec::new(alloc));
    }
    let node = count - 1;
    let mut asked = asked;
    let tiles = ask_node(alloc, facts, &mut asked, node)?;
    let mut list = needed(alloc, facts, asked, node)?;
    let last = &facts[node];
    add_needed(&mut list, node as u32, &last.spec.body, &tiles)?;
    Ok(list)
}

/// Returns the tiles that are needed of the node at a position, where this is asked; adds what they
/// ask.
fn ask_node(
    alloc: Global,
    facts: &[NodeFact<IntOp>],
    asked: &mut Vec<(usize, Rect)>,
    node: usize,
) -> Result<Vec<TileAt>, NoMemory>
    requires { node < length facts.now }
    ensures tiles { IfOk result (λ tiles. tiles.items ≡ tiles_of_any (asked_of asked.old.items node)) }
    ensures asked { OnOk result (asked.new.items ≡ asked.old.items
        ++ asked_by int_meanings (stated_shapes facts.now) (step_at (specs_of facts.now) node)
        (slice_index_or (stated_shapes facts.now) node no_shape).box
        (tiles_of_any (asked_of asked.old.items node))) }
{
    let tiles = tiles_of_any(alloc, &asked_of(alloc, asked, node)?)?;
    let last = &facts[node];
    let bounds = stated_at(facts, node).bounds;
    ask(alloc, asked, facts, &last.spec.body, &bounds, &tiles)?;
    Ok(tiles)
}

/// Returns the rectangles that are asked of a node.
fn asked_of(alloc: Global, asked: &[(usize, Rect)], node: usize) -> Result<Vec<Rect>, NoMemory>
    ensures { IfOk result (λ rects. rects.items ≡ asked_of asked.now node) }
{
    Ok(
        asked
            .iter()
            .filter(|a| a.0 == node)
            .map(|a| a.1)
            .collect(alloc)?,
    )
}

/// Returns the positions of the stated nodes of these names, and their stated boxes.
fn inputs_of(
    alloc: Global,
    facts: &[NodeFact<IntOp>],
    names: &[Name],
) -> Result<(Vec<usize>, Vec<Rect>), NoMemory>
    ensures indices { IfOk result (λ found. found.0.items ≡ map (index_of (specs_of facts.now)) names.now) }
    ensures boxes { IfOk result (λ found. found.1.items ≡ input_boxes (stated_shapes facts.now) found.0.items) }
{
    let indices: Vec<usize> = names
        .iter()
        .map(|name| fact_index(facts, *name))
        .collect(alloc)?;
    let boxes: Vec<Rect> = indices
        .iter()
        .map(|index| stated_at(facts, *index).bounds)
        .collect(alloc)?;
    Ok((indices, boxes))
}

/// Adds what tiles of a node of this body and this box ask, each for its part of the box.
fn ask(
    alloc: Global,
    asked: &mut Vec<(usize, Rect)>,
    facts: &[NodeFact<IntOp>],
    body: &Body<IntOp>,
    bounds: &Rect,
    tiles: &[TileAt],
) -> Result<(), NoMemory>
    ensures { OnOk result (asked.new.items ≡ asked.old.items ++ asked_by int_meanings
        (stated_shapes facts.now) (step_of (specs_of facts.now) body.now) bounds.now tiles.now) }
{
    let Body::Compute { op, inputs } = body else {
        return Ok(());
    };
    let (indices, boxes) = inputs_of(alloc, facts, inputs.as_slice())?;
    ask_tiles(asked, op, &boxes, &indices, bounds, tiles)
}

/// Adds what tiles of an operation's box ask of each input.
fn ask_tiles(
    asked: &mut Vec<(usize, Rect)>,
    op: &IntOp,
    boxes: &[Rect],
    indices: &[usize],
    bounds: &Rect,
    tiles: &[TileAt],
) -> Result<(), NoMemory>
    ensures { OnOk result (asked.new.items ≡ asked.old.items
        ++ asked_of_tiles op.now boxes.now indices.now bounds.now tiles.now) }
{
    for tile in tiles {
        ask_part(asked, op, boxes, indices, tile_part(tile, bounds))?;
    }
    Ok(())
}

/// Adds what a part of an operation's result asks of each input.
fn ask_part(
    asked: &mut Vec<(usize, Rect)>,
    op: &IntOp,
    boxes: &[Rect],
    indices: &[usize],
    part: Rect,
) -> Result<(), NoMemory>
    ensures { OnOk result (asked.new.items ≡ asked.old.items
        ++ asked_within op.now boxes.now indices.now part) }
{
    for (input, index) in indices.iter().enumerate() {
        asked.push((*index, required(op, boxes, input, part)))?;
    }
    Ok(())
}

/// Adds the tiles of a node that is no source.
fn add_needed(
    list: &mut Vec<(u32, TileAt)>,
    node: u32,
    body: &Body<IntOp>,
    tiles: &[TileAt],
) -> Result<(), NoMemory>
    ensures { (nodes : List (Node IntOp)) → OnOk result (list.new.items ≡ list.old.items
        ++ needed_of node (step_of nodes body.now) tiles.now) }
{
    if let Body::Source { .. } = body {
        return Ok(());
    }
    for tile in tiles {
        list.push((node, *tile))?;
    }
    Ok(())
}
