//! The inputs of nodes, by their positions.

ghost use Rattle.std.specs.Prelude.{◌≡◌, ◌≤◌, IfOk, length, map, slice_index_or};
ghost use Rattle.model_graphs.specs.Facts.{specs_of, stated_shapes};
ghost use Rattle.model_graphs.specs.Node.{index_of};
ghost use Rattle.model_states.specs.Valid.{input_boxes};
ghost use Rattle.roi_planner.specs.Inputs.{all_inputs, box_at, inputs_of};

use alloc_basics::NoMemory;
use model_graphs::{Body, NodeFact};
use plane_rect::{Name, Rect};
use std::alloc::Global;
use std::marker::Model;

/// The inputs of a node: the positions of their nodes, and their boxes. A clause sees both as lists.
#[derive(Drop)]
pub struct NodeInputs {
    positions: Vec<usize>,
    boxes: Vec<Rect>,
}

impl Model for NodeInputs {
    ghost use Rattle.roi_planner.specs.Inputs.{Inputs};

    ghost Value = { Inputs };

    ghost view = { λ inputs. record { positions = inputs.positions.items; boxes = inputs.boxes.items } };
}

impl NodeInputs {
    /// Finds the inputs of a node of this body. Takes time in proportion to the number of nodes.
    ///
    /// # Errors
    ///
    /// `NoMemory` if memory runs out.
    fn of_body<Op>(
        alloc: Global,
        nodes: &[NodeFact<Op>],
        body: &Body<Op>,
    ) -> Result<NodeInputs, NoMemory>
        ensures { IfOk result (λ inputs. inputs ≡ inputs_of nodes.now body.now) }
    {
        let Body::Compute { inputs, .. } = body else {
            return Ok(NodeInputs {
                positions: Vec::new(alloc),
                boxes: Vec::new(alloc),
            });
        };
        let positions = positions_of(alloc, nodes, inputs.as_slice())?;
        let boxes = boxes_at(alloc, nodes, &positions)?;
        Ok(NodeInputs { positions, boxes })
    }

    /// Returns the positions of the inputs among the nodes.
    pub fn positions(&self) -> &[usize]
        ensures { result.now ≡ self.now.positions }
    {
        &self.positions
    }

    /// Returns the boxes of the inputs.
    pub fn boxes(&self) -> &[Rect]
        ensures { result.now ≡ self.now.boxes }
    {
        &self.boxes
    }
}

/// Finds the inputs of each node. Takes time in proportion to the inputs times the nodes.
///
/// # Errors
///
/// `NoMemory` if memory runs out.
pub fn all_inputs<Op>(alloc: Global, nodes: &[NodeFact<Op>]) -> Result<Vec<NodeInputs>, NoMemory>
    ensures { IfOk result (λ all. all.items ≡ all_inputs nodes.now) }
{
    let mut all = Vec::with_capacity(alloc, nodes.len())?;
    for node in nodes {
        all.push(NodeInputs::of_body(alloc, nodes, &node.spec.body)?)?;
    }
    Ok(all)
}

/// Returns the position of the first node of a name, and the number of nodes where there is none.
fn position_of<Op>(nodes: &[NodeFact<Op>], name: Name) -> usize
    ensures value { result ≡ index_of (specs_of nodes.now) name }
    ensures bound { result ≤ length nodes.now }
{
    nodes
        .iter()
        .position(|node| node.spec.name == name)
        .unwrap_or(nodes.len())
}

/// Returns the positions of the nodes of these names.
fn positions_of<Op>(
    alloc: Global,
    nodes: &[NodeFact<Op>],
    names: &[Name],
) -> Result<Vec<usize>, NoMemory>
    ensures { IfOk result (λ positions. positions.items ≡ map (index_of (specs_of nodes.now)) names.now) }
{
    Ok(
        names
            .iter()
            .map(|name| position_of(nodes, *name))
            .collect(alloc)?,
    )
}

/// Returns the stated box of the node at a position, which is empty after the last.
pub(crate) fn box_at<Op>(nodes: &[NodeFact<Op>], node: usize) -> Rect
    ensures { result ≡ box_at nodes.now node }
{
    match nodes.get(node) {
        Some(fact) => fact.bounds,
        None => Rect::EMPTY,
    }
}

/// Returns the stated boxes of the nodes at these positions.
fn boxes_at<Op>(
    alloc: Global,
    nodes: &[NodeFact<Op>],
    positions: &[usize],
) -> Result<Vec<Rect>, NoMemory>
    ensures { IfOk result (λ boxes. boxes.items ≡ input_boxes (stated_shapes nodes.now) positions.now) }
{
    Ok(
        positions
            .iter()
            .map(|position| box_at(nodes, *position))
            .collect(alloc)?,
    )
}
