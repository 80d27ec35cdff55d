//! The walk over all nodes, which finds their boxes and formats and refuses the first that is not valid.

ghost use Rattle.std.specs.Prelude.{◌≡◌, [], IfErr, IfOk, None, Ok, OnErr, Some, map, nat_lt};
ghost use Rattle.std.specs.List.{list_all};
ghost use Rattle.plane_rect.specs.Rectangle.{IsRectangle};
ghost use Rattle.model_graphs.specs.Node.{Apply, index_of, step_of};
ghost use Rattle.model_graphs.specs.{Facts.shapes_of_facts, Shapes.shape_in};
ghost use Rattle.model_states.specs.Valid.{input_boxes, input_formats, steps_of};
ghost use Rattle.model_states.specs.declared.refused.StateRefused.TheVariants.{UnknownInput};
ghost use Rattle.graph_edits.specs.declared.refused.GraphRefused.TheVariants as refusals;
ghost use Rattle.graph_edits.specs.Refusals.{IsRefusalOf};
ghost use Rattle.graph_commits.specs.States.{HaveRectangularBoxes, shape_unless_refused, shapes_unless_refused};

use crate::shape::{Shape, shape_at};
use alloc_basics::NoMemory;
use graph_edits::{Draft, GraphRefused, buffer_of};
use model_graphs::{Body, BufferFact};
use model_states::StateRefused;
use op_contracts::OpKit;
use pixel_formats::Format;
use plane_rect::{Name, Rect};
use std::alloc::Global;

/// Returns the boxes and the formats of nodes over buffers, in their order.
///
/// # Errors
///
/// The cause of the first node that is refused: a buffer or an earlier node that it reads is not there,
/// the number of its inputs is wrong, or its operation has no format or no box of them. `NoMemory` if
/// memory runs out.
pub(crate) fn walk<K: OpKit>(
    kit: &K,
    alloc: Global,
    buffers: &[BufferFact],
    draft: &Draft<K::Op>,
) -> Result<Vec<Shape>, GraphRefused>
    ensures ok { IfOk result (λ shapes.
        shapes_unless_refused K.Op.meanings (shapes_of_facts buffers.now) [] (steps_of draft.now) ≡ Ok shapes.items) }
    ensures rectangles { IfOk result (λ shapes. HaveRectangularBoxes shapes.items) }
    ensures refused { IfErr result
        (IsRefusalOf (shapes_unless_refused K.Op.meanings (shapes_of_facts buffers.now) [] (steps_of draft.now))) }
{
    let nodes = draft.nodes();
    let mut known = Vec::with_capacity(alloc, nodes.len())?;
    for node in nodes {
        let shape = shape_of_body(kit, alloc, buffers, draft, &known, &node.body)?;
        known.push(shape)?;
    }
    Ok(known)
}

/// Returns the shape of a node of this body after nodes of these shapes.
///
/// # Errors
///
/// The cause why it is refused, and `NoMemory` if memory runs out.
fn shape_of_body<K: OpKit>(
    kit: &K,
    alloc: Global,
    buffers: &[BufferFact],
    draft: &Draft<K::Op>,
    known: &[Shape],
    body: &Body<K::Op>,
) -> Result<Shape, GraphRefused>
    ensures ok { IfOk result (λ shape.
        shape_unless_refused K.Op.meanings (shapes_of_facts buffers.now) known.now (step_of draft.now body.now) ≡ Ok shape) }
    ensures rectangle { IfOk result (λ shape. IsRectangle shape.box) }
    ensures refused { IfErr result
        (IsRefusalOf (shape_unless_refused K.Op.meanings (shapes_of_facts buffers.now) known.now (step_of draft.now body.now))) }
{
    match body {
        Body::Source { buffer } => shape_of_buffer(buffers, *buffer),
        Body::Compute { op, inputs } => {
            let indices = indices_of(alloc, draft, inputs.as_slice())?;
            shape_of_result(kit, alloc, known, op, &indices)
        }
    }
}

/// Returns the shape of a node of a buffer.
///
/// # Errors
///
/// `UnknownInput` where the buffer is not there.
#[tactic(auto, using(crate::proofs::BufferLaws::shape_found))]
fn shape_of_buffer(buffers: &[BufferFact], name: Name) -> Result<Shape, GraphRefused>
    ensures ok { IfOk result (λ shape. shape_in (shapes_of_facts buffers.now) name ≡ Some shape) }
    ensures rectangle { IfOk result (λ shape. IsRectangle shape.box) }
    ensures refused { IfErr result (λ refused. refused ≡ refusals.State UnknownInput) }
    ensures missing { OnErr result (shape_in (shapes_of_facts buffers.now) name ≡ None) }
{
    match buffer_of(buffers, name) {
        Some(fact) => Ok(Shape::new(fact.bounds, fact.format)),
        None => Err(GraphRefused::State(StateRefused::UnknownInput)),
    }
}

/// Returns the shape of an operation's result of the nodes at these positions.
///
/// # Errors
///
/// The cause why it is refused, and `NoMemory` if memory runs out.
fn shape_of_result<K: OpKit>(
    kit: &K,
    alloc: Global,
    known: &[Shape],
    op: &K::Op,
    indices: &[usize],
) -> Result<Shape, GraphRefused>
    ensures ok { IfOk result (λ shape. shape_unless_refused K.Op.meanings [] known.now (Apply op.now indices.now) ≡ Ok shape) }
    ensures rectangle { IfOk result (λ shape. IsRectangle shape.box) }
    ensures refused { IfErr result (IsRefusalOf (shape_unless_refused K.Op.meanings [] known.now (Apply op.now indices.now))) }
{
    if !are_below(known.len(), indices) {
        return Err(GraphRefused::State(StateRefused::UnknownInput));
    }
    if indices.len() != kit.arity(op) as usize {
        return Err(GraphRefused::State(StateRefused::Arity));
    }
    let formats = input_formats(alloc, known, indices)?;
    let Some(format) = kit.check(op, &formats) else {
        return Err(GraphRefused::State(StateRefused::Formats));
    };
    let boxes = input_boxes(alloc, known, indices)?;
    let Some(bounds) = kit.bounds(op, &boxes) else {
        return Err(GraphRefused::State(StateRefused::Bounds));
    };
    Ok(Shape::new(bounds, format))
}

/// Returns whether each number is below another.
fn are_below(end: usize, numbers: &[usize]) -> bool
    ensures { result ≡ list_all (λ n. nat_lt n end) numbers.now }
{
    numbers.iter().all(|n| *n < end)
}

/// Returns the positions of the nodes of these names.
fn indices_of<Op: Drop>(
    alloc: Global,
    draft: &Draft<Op>,
    names: &[Name],
) -> Result<Vec<usize>, NoMemory>
    ensures { IfOk result (λ indices. indices.items ≡ map (index_of draft.now) names.now) }
{
    Ok(
        names
            .iter()
            .map(|name| draft.index_of(*name))
            .collect(alloc)?,
    )
}

/// Returns the boxes at these positions.
fn input_boxes(alloc: Global, known: &[Shape], indices: &[usize]) -> Result<Vec<Rect>, NoMemory>
    ensures { IfOk result (λ boxes. boxes.items ≡ input_boxes known.now indices.now) }
{
    Ok(
        indices
            .iter()
            .map(|index| shape_at(known, *index).bounds)
            .collect(alloc)?,
    )
}

/// Returns the formats at these positions.
fn input_formats(alloc: Global, known: &[Shape], indices: &[usize]) -> Result<Vec<Format>, NoMemory>
    ensures { IfOk result (λ formats. formats.items ≡ input_formats known.now indices.now) }
{
    Ok(
        indices
            .iter()
            .map(|index| shape_at(known, *index).format)
            .collect(alloc)?,
    )
}
