//! The boxes and the formats of nodes.

ghost use Rattle.std.specs.Prelude.{◌≡◌, [], IfOk, slice_index_or, unwrap_or};
ghost use Rattle.model_graphs.specs.Facts.{shapes_of_facts, stated_shapes};
ghost use Rattle.model_graphs.specs.Shapes.{no_shape, shape_in};
ghost use Rattle.model_graphs.specs.Node.{step_of};
ghost use Rattle.model_operations.specs.Meanings.{int_meanings};
ghost use Rattle.model_states.specs.Valid.{input_boxes, input_formats, operation_shape, shapes_of, step_shape};

use crate::graph::Shape;
use crate::names::{buffer_of, indices_of};
use alloc_basics::NoMemory;
use model_graphs::{Body, BufferFact, NodeFact, NodeSpec};
use model_operations::IntOp;
use operation_regions::{box_of, format_of};
use pixel_formats::Format;
use plane_rect::{Name, Rect};
use std::alloc::Global;

/// The shape of the image without a pixel.
const NO_SHAPE: Shape = Shape {
    bounds: Rect::EMPTY,
    format: Format::Y8,
};

/// Returns the boxes and the formats of nodes over buffers, in their order.
///
/// # Errors
///
/// No memory was left.
pub fn node_shapes(
    alloc: Global,
    buffers: &[BufferFact],
    nodes: &[NodeSpec<IntOp>],
) -> Result<Vec<Shape>, NoMemory>
    ensures { IfOk result (λ shapes. shapes.items
        ≡ shapes_of int_meanings (shapes_of_facts buffers.now) nodes.now) }
{
    let mut known = Vec::new(alloc);
    for node in nodes {
        let shape = shape_of_body(alloc, buffers, nodes, &known, &node.body)?;
        known.push(shape)?;
    }
    Ok(known)
}

/// Returns the shape of a node of this body, where those of the nodes before it are known.
pub(crate) fn shape_of_body(
    alloc: Global,
    buffers: &[BufferFact],
    nodes: &[NodeSpec<IntOp>],
    known: &[Shape],
    body: &Body<IntOp>,
) -> Result<Shape, NoMemory>
    ensures { IfOk result (λ shape. shape
        ≡ step_shape int_meanings (shapes_of_facts buffers.now) known.now (step_of nodes.now body.now)) }
{
    match body {
        Body::Source { buffer } => Ok(shape_of_buffer(buffers, *buffer)),
        Body::Compute { op, inputs } => {
            let indices = indices_of(alloc, nodes, inputs.as_slice())?;
            shape_of_result(alloc, op, known, &indices)
        }
    }
}

/// Returns the shape of a buffer, and that of the image without a pixel where it is not there.
#[tactic(auto, using(crate::proofs::Named::shape_named))]
fn shape_of_buffer(buffers: &[BufferFact], name: Name) -> Shape
    ensures { result ≡ unwrap_or (shape_in (shapes_of_facts buffers.now) name) no_shape }
{
    match buffer_of(buffers, name) {
        Some(buffer) => Shape {
            bounds: buffer.bounds,
            format: buffer.format,
        },
        None => NO_SHAPE,
    }
}

/// Returns the shape of what an operation gives of the inputs at these positions.
fn shape_of_result(
    alloc: Global,
    op: &IntOp,
    known: &[Shape],
    indices: &[usize],
) -> Result<Shape, NoMemory>
    ensures { IfOk result (λ shape. shape ≡ operation_shape int_meanings known.now op.now indices.now) }
{
    let (bounds, format) = box_and_format(alloc, op, known, indices)?;
    Ok(Shape {
        bounds: bounds.unwrap_or(Rect::EMPTY),
        format: format.unwrap_or(Format::Y8),
    })
}

/// Returns the box and the format that an operation gives of the inputs at these positions, each where it has one.
pub(crate) fn box_and_format(
    alloc: Global,
    op: &IntOp,
    known: &[Shape],
    indices: &[usize],
) -> Result<(Option<Rect>, Option<Format>), NoMemory>
    ensures bounds { IfOk result (λ gives. gives.0 ≡ int_meanings.box op.now (input_boxes known.now indices.now)) }
    ensures format { IfOk result (λ gives. gives.1 ≡ int_meanings.format op.now (input_formats known.now indices.now)) }
{
    let boxes: Vec<Rect> = indices
        .iter()
        .map(|index| shape_at(known, *index).bounds)
        .collect(alloc)?;
    let formats: Vec<Format> = indices
        .iter()
        .map(|index| shape_at(known, *index).format)
        .collect(alloc)?;
    Ok((box_of(op, &boxes), format_of(op, &formats)))
}

/// Returns the shape at a position, and that of the image without a pixel past the last.
fn shape_at(known: &[Shape], index: usize) -> Shape
    ensures { result ≡ slice_index_or known.now index no_shape }
{
    known.get(index).copied().unwrap_or(NO_SHAPE)
}

/// Returns the stated shape at a position, and that of the image without a pixel past the last.
pub(crate) fn stated_at(facts: &[NodeFact<IntOp>], index: usize) -> Shape
    ensures { result ≡ slice_index_or (stated_shapes facts.now) index no_shape }
{
    match facts.get(index) {
        Some(fact) => Shape {
            bounds: fact.bounds,
            format: fact.format,
        },
        None => NO_SHAPE,
    }
}
