//! The walk over all nodes, which refuses the first that is not valid.

ghost use Rattle.std.specs.Prelude.{◌≡◌, [], IfOk, nat_lt};
ghost use Rattle.std.specs.List.{list_all};
ghost use Rattle.model_graphs.specs.Node.{Apply, step_of};
ghost use Rattle.model_graphs.specs.Facts.{shapes_of_facts};
ghost use Rattle.model_operations.specs.Meanings.{int_meanings};
ghost use Rattle.model_states.specs.Edits.{is_box_in_limits, step_refused, steps_refused};
ghost use Rattle.model_states.specs.Valid.{steps_of};

use crate::graph::Shape;
use crate::names::{buffer_of, indices_of};
use crate::shapes::{box_and_format, shape_of_body};
use alloc_basics::NoMemory;
use model_graphs::{Body, BufferFact, NodeSpec};
use model_operations::IntOp;
use model_states::StateRefused;
use operation_regions::input_count;
use plane_rect::Rect;
use std::alloc::Global;

/// Returns why the first node that is refused is, where one is: a buffer or an earlier node that it
/// reads is not there, the number of its inputs is wrong, or its operation has no format or no box of
/// them.
///
/// # Errors
///
/// No memory was left.
pub fn walk_refused(
    alloc: Global,
    buffers: &[BufferFact],
    nodes: &[NodeSpec<IntOp>],
) -> Result<Option<StateRefused>, NoMemory>
    ensures { IfOk result (λ refused. refused
        ≡ steps_refused int_meanings (shapes_of_facts buffers.now) [] (steps_of nodes.now)) }
{
    let mut known = Vec::new(alloc);
    for node in nodes {
        let refused = body_refused(alloc, buffers, nodes, &known, &node.body)?;
        if refused.is_some() {
            return Ok(refused);
        }
        let shape = shape_of_body(alloc, buffers, nodes, &known, &node.body)?;
        known.push(shape)?;
    }
    Ok(None)
}

/// Returns why a node of this body is refused after nodes of these shapes, where it is.
#[tactic(auto, using(crate::proofs::Named::none_shape))]
fn body_refused(
    alloc: Global,
    buffers: &[BufferFact],
    nodes: &[NodeSpec<IntOp>],
    known: &[Shape],
    body: &Body<IntOp>,
) -> Result<Option<StateRefused>, NoMemory>
    ensures { IfOk result (λ refused. refused
        ≡ step_refused int_meanings (shapes_of_facts buffers.now) known.now (step_of nodes.now body.now)) }
{
    match body {
        Body::Source { buffer } => Ok(match buffer_of(buffers, *buffer) {
            Some(_) => None,
            None => Some(StateRefused::UnknownInput),
        }),
        Body::Compute { op, inputs } => {
            let indices = indices_of(alloc, nodes, inputs.as_slice())?;
            operation_refused(alloc, known, op, &indices)
        }
    }
}

/// Returns why an operation on the nodes at these positions is refused, where it is.
fn operation_refused(
    alloc: Global,
    known: &[Shape],
    op: &IntOp,
    indices: &[usize],
) -> Result<Option<StateRefused>, NoMemory>
    ensures { IfOk result (λ refused. refused
        ≡ step_refused int_meanings [] known.now (Apply op.now indices.now)) }
{
    if !are_below(known.len(), indices) {
        return Ok(Some(StateRefused::UnknownInput));
    }
    if indices.len() != input_count(op) {
        return Ok(Some(StateRefused::Arity));
    }
    let (bounds, format) = box_and_format(alloc, op, known, indices)?;
    if format.is_none() {
        return Ok(Some(StateRefused::Formats));
    }
    if !is_in_limits(bounds) {
        return Ok(Some(StateRefused::Bounds));
    }
    Ok(None)
}

/// Tests whether each number is below another.
fn are_below(end: usize, numbers: &[usize]) -> bool
    ensures { result ≡ list_all (λ n. nat_lt n end) numbers.now }
{
    numbers.iter().all(|n| *n < end)
}

/// Tests whether there is a box, and it is in limits.
fn is_in_limits(bounds: Option<Rect>) -> bool
    ensures { result ≡ is_box_in_limits bounds }
{
    match bounds {
        Some(bounds) => bounds.in_limits(),
        None => false,
    }
}
