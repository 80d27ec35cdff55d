//! Edits of nodes.

ghost use Rattle.std.specs.Prelude.{◌≡◌, [], IfOk, Ok, OnOk, nat_lt};
ghost use Rattle.std.specs.List.{list_all, list_any};
ghost use Rattle.std.specs.Str.{bytes_eq};
ghost use Rattle.model_graphs.specs.declared.node.NodeEdit.TheVariants.{Remove, Set};
ghost use Rattle.model_graphs.specs.{Facts.shapes_of_facts, Node.index_of};
ghost use Rattle.model_states.specs.Edits.{edit_refused, reads_earlier, reads_node, with_edit, with_edits};
ghost use Rattle.plain_graphs.specs.Edits.{answer_of};

use crate::names::{buffer_of, has_node, index_of};
use alloc_basics::NoMemory;
use model_graphs::{Body, BufferFact, NodeEdit, NodeSpec};
use model_operations::IntOp;
use model_states::StateRefused;
use pixel_formats::limits::MAX_NODES;
use plane_rect::Name;
use std::alloc::Global;

/// Returns the nodes with these edits made one by one, or why the first of them that is refused is.
///
/// # Errors
///
/// No memory was left.
pub fn with_edits(
    alloc: Global,
    buffers: &[BufferFact],
    nodes: Vec<NodeSpec<IntOp>>,
    edits: &[NodeEdit<IntOp>],
) -> Result<Result<Vec<NodeSpec<IntOp>>, StateRefused>, NoMemory>
    ensures { IfOk result (λ answer. answer_of answer
        ≡ with_edits (shapes_of_facts buffers.now) (Ok nodes.items) edits.now) }
{
    let mut nodes = nodes;
    for edit in edits {
        if let Some(refused) = edit_refused(buffers, &nodes, edit) {
            return Ok(Err(refused));
        }
        make_edit(&mut nodes, edit)?;
    }
    Ok(Ok(nodes))
}

/// Returns why an edit is refused, where it is.
pub fn edit_refused(
    buffers: &[BufferFact],
    nodes: &[NodeSpec<IntOp>],
    edit: &NodeEdit<IntOp>,
) -> Option<StateRefused>
    ensures { result ≡ edit_refused (shapes_of_facts buffers.now) nodes.now edit.now }
{
    match edit {
        NodeEdit::Set(node) => set_refused(buffers, nodes, node),
        NodeEdit::Remove(name) => remove_refused(nodes, *name),
    }
}

/// Returns why a node can't be set, where it can't.
fn set_refused(
    buffers: &[BufferFact],
    nodes: &[NodeSpec<IntOp>],
    node: &NodeSpec<IntOp>,
) -> Option<StateRefused>
    ensures { result ≡ edit_refused (shapes_of_facts buffers.now) nodes.now (Set node.now) }
{
    let index = index_of(nodes, node.name);
    if !reads_earlier(buffers, nodes, index, &node.body) {
        return Some(StateRefused::UnknownInput);
    }
    if !has_node(nodes, node.name) && nodes.len() == MAX_NODES {
        return Some(StateRefused::TooManyNodes);
    }
    None
}

/// Returns why a node can't be removed, where it can't.
fn remove_refused(nodes: &[NodeSpec<IntOp>], name: Name) -> Option<StateRefused>
    ensures { result ≡ edit_refused [] nodes.now (Remove name) }
{
    if !has_node(nodes, name) {
        return Some(StateRefused::UnknownInput);
    }
    if is_read(nodes, name) {
        return Some(StateRefused::InUse);
    }
    None
}

/// Tests whether the node of a name is an input of one of these.
fn is_read(nodes: &[NodeSpec<IntOp>], name: Name) -> bool
    ensures { result ≡ list_any (λ node. reads_node name node.body) nodes.now }
{
    nodes.iter().any(|node| reads_node(name, &node.body))
}

/// Tests whether a body reads only buffers that are there, and nodes that are before an index.
#[tactic(auto, using(crate::proofs::Named::some_shape))]
fn reads_earlier(
    buffers: &[BufferFact],
    nodes: &[NodeSpec<IntOp>],
    index: usize,
    body: &Body<IntOp>,
) -> bool
    ensures { result ≡ reads_earlier (shapes_of_facts buffers.now) nodes.now index body.now }
{
    match body {
        Body::Source { buffer } => buffer_of(buffers, *buffer).is_some(),
        Body::Compute { inputs, .. } => come_before(nodes, index, inputs.as_slice()),
    }
}

/// Tests whether the nodes of these names are before an index.
fn come_before(nodes: &[NodeSpec<IntOp>], index: usize, names: &[Name]) -> bool
    ensures { result ≡ list_all (λ name. nat_lt (index_of nodes.now name) index) names.now }
{
    names.iter().all(|name| index_of(nodes, *name) < index)
}

/// Tests whether a node of the name is an input of the body.
fn reads_node(name: Name, body: &Body<IntOp>) -> bool
    ensures { result ≡ reads_node name body.now }
{
    match body {
        Body::Source { .. } => false,
        Body::Compute { inputs, .. } => is_among(name, inputs.as_slice()),
    }
}

/// Tests whether a name is one of these.
fn is_among(name: Name, names: &[Name]) -> bool
    ensures { result ≡ list_any (bytes_eq name) names.now }
{
    names.iter().any(|other| name == *other)
}

/// Makes an edit.
fn make_edit(nodes: &mut Vec<NodeSpec<IntOp>>, edit: &NodeEdit<IntOp>) -> Result<(), NoMemory>
    ensures { OnOk result (nodes.new.items ≡ with_edit nodes.old.items edit.now) }
{
    match edit {
        NodeEdit::Set(node) => set(nodes, copy_node(node)?),
        NodeEdit::Remove(name) => {
            remove(nodes, *name);
            Ok(())
        }
    }
}

/// Puts a node at the position of its name, or after all others.
fn set(nodes: &mut Vec<NodeSpec<IntOp>>, node: NodeSpec<IntOp>) -> Result<(), NoMemory>
    ensures { OnOk result (nodes.new.items ≡ with_edit nodes.old.items (Set node)) }
{
    let index = index_of(nodes, node.name);
    if index < nodes.len() {
        nodes[index] = node;
    } else {
        nodes.push(node)?;
    }
    Ok(())
}

/// Takes the node of a name away, where there is one.
fn remove(nodes: &mut Vec<NodeSpec<IntOp>>, name: Name)
    ensures { nodes.new.items ≡ with_edit nodes.old.items (Remove name) }
{
    let index = index_of(nodes, name);
    if index < nodes.len() {
        let _ = nodes.remove(index);
    }
}

/// Returns an equal node.
fn copy_node(node: &NodeSpec<IntOp>) -> Result<NodeSpec<IntOp>, NoMemory>
    ensures { IfOk result (λ copied. copied ≡ node.now) }
{
    let name = node.name;
    let body = copy_body(&node.body)?;
    Ok(NodeSpec { name, body })
}

/// Returns an equal body.
fn copy_body(body: &Body<IntOp>) -> Result<Body<IntOp>, NoMemory>
    ensures { IfOk result (λ copied. copied ≡ body.now) }
{
    match body {
        Body::Source { buffer } => Ok(Body::Source { buffer: *buffer }),
        Body::Compute { op, inputs } => {
            let op = op.clone()?;
            let inputs = inputs.clone()?;
            Ok(Body::Compute { op, inputs })
        }
    }
}
