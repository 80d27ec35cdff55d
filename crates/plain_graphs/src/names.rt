//! Buffers and nodes by their names.

ghost use Rattle.std.specs.Prelude.{◌≡◌, ◌≤◌, IfOk, length, map, option_map};
ghost use Rattle.model_graphs.specs.Facts.{fact_of, specs_of};
ghost use Rattle.model_graphs.specs.Node.{index_of};
ghost use Rattle.model_states.specs.Edits.{has_node};

use alloc_basics::NoMemory;
use model_graphs::{BufferFact, NodeFact, NodeSpec};
use model_operations::IntOp;
use plane_rect::Name;
use std::alloc::Global;

/// Returns the position of the first node of a name, and the number of nodes where there is none.
pub(crate) fn index_of(nodes: &[NodeSpec<IntOp>], name: Name) -> usize
    ensures value { result ≡ index_of nodes.now name }
    ensures bound { result ≤ length nodes.now }
{
    nodes
        .iter()
        .position(|node| node.name == name)
        .unwrap_or(nodes.len())
}

/// Tests whether a node of the name is there.
pub(crate) fn has_node(nodes: &[NodeSpec<IntOp>], name: Name) -> bool
    ensures { result ≡ has_node nodes.now name }
{
    index_of(nodes, name) < nodes.len()
}

/// Returns the positions of the nodes of these names.
pub(crate) fn indices_of(
    alloc: Global,
    nodes: &[NodeSpec<IntOp>],
    names: &[Name],
) -> Result<Vec<usize>, NoMemory>
    ensures { IfOk result (λ indices. indices.items ≡ map (index_of nodes.now) names.now) }
{
    Ok(
        names
            .iter()
            .map(|name| index_of(nodes, *name))
            .collect(alloc)?,
    )
}

/// Returns the position of the first stated node of a name, and their number where there is none.
pub(crate) fn fact_index(facts: &[NodeFact<IntOp>], name: Name) -> usize
    ensures value { result ≡ index_of (specs_of facts.now) name }
    ensures bound { result ≤ length facts.now }
{
    facts
        .iter()
        .position(|fact| fact.spec.name == name)
        .unwrap_or(facts.len())
}

/// Returns the buffer of a name, where there is one.
pub(crate) fn buffer_of(buffers: &[BufferFact], name: Name) -> Option<&BufferFact>
    ensures { option_map (λ buffer. buffer.now) result ≡ fact_of buffers.now name }
{
    buffers.iter().find(|buffer| name == buffer.name)
}
