//! Copies of nodes.

ghost use Rattle.std.specs.Prelude.{◌≡◌, IfOk};
ghost use Rattle.model_graphs.specs.Facts.{specs_of};

use alloc_basics::NoMemory;
use model_graphs::{Body, NodeFact, NodeSpec};
use op_contracts::OpKit;
use std::alloc::Global;

/// Returns equal nodes, without what is stated of them.
///
/// # Errors
///
/// `NoMemory` if memory runs out.
pub(crate) fn copy_nodes<K: OpKit>(
    kit: &K,
    alloc: Global,
    facts: &[NodeFact<K::Op>],
) -> Result<Vec<NodeSpec<K::Op>>, NoMemory>
    ensures { IfOk result (λ nodes. nodes.items ≡ specs_of facts.now) }
{
    let mut nodes = Vec::with_capacity(alloc, facts.len())?;
    for fact in facts {
        nodes.push(copy_node(kit, alloc, &fact.spec)?)?;
    }
    Ok(nodes)
}

/// Returns an equal node.
///
/// # Errors
///
/// `NoMemory` if memory runs out.
pub(crate) fn copy_node<K: OpKit>(
    kit: &K,
    alloc: Global,
    node: &NodeSpec<K::Op>,
) -> Result<NodeSpec<K::Op>, NoMemory>
    ensures { IfOk result (λ copied. copied ≡ node.now) }
{
    let name = node.name;
    let body = copy_body(kit, alloc, &node.body)?;
    Ok(NodeSpec { name, body })
}

/// Returns an equal body.
fn copy_body<K: OpKit>(kit: &K, alloc: Global, body: &Body<K::Op>) -> Result<Body<K::Op>, NoMemory>
    ensures { IfOk result (λ copied. copied ≡ body.now) }
{
    match body {
        Body::Source { buffer } => Ok(Body::Source { buffer: *buffer }),
        Body::Compute { op, inputs } => {
            let op = kit.copy_op(alloc, op)?;
            let inputs = inputs.clone()?;
            Ok(Body::Compute { op, inputs })
        }
    }
}
