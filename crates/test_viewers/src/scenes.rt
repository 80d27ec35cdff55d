//! Scenes over buffers of zeros, for tests.

ghost use Rattle.std.specs.Prelude.{◌≡◌, [], ◌∷◌, IfOk, IfSome};
ghost use Rattle.frozen_images.specs.Scenes.{facts_in};
ghost use Rattle.model_graphs.specs.Facts.{shapes_of_facts};
ghost use Rattle.model_operations.specs.Meanings.{int_meanings};
ghost use Rattle.model_states.specs.Valid.{AreStated};

use alloc_basics::NoMemory;
use frozen_images::{Frozen, FrozenBuffer};
use graph_commits::Graph;
use int_ops::{IntKit, IntOp};
use model_graphs::{Body, BufferFact, NodeEdit, NodeFact, NodeSpec};
use op_contracts::OpKit;
use pixel_formats::Format;
use plane_rect::Rect;
use render_workers::Scene;
use std::alloc::Global;
use test_nodes::{name, rect, sketched};

/// Returns an equal body.
fn copy_body<K: OpKit>(kit: &K, alloc: Global, body: &Body<K::Op>) -> Result<Body<K::Op>, NoMemory>
    ensures { IfOk result (λ copied. copied ≡ body.now) }
{
    match body {
        Body::Source { buffer } => Ok(Body::Source { buffer: *buffer }),
        Body::Compute { op, inputs } => {
            let op = kit.copy_op(alloc, op)?;
            let inputs = inputs.clone()?;
            Ok(Body::Compute { op, inputs })
        }
    }
}

/// Returns an equal node, with what is stated of it.
fn copy_fact<K: OpKit>(
    kit: &K,
    alloc: Global,
    fact: &NodeFact<K::Op>,
) -> Result<NodeFact<K::Op>, NoMemory>
    ensures { IfOk result (λ copied. copied ≡ fact.now) }
{
    let body = copy_body(kit, alloc, &fact.spec.body)?;
    Ok(NodeFact {
        spec: NodeSpec {
            name: fact.spec.name,
            body,
        },
        bounds: fact.bounds,
        format: fact.format,
    })
}

/// Returns equal nodes, with what is stated of them.
fn copy_facts<K: OpKit>(
    kit: &K,
    alloc: Global,
    facts: &[NodeFact<K::Op>],
) -> Result<Vec<NodeFact<K::Op>>, NoMemory>
    ensures { IfOk result (λ copied. copied.items ≡ facts.now) }
{
    let mut copied = Vec::with_capacity(alloc, facts.len())?;
    for fact in facts {
        copied.push(copy_fact(kit, alloc, fact)?)?;
    }
    Ok(copied)
}

/// Returns the nodes that edits of none make over buffers, or None where they are refused or memory runs out.
fn stated_nodes(
    alloc: Global,
    buffers: &[BufferFact],
    edits: &[NodeEdit<IntOp>],
) -> Option<Vec<NodeFact<IntOp>>>
    ensures { IfSome result (λ nodes. AreStated int_meanings (shapes_of_facts buffers.now) nodes.items) }
{
    let mut graph = Graph::new(alloc);
    if !graph.has_all_buffers_in(buffers) {
        return None;
    }
    graph.commit(&IntKit, edits, buffers, &[]).ok()?;
    copy_facts(&IntKit, alloc, graph.nodes()).ok()
}

/// Returns a buffer of zeros, of which this is known, or None where memory runs out.
fn zeros(alloc: Global, fact: &BufferFact) -> Option<FrozenBuffer>
    ensures { IfSome result (λ buffer. buffer.fact ≡ fact.now) }
{
    let image = Frozen::new(alloc, fact.format, fact.bounds).ok()?;
    Some(FrozenBuffer::new(*fact, image))
}

/// Returns the list of a buffer alone, or None where memory runs out.
fn alone(alloc: Global, buffer: FrozenBuffer) -> Option<Vec<FrozenBuffer>>
    ensures { IfSome result (λ buffers. buffers.items ≡ buffer ∷ []) }
{
    let mut buffers = Vec::with_capacity(alloc, 1).ok()?;
    buffers.push(buffer).ok()?;
    Some(buffers)
}

/// Returns the scene of nodes over one buffer of zeros, or None where memory runs out.
fn over_zeros(
    alloc: Global,
    number: u64,
    nodes: Vec<NodeFact<IntOp>>,
    fact: &BufferFact,
) -> Option<Scene<IntOp>>
    requires { AreStated int_meanings (shapes_of_facts (fact.now ∷ [])) nodes.items }
    ensures number { IfSome result (λ scene. scene.number ≡ number) }
    ensures nodes { IfSome result (λ scene. scene.nodes ≡ nodes.items) }
    ensures stated { IfSome result (λ scene. AreStated int_meanings (shapes_of_facts (facts_in scene.buffers)) scene.nodes) }
{
    let buffers = alone(alloc, zeros(alloc, fact)?)?;
    let scene = Scene::new(number, nodes, buffers);
    // The nodes are valid over the buffers, as this call says.
    let _nodes = scene.nodes();
    Some(scene)
}

/// Returns what is known of the buffer `a` of 128 by 128 pixels.
fn buffer_fact() -> Option<BufferFact> {
    let name = name("a")?;
    Some(BufferFact {
        name,
        root: name,
        bounds: rect([0, 0, 128, 128]),
        format: Format::RGB8,
    })
}

/// Returns the scene of this number whose node `b` inverts a buffer of 128 by 128 zeros, or None where memory runs out.
pub fn inverted_zeros(alloc: Global, number: u64) -> Option<Scene<IntOp>> {
    let facts = [buffer_fact()?];
    let sketch = sketched(alloc, "node s source a\nnode b invert s\n")?;
    let nodes = stated_nodes(alloc, &facts, &sketch.edits)?;
    over_zeros(alloc, number, nodes, &facts[0])
}
