//! Graphs: buffers, and nodes over them.

ghost use Rattle.std.specs.Prelude.{◌≡◌, IfOk};
ghost use Rattle.model_graphs.specs.Facts.{shapes_of_facts};
ghost use Rattle.model_operations.specs.Meanings.{int_meanings};
ghost use Rattle.model_states.specs.{Commits.side_of, Valid.stated};

use crate::shapes::node_shapes;
use alloc_basics::NoMemory;
use model_graphs::{BufferFact, NodeFact, NodeSpec};
use model_operations::IntOp;
use pixel_formats::Format;
use plane_rect::Rect;
use std::alloc::Global;
use std::marker::Model;

/// The box and the format of a node's image.
#[derive(Clone, Copy)]
pub struct Shape {
    pub bounds: Rect,
    pub format: Format,
}

impl Model for Shape {
    ghost use Rattle.model_graphs.specs.Shapes.{Shape};

    ghost Value = { Shape };

    ghost view = { λ shape. record { box = shape.bounds; format = shape.format } };

    ghost inverse = { λ shape. record { bounds = shape.box; format = shape.format } };
}

/// Buffers, and nodes over them with their stated boxes and formats. A clause sees both lists.
#[derive(Drop)]
pub struct Graph {
    pub buffers: Vec<BufferFact>,
    pub nodes: Vec<NodeFact<IntOp>>,
}

impl Model for Graph {
    ghost use Rattle.model_states.specs.Damage.{Side};
    ghost use Rattle.model_operations.specs.declared.operation.IntOp.{IntOp};

    ghost Value = { Side IntOp };

    ghost view = { λ graph. record { buffers = graph.buffers.items; nodes = graph.nodes.items } };
}

impl Graph {
    /// Makes the graph of these nodes over these buffers, with the boxes and formats that they have.
    ///
    /// # Errors
    ///
    /// No memory was left.
    pub fn new(
        alloc: Global,
        buffers: Vec<BufferFact>,
        nodes: Vec<NodeSpec<IntOp>>,
    ) -> Result<Graph, NoMemory>
        ensures { IfOk result (λ graph. graph ≡ side_of int_meanings buffers.items nodes.items) }
    {
        let nodes = stated(alloc, &buffers, nodes)?;
        Ok(Graph { buffers, nodes })
    }
}

/// Returns the nodes with the boxes and formats that they have over these buffers.
fn stated(
    alloc: Global,
    buffers: &[BufferFact],
    nodes: Vec<NodeSpec<IntOp>>,
) -> Result<Vec<NodeFact<IntOp>>, NoMemory>
    ensures { IfOk result (λ facts. facts.items
        ≡ stated int_meanings (shapes_of_facts buffers.now) nodes.items) }
{
    let shapes = node_shapes(alloc, buffers, &nodes)?;
    Ok(
        nodes
            .into_iter()
            .zip(shapes)
            .map(|(spec, shape)| with_shape(spec, &shape))
            .collect(alloc)?,
    )
}

/// Returns a node with its box and format.
fn with_shape(spec: NodeSpec<IntOp>, shape: &Shape) -> NodeFact<IntOp>
    ensures { result ≡ record { spec = spec; bounds = shape.now.box; format = shape.now.format } }
{
    NodeFact {
        spec,
        bounds: shape.bounds,
        format: shape.format,
    }
}
