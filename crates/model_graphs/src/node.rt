//! Nodes of graphs, as plain data.

use pixel_formats::Format;
use plane_rect::{Name, NameList, Rect};

/// What the image of a node is.
#[derive(Drop)]
pub enum Body<Op> {
    /// The image of the buffer of a name.
    Source { buffer: Name },
    /// That of an operation on the images of other nodes, in their order.
    Compute { op: Op, inputs: NameList },
}

/// A node: its name, and what its image is.
#[derive(Drop)]
pub struct NodeSpec<Op> {
    pub name: Name,
    pub body: Body<Op>,
}

/// A node with its stated bounding box and format.
#[derive(Drop)]
pub struct NodeFact<Op> {
    pub spec: NodeSpec<Op>,
    pub bounds: Rect,
    pub format: Format,
}

/// An edit of the nodes of a graph.
#[derive(Drop)]
pub enum NodeEdit<Op> {
    /// A node takes the position of its name, and is last where no node has the name.
    Set(NodeSpec<Op>),
    /// The node of a name goes.
    Remove(Name),
}
