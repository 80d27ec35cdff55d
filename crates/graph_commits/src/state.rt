//! States of graphs: buffers, and valid nodes over them.

ghost use Rattle.std.specs.Prelude.{◌≡◌, ◌≤◌, [], IfErr, IfOk, filter, length, map, not};
ghost use Rattle.std.specs.List.{zip};
ghost use Rattle.model_graphs.specs.{Facts.specs_of, Node.index_of};
ghost use Rattle.model_states.specs.Valid.{node_names, with_shape};
ghost use Rattle.model_states.specs.{Damage.side_shape, Edits.has_node};
ghost use Rattle.graph_edits.specs.Refusals.{IsRefusalOf};
ghost use Rattle.graph_commits.specs.States.{IsGraphState, edited_side};

use crate::buffers::copy_buffers;
use crate::shape::{Shape, stated_at};
use crate::walk::walk;
use alloc_basics::NoMemory;
use graph_edits::{Draft, GraphRefused, NameIndex};
use model_graphs::{BufferFact, NodeEdit, NodeFact, NodeSpec, OpMeaning};
use op_contracts::OpKit;
use plane_rect::Name;
use std::alloc::Global;
use std::marker::Model;

/// A state of a graph: facts of buffers, and at most 256 nodes over them, which are valid, with the boxes
/// and formats that they have. A clause sees it as its buffers and its nodes.
#[derive(Drop)]
pub struct GraphState<Op: OpMeaning> {
    buffers: Vec<BufferFact>,
    nodes: Vec<NodeFact<Op>>,
    /// The names of the nodes, in their order.
    names: NameIndex,
}

impl<Op: OpMeaning> Model for GraphState<Op> {
    ghost use Rattle.std.specs.Prelude.{◌≡◌};
    ghost use Rattle.model_graphs.specs.Facts.{specs_of};
    ghost use Rattle.model_states.specs.{Damage.Side, Valid.node_names};
    ghost use Rattle.graph_commits.specs.States.{IsGraphState};

    ghost Value = { Side Op };

    ghost view = { λ state. record { buffers = state.buffers.items; nodes = state.nodes.items } };

    ghost invariant = { λ state. (state.names ≡ node_names (specs_of state.nodes.items))
        × IsGraphState Op.meanings (record { buffers = state.buffers.items; nodes = state.nodes.items }) };
}

impl<Op: OpMeaning + Drop> GraphState<Op> {
    /// Returns the state without a buffer and without a node, which takes no memory.
    pub fn new(alloc: Global) -> GraphState<Op>
        ensures { result ≡ record { buffers = []; nodes = [] } }
    {
        GraphState {
            buffers: Vec::new(alloc),
            nodes: Vec::new(alloc),
            names: NameIndex::new(alloc),
        }
    }

    /// Returns the facts of the buffers.
    pub fn buffers(&self) -> &[BufferFact]
        ensures { result.now ≡ self.now.buffers }
    {
        &self.buffers
    }

    /// Returns the nodes in their order, with their boxes and formats.
    pub fn nodes(&self) -> &[NodeFact<Op>]
        ensures nodes { result.now ≡ self.now.nodes }
        ensures state { IsGraphState Op.meanings self.now }
    {
        &self.nodes
    }

    /// Returns the position of the node of a name, and the number of nodes where there is none.
    pub(crate) fn index_of(&self, name: Name) -> usize
        ensures value { result ≡ index_of (specs_of self.now.nodes) name }
        ensures bound { result ≤ length self.now.nodes }
    {
        let _ = &self.nodes;
        self.names.index_of(name)
    }

    /// Returns the position of the node of a name, and the number of nodes where there is none. It looks
    /// for it first at a position where it may be, which takes less time than a look-up.
    pub(crate) fn index_near(&self, name: Name, guess: usize) -> usize
        ensures value { result ≡ index_of (specs_of self.now.nodes) name }
        ensures bound { result ≤ length self.now.nodes }
    {
        match self.nodes().get(guess) {
            Some(fact) if fact.spec.name == name => guess,
            _ => self.index_of(name),
        }
    }

    /// Returns whether a node of a name is there. It looks for it first at a position where it may be.
    pub(crate) fn has_near(&self, name: Name, guess: usize) -> bool
        ensures { result ≡ has_node (specs_of self.now.nodes) name }
    {
        self.index_near(name, guess) < self.nodes().len()
    }

    /// Returns the names of the nodes of which another state has none, in their order.
    pub(crate) fn names_not_in(
        &self,
        alloc: Global,
        other: &GraphState<Op>,
    ) -> Result<Vec<Name>, NoMemory>
        ensures { IfOk result (λ names. names.items
            ≡ filter (λ name. not (has_node (specs_of other.now.nodes) name)) (node_names (specs_of self.now.nodes))) }
    {
        let nodes = self.nodes();
        let mut names = Vec::new(alloc);
        for (index, fact) in nodes.iter().enumerate() {
            let name = fact.spec.name;
            if !other.has_near(name, index) {
                names.push(name)?;
            }
        }
        Ok(names)
    }

    /// Returns the stated shape of the node of a name, and that of the image without a pixel where there
    /// is none. It looks for it first at a position where it may be.
    pub(crate) fn shape_near(&self, name: Name, guess: usize) -> Shape
        ensures { result ≡ side_shape self.now name }
    {
        stated_at(self.nodes(), self.index_near(name, guess))
    }

    /// Returns the state over these buffers after these edits, made one by one.
    ///
    /// # Errors
    ///
    /// The cause of the first edit that is refused, or else of the first node that is not valid, and
    /// `NoMemory` if memory runs out.
    pub fn edited<K: OpKit<Op = Op>>(
        &self,
        kit: &K,
        alloc: Global,
        edits: &[NodeEdit<Op>],
        buffers: &[BufferFact],
    ) -> Result<GraphState<Op>, GraphRefused>
        ensures ok { IfOk result (λ state. edited_side Op.meanings self.now edits.now buffers.now ≡ Ok state) }
        ensures state { IfOk result (λ state. IsGraphState Op.meanings state) }
        ensures refused { IfErr result (IsRefusalOf (edited_side Op.meanings self.now edits.now buffers.now)) }
    {
        let draft = Draft::of(kit, alloc, &self.nodes, &self.names)?;
        let draft = draft.with_edits(kit, alloc, buffers, edits)?;
        let shapes = walk(kit, alloc, buffers, &draft)?;
        let buffers = copy_buffers(alloc, buffers)?;
        let (specs, names) = draft.into_parts();
        let nodes = with_shapes(alloc, specs, shapes)?;
        Ok(GraphState {
            buffers,
            nodes,
            names,
        })
    }
}

/// Returns nodes with their shapes.
fn with_shapes<Op: Drop>(
    alloc: Global,
    nodes: Vec<NodeSpec<Op>>,
    shapes: Vec<Shape>,
) -> Result<Vec<NodeFact<Op>>, NoMemory>
    ensures { IfOk result (λ facts. facts.items ≡ map with_shape (zip nodes.items shapes.items)) }
{
    Ok(
        nodes
            .into_iter()
            .zip(shapes)
            .map(|(spec, shape)| stated(spec, &shape))
            .collect(alloc)?,
    )
}

/// Returns a node with its shape.
fn stated<Op>(spec: NodeSpec<Op>, shape: &Shape) -> NodeFact<Op>
    ensures { result ≡ record { spec = spec; bounds = shape.now.box; format = shape.now.format } }
{
    NodeFact {
        spec,
        bounds: shape.bounds,
        format: shape.format,
    }
}
