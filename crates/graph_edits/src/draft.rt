//! Nodes while they are edited.

ghost use Rattle.std.specs.Prelude.{◌≡◌, ◌≤◌, ◌<◌, [], IfErr, IfOk, Ok, OnErr, OnOk, length, nat_lt};
ghost use Rattle.std.specs.List.{IsDistinct, list_all, list_any};
ghost use Rattle.std.specs.Str.{bytes_eq};
ghost use Rattle.model_graphs.specs.declared.node.NodeEdit.TheVariants.{Remove, Set};
ghost use Rattle.model_graphs.specs.Facts.{shapes_of_facts, specs_of};
ghost use Rattle.model_graphs.specs.Node.{index_of};
ghost use Rattle.model_states.specs.Edits.{edit_refused, has_node, reads_earlier, reads_node, then_edit, with_edit, with_edits};
ghost use Rattle.model_states.specs.Valid.{node_names};
ghost use Rattle.graph_edits.specs.Refusals.{IsRefusalOf};

use crate::buffers::buffer_of;
use crate::copies::{copy_node, copy_nodes};
use crate::names::NameIndex;
use crate::refused::GraphRefused;
use alloc_basics::NoMemory;
use model_graphs::{Body, BufferFact, NodeEdit, NodeFact, NodeSpec};
use model_states::StateRefused;
use op_contracts::OpKit;
use pixel_formats::limits::MAX_NODES;
use plane_rect::Name;
use std::alloc::Global;
use std::marker::Model;

/// Nodes while they are edited, with the index of their names. A clause sees them as their list.
#[derive(Drop)]
pub struct Draft<Op> {
    nodes: Vec<NodeSpec<Op>>,
    names: NameIndex,
}

impl<Op> Model for Draft<Op> {
    ghost use Rattle.std.specs.Prelude.{◌≡◌, List};
    ghost use Rattle.model_graphs.specs.Node.{Node};
    ghost use Rattle.model_states.specs.Valid.{node_names};

    ghost Value = { List (Node Op) };

    ghost view = { λ draft. draft.nodes.items };

    ghost invariant = { λ draft. draft.names ≡ node_names draft.nodes.items };
}

impl<Op: Drop> Draft<Op> {
    /// Returns copies of the nodes of a state, whose names have this index.
    ///
    /// # Errors
    ///
    /// `NoMemory` if memory runs out.
    pub fn of<K: OpKit<Op = Op>>(
        kit: &K,
        alloc: Global,
        facts: &[NodeFact<Op>],
        names: &NameIndex,
    ) -> Result<Draft<Op>, NoMemory>
        requires { names.now ≡ node_names (specs_of facts.now) }
        ensures { IfOk result (λ draft. draft ≡ specs_of facts.now) }
    {
        let nodes = copy_nodes(kit, alloc, facts)?;
        let names = names.copy()?;
        Ok(Draft { nodes, names })
    }

    /// Returns the nodes in their order.
    pub fn nodes(&self) -> &[NodeSpec<Op>]
        ensures { result.now ≡ self.now }
    {
        &self.nodes
    }

    /// Returns the position of the node of a name, and the number of nodes where there is none.
    pub fn index_of(&self, name: Name) -> usize
        ensures value { result ≡ index_of self.now name }
        ensures bound { result ≤ length self.now }
    {
        let _ = &self.nodes;
        self.names.index_of(name)
    }

    /// Gives the nodes and the index of their names back, without memory.
    pub fn into_parts(self) -> (Vec<NodeSpec<Op>>, NameIndex)
        ensures nodes { result.0.items ≡ self }
        ensures names { result.1 ≡ node_names self }
    {
        let Draft { nodes, names } = self;
        (nodes, names)
    }

    /// Returns the nodes with these edits made one by one.
    ///
    /// # Errors
    ///
    /// The cause of the first edit that is refused, and `NoMemory` if memory runs out.
    pub fn with_edits<K: OpKit<Op = Op>>(
        self,
        kit: &K,
        alloc: Global,
        buffers: &[BufferFact],
        edits: &[NodeEdit<Op>],
    ) -> Result<Draft<Op>, GraphRefused>
        ensures ok { IfOk result (λ draft. with_edits (shapes_of_facts buffers.now) (Ok self) edits.now ≡ Ok draft) }
        ensures refused { IfErr result (IsRefusalOf (with_edits (shapes_of_facts buffers.now) (Ok self) edits.now)) }
    {
        let mut draft = self;
        for edit in edits {
            draft = draft.with_edit(kit, alloc, buffers, edit)?;
        }
        Ok(draft)
    }

    /// Returns the nodes with an edit made.
    fn with_edit<K: OpKit<Op = Op>>(
        self,
        kit: &K,
        alloc: Global,
        buffers: &[BufferFact],
        edit: &NodeEdit<Op>,
    ) -> Result<Draft<Op>, GraphRefused>
        ensures ok { IfOk result (λ draft. then_edit (shapes_of_facts buffers.now) (Ok self) edit.now ≡ Ok draft) }
        ensures refused { IfErr result (IsRefusalOf (then_edit (shapes_of_facts buffers.now) (Ok self) edit.now)) }
    {
        match self.edit_refused(buffers, edit) {
            Some(refused) => Err(GraphRefused::State(refused)),
            None => match edit {
                NodeEdit::Set(node) => Ok(self.with_node(copy_node(kit, alloc, node)?)?),
                NodeEdit::Remove(name) => Ok(self.without(*name)),
            },
        }
    }

    /// Returns why an edit is refused, where it is.
    fn edit_refused(&self, buffers: &[BufferFact], edit: &NodeEdit<Op>) -> Option<StateRefused>
        ensures { result ≡ edit_refused (shapes_of_facts buffers.now) self.now edit.now }
    {
        match edit {
            NodeEdit::Set(node) => self.set_refused(buffers, node),
            NodeEdit::Remove(name) => self.remove_refused(*name),
        }
    }

    /// Returns why a node can't be set, where it can't.
    fn set_refused(&self, buffers: &[BufferFact], node: &NodeSpec<Op>) -> Option<StateRefused>
        ensures { result ≡ edit_refused (shapes_of_facts buffers.now) self.now (Set node.now) }
    {
        let index = self.index_of(node.name);
        if !self.reads_earlier(buffers, index, &node.body) {
            return Some(StateRefused::UnknownInput);
        }
        if !self.has(node.name) && self.nodes().len() == MAX_NODES {
            return Some(StateRefused::TooManyNodes);
        }
        None
    }

    /// Returns why the node of a name can't be removed, where it can't.
    fn remove_refused(&self, name: Name) -> Option<StateRefused>
        ensures { result ≡ edit_refused [] self.now (Remove name) }
    {
        if !self.has(name) {
            return Some(StateRefused::UnknownInput);
        }
        if self.is_read(name) {
            return Some(StateRefused::InUse);
        }
        None
    }

    /// Returns whether a node of a name is there.
    fn has(&self, name: Name) -> bool
        ensures { result ≡ has_node self.now name }
    {
        self.index_of(name) < self.nodes().len()
    }

    /// Returns whether the node of a name is an input of another.
    fn is_read(&self, name: Name) -> bool
        ensures { result ≡ list_any (λ node. reads_node name node.body) self.now }
    {
        self.nodes().iter().any(|node| reads_node(name, &node.body))
    }

    /// Returns whether a body reads only buffers that are there, and nodes that are before an index.
    #[tactic(auto, using(crate::proofs::BufferLaws::some_shape))]
    fn reads_earlier(&self, buffers: &[BufferFact], index: usize, body: &Body<Op>) -> bool
        ensures { result ≡ reads_earlier (shapes_of_facts buffers.now) self.now index body.now }
    {
        match body {
            Body::Source { buffer } => buffer_of(buffers, *buffer).is_some(),
            Body::Compute { inputs, .. } => self.come_before(index, inputs.as_slice()),
        }
    }

    /// Returns whether the nodes of these names are before an index.
    fn come_before(&self, index: usize, names: &[Name]) -> bool
        ensures { result ≡ list_all (λ name. nat_lt (index_of self.now name) index) names.now }
    {
        names.iter().all(|name| self.index_of(*name) < index)
    }

    /// Returns the nodes with one at the position of its name, or after all others.
    fn with_node(self, node: NodeSpec<Op>) -> Result<Draft<Op>, NoMemory>
        ensures { IfOk result (λ draft. draft ≡ with_edit self (Set node)) }
    {
        let index = self.index_of(node.name);
        if index < self.nodes().len() {
            Ok(self.replaced(index, node))
        } else {
            self.appended(node)
        }
    }

    /// Returns the nodes with one in the place of that of its name, which is at a position.
    fn replaced(self, index: usize, node: NodeSpec<Op>) -> Draft<Op>
        requires at { index ≡ index_of self node.name }
        requires there { index < length self }
        ensures { result ≡ with_edit self (Set node) }
    {
        let Draft { mut nodes, names } = self;
        nodes[index] = node;
        Draft { nodes, names }
    }

    /// Returns the nodes with one of a new name after them.
    fn appended(self, node: NodeSpec<Op>) -> Result<Draft<Op>, NoMemory>
        requires { index_of self node.name ≡ length self }
        ensures { IfOk result (λ draft. draft ≡ with_edit self (Set node)) }
    {
        let Draft {
            mut nodes,
            mut names,
        } = self;
        names.push(node.name)?;
        nodes.push(node)?;
        Ok(Draft { nodes, names })
    }

    /// Returns the nodes without that of a name, which is there.
    fn without(self, name: Name) -> Draft<Op>
        requires { index_of self name < length self }
        ensures { result ≡ with_edit self (Remove name) }
    {
        let Draft {
            mut nodes,
            mut names,
        } = self;
        let index = names.index_of(name);
        let _ = nodes.remove(index);
        names.remove(index);
        Draft { nodes, names }
    }
}

/// Returns whether the node of a name is an input of a body.
fn reads_node<Op>(name: Name, body: &Body<Op>) -> bool
    ensures { result ≡ reads_node name body.now }
{
    match body {
        Body::Source { .. } => false,
        Body::Compute { inputs, .. } => inputs.as_slice().contains(&name),
    }
}
