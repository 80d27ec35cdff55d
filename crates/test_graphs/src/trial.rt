//! A graph under test.

use crate::values::{Fields, check_row, name};
use graph_commits::{Graph, GraphRefused};
use model_graphs::{BufferFact, Edited, NodeEdit};
use model_states::{Damage, StateRefused};
use op_contracts::OpKit;
use std::alloc::Global;
use std::process::Abort;
use test_nodes::rect;

/// A graph, its kit, the buffers that its next commit is over, and what the last step damaged.
#[derive(Drop)]
pub(crate) struct Trial<K: OpKit> {
    kit: K,
    graph: Graph<K::Op>,
    pub(crate) buffers: Vec<BufferFact>,
    damage: Option<Damage>,
}

impl<K: OpKit + Drop> Trial<K> {
    /// Returns the graph without a node.
    pub(crate) fn new(alloc: Global, kit: K, buffers: Vec<BufferFact>) -> Trial<K> {
        Trial {
            kit,
            graph: Graph::new(alloc),
            buffers,
            damage: None,
        }
    }

    /// Commits edits over the buffers, some of which were written.
    pub(crate) fn commit(&mut self, rt: &impl Abort, edits: &[NodeEdit<K::Op>], edited: &[Edited]) {
        assert!(rt; self.graph.has_all_buffers_in(&self.buffers));
        let damage = self.graph.commit(&self.kit, edits, &self.buffers, edited);
        self.damage = Some(damage.expect(rt, "a commit that is not refused"));
    }

    /// Goes back by one state.
    pub(crate) fn undo(&mut self, rt: &impl Abort) {
        self.damage = Some(self.graph.undo().expect(rt, "a state to undo to"));
    }

    /// Goes on by one state.
    pub(crate) fn redo(&mut self, rt: &impl Abort) {
        self.damage = Some(self.graph.redo().expect(rt, "a state to redo to"));
    }

    /// Checks why a commit of edits is refused.
    pub(crate) fn check_refused(
        &mut self,
        rt: &impl Abort,
        row: usize,
        edits: &[NodeEdit<K::Op>],
        wanted: StateRefused,
    ) {
        assert!(rt; self.graph.has_all_buffers_in(&self.buffers));
        let answer = self.graph.commit(&self.kit, edits, &self.buffers, &[]);
        check_cause(rt, row, answer, wanted);
    }

    /// Checks that there is nothing to undo.
    pub(crate) fn check_first(&mut self, rt: &impl Abort, row: usize) {
        check_cause(rt, row, self.graph.undo(), StateRefused::NothingToUndo);
    }

    /// Checks that there is nothing to redo.
    pub(crate) fn check_last(&mut self, rt: &impl Abort, row: usize) {
        check_cause(rt, row, self.graph.redo(), StateRefused::NothingToRedo);
    }

    /// Checks the number of the last state, and what the step to it damaged of its nodes, in their order.
    pub(crate) fn check_damage(
        &self,
        rt: &impl Abort,
        alloc: Global,
        row: usize,
        number: u64,
        wanted: &[(&str, Fields)],
    ) {
        let damage = self.damage.as_ref().expect(rt, "a step");
        let mut rects = Vec::new(alloc);
        for (word, fields) in wanted {
            rects
                .push((name(rt, word), rect(*fields)))
                .expect(rt, "memory");
        }
        check_row(rt, row, &damage.number, &number);
        check_row(rt, row, &damage.rects.as_slice(), &rects.as_slice());
    }

    /// Checks the number of the last state, and the number of its nodes.
    pub(crate) fn check_counts(&self, rt: &impl Abort, row: usize, number: u64, nodes: usize) {
        let found = (self.graph.number(), self.graph.nodes().len());
        check_row(rt, row, &found, &(number, nodes));
    }

    /// Checks the number of the last state, and the names of its nodes in their order.
    pub(crate) fn check_nodes(
        &self,
        rt: &impl Abort,
        alloc: Global,
        row: usize,
        number: u64,
        wanted: &[&str],
    ) {
        let (mut found, mut names) = (Vec::new(alloc), Vec::new(alloc));
        for fact in self.graph.nodes() {
            found.push(fact.spec.name).expect(rt, "memory");
        }
        for word in wanted {
            names.push(name(rt, word)).expect(rt, "memory");
        }
        check_row(rt, row, &self.graph.number(), &number);
        check_row(rt, row, &found, &names);
    }
}

/// Checks why the step of a row is refused.
fn check_cause(
    rt: &impl Abort,
    row: usize,
    answer: Result<Damage, GraphRefused>,
    wanted: StateRefused,
) {
    check_row(rt, row, &answer.err(), &Some(GraphRefused::State(wanted)));
}
