//! Graphs: states that follow one another, by commits, undos and redos.

ghost use Rattle.std.specs.Prelude.{◌≡◌, IfErr, IfOk, Ok, OnErr, OnOk};
ghost use Rattle.std.specs.Bool.{OnTrue};
ghost use Rattle.std.specs.List.{list_all};
ghost use Rattle.model_graphs.specs.Facts.{rectangles_of};
ghost use Rattle.model_states.specs.Commits.{change_to, committed, new_graph};
ghost use Rattle.model_states.specs.Retained.{redone, undone};
ghost use Rattle.model_states.specs.declared.direction.Direction.TheVariants.{Redo, Undo};
ghost use Rattle.graph_commits.specs.Graphs.{AreDamagesOf, AreStillThere, IsAnswered, IsGraph, is_still_there};
ghost use Rattle.model_states.specs.Directions.{stepped};
ghost use Rattle.graph_edits.specs.Refusals.{IsRefusalOf};

use crate::buffers::are_still_there;
use crate::change::Change;
use crate::history::History;
use crate::state::GraphState;
use graph_edits::GraphRefused;
use model_graphs::{BufferFact, Edited, NodeEdit, NodeFact, OpMeaning};
use model_states::{Damage, DamageList, Direction};
use op_contracts::OpKit;
use std::alloc::Global;
use std::marker::Model;

/// A graph of operations: its last state, and up to 64 states that can be undone or redone. A clause sees
/// it as these states with their damages, and the number of the last one.
#[derive(Drop)]
pub struct Graph<Op: OpMeaning> {
    alloc: Global,
    history: History<GraphState<Op>, DamageList>,
}

impl<Op: OpMeaning> Model for Graph<Op> {
    ghost use Rattle.model_states.specs.Commits.{Graph};
    ghost use Rattle.graph_commits.specs.Graphs.{IsGraph};

    ghost Value = { Graph Op };

    ghost view = { λ graph. graph.history };

    ghost invariant = { λ graph. IsGraph Op.same Op.meanings graph.history };
}

impl<Op: OpMeaning + Drop> Graph<Op> {
    /// Returns the graph without a node, whose number is 0. It takes no memory.
    pub fn new(alloc: Global) -> Graph<Op>
        ensures { result ≡ new_graph }
    {
        Graph {
            alloc,
            history: History::new(alloc, GraphState::new(alloc)),
        }
    }

    /// Returns the nodes of the last state in their order, with their boxes and formats.
    pub fn nodes(&self) -> &[NodeFact<Op>]
        ensures nodes { result.now ≡ self.now.latest.nodes }
        ensures graph { IsGraph Op.same Op.meanings self.now }
    {
        self.history.latest().nodes()
    }

    /// Returns the facts of the buffers that the last state is over.
    pub fn buffers(&self) -> &[BufferFact]
        ensures { result.now ≡ self.now.latest.buffers }
    {
        self.history.latest().buffers()
    }

    /// Returns the number of the last state.
    pub fn number(&self) -> u64
        ensures { result ≡ self.now.number }
    {
        self.history.number()
    }

    /// Returns whether each buffer of the last state is among these, with its root, its bounds and its
    /// format. A commit over them asks for that.
    pub fn has_all_buffers_in(&self, buffers: &[BufferFact]) -> bool
        ensures test { result ≡ list_all (is_still_there buffers.now) self.now.latest.buffers }
        ensures there { OnTrue result (AreStillThere self.now.latest.buffers buffers.now) }
    {
        are_still_there(self.buffers(), buffers)
    }

    /// Commits edits: they are made one by one over these buffers, to whose roots `edited` was written
    /// since the last commit. Nothing can be redone after it. Its cost is proportional to the number of
    /// nodes and of their inputs, and to the regions that the kit computes.
    ///
    /// # Errors
    ///
    /// `TooManyCommits`, or else the cause of the first edit that is refused, or else that of the first
    /// node that is not valid, and `NoMemory` if memory runs out. The graph is unchanged.
    pub fn commit<K: OpKit<Op = Op>>(
        &mut self,
        kit: &K,
        edits: &[NodeEdit<Op>],
        buffers: &[BufferFact],
        edited: &[Edited],
    ) -> Result<Damage, GraphRefused>
        requires still { AreStillThere self.old.latest.buffers buffers.now }
        ensures committed { IfOk result (λ damage.
            committed Op.same Op.meanings self.old edits.now buffers.now (rectangles_of edited.now)
            ≡ Ok (record { next = self.new; delta = damage.rects })) }
        ensures number { IfOk result (λ damage. damage.number ≡ self.new.number) }
        ensures buffers { OnOk result (self.new.latest.buffers ≡ buffers.now) }
        ensures damages { IfOk result (λ damage.
            AreDamagesOf Op.same Op.meanings (change_to self.old self.new.latest (rectangles_of edited.now)) damage.rects) }
        ensures refused { IfErr result
            (IsRefusalOf (committed Op.same Op.meanings self.old edits.now buffers.now (rectangles_of edited.now))) }
        ensures unchanged { OnErr result (self.new ≡ self.old) }
    {
        let number = self.history.next_number()?;
        let old = self.history.latest();
        let new = old.edited(kit, self.alloc, edits, buffers)?;
        let rects = Change::between(old, &new, edited).damage_list(kit, self.alloc)?;
        let retained = rects.clone()?;
        self.history.commit(new, retained)?;
        Ok(Damage { number, rects })
    }

    /// Goes back to the state before the last commit that is not yet undone.
    ///
    /// # Errors
    ///
    /// `TooManyCommits` or `NothingToUndo`, and `NoMemory` if memory runs out. The graph is unchanged.
    pub fn undo(&mut self) -> Result<Damage, GraphRefused>
        ensures undone { IfOk result (λ damage. IsAnswered Op.same Op.meanings Undo self.old self.new damage.number damage.rects) }
        ensures refused { IfErr result (IsRefusalOf (undone self.old)) }
        ensures unchanged { OnErr result (self.new ≡ self.old) }
    {
        self.step(Direction::Undo)
    }

    /// Goes on to the state that the last undo that is not yet redone left.
    ///
    /// # Errors
    ///
    /// `TooManyCommits` or `NothingToRedo`, and `NoMemory` if memory runs out. The graph is unchanged.
    pub fn redo(&mut self) -> Result<Damage, GraphRefused>
        ensures redone { IfOk result (λ damage. IsAnswered Op.same Op.meanings Redo self.old self.new damage.number damage.rects) }
        ensures refused { IfErr result (IsRefusalOf (redone self.old)) }
        ensures unchanged { OnErr result (self.new ≡ self.old) }
    {
        self.step(Direction::Redo)
    }

    /// Goes back or on, by an undo or a redo.
    ///
    /// # Errors
    ///
    /// `TooManyCommits`, or else `NothingToUndo` or `NothingToRedo`, and `NoMemory` if memory runs out. The graph is
    /// unchanged.
    pub fn step(&mut self, direction: Direction) -> Result<Damage, GraphRefused>
        ensures stepped { IfOk result (λ damage.
            IsAnswered Op.same Op.meanings direction self.old self.new damage.number damage.rects) }
        ensures refused { IfErr result (IsRefusalOf (stepped direction self.old)) }
        ensures unchanged { OnErr result (self.new ≡ self.old) }
    {
        let number = self.history.next_number()?;
        let Some(delta) = self.history.delta_ahead(direction) else {
            return Err(GraphRefused::State(direction.refusal()));
        };
        let rects = delta.clone()?;
        self.history.step(direction)?;
        Ok(Damage { number, rects })
    }
}
