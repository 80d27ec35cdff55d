//! Where the images of nodes may differ between two states of which one follows the other.

ghost use Rattle.std.specs.Prelude.{◌≡◌, ◌+◌, ◌++◌, ℕ, IfOk, IsSome, OnOk, Some, length, map, slice_get, slice_index_or};
ghost use Rattle.std.specs.List.{enumerate_from};
ghost use Rattle.plane_rect.specs.Rectangle.{empty};
ghost use Rattle.model_graphs.specs.Facts.{rectangles_of, root_of, specs_of};
ghost use Rattle.model_graphs.specs.Node.{index_of};
ghost use Rattle.model_states.specs.Damage.{damage, damage_list, damage_of_node, damage_passed_on, damages, gone_names, have_same_shapes, inputs_of, is_unedited, new_boxes, same_shape, side_shape};
ghost use Rattle.model_states.specs.{Rectangles.rectangle_of, Regions.hull_of, State.node_of, Valid.node_names};
ghost use Rattle.op_contracts.specs.Applying.{bounds_of};
ghost use Rattle.graph_commits.specs.{Damages.damages_of, States.IsGraphState};

use crate::bodies::{inputs_of, same_body};
use crate::inputs::Inputs;
use crate::regions::rectangle_of;
use crate::shape::{Shape, stated_at};
use crate::state::GraphState;
use alloc_basics::NoMemory;
use graph_edits::buffer_of;
use model_graphs::{Body, Edited, NodeFact, NodeSpec, OpMeaning};
use model_states::DamageList;
use op_contracts::OpKit;
use plane_rect::{Name, Rect};
use std::alloc::Global;
use std::marker::Model;

/// Two states of which one follows the other, and the rectangles of root buffers that separate them: a
/// root that is not listed has not changed. A clause sees it as the change from the one to the other.
#[derive(Drop)]
pub(crate) struct Change<'a, Op: OpMeaning> {
    old: &'a GraphState<Op>,
    new: &'a GraphState<Op>,
    edited: &'a [Edited],
}

impl<'a, Op: OpMeaning> Model for Change<'a, Op> {
    ghost use Rattle.model_graphs.specs.Facts.{rectangles_of};
    ghost use Rattle.model_states.specs.Damage.{Change};

    ghost Value = { Change Op };

    ghost view = { λ change. record {
      old = change.old.now;
      new = change.new.now;
      rectangles = rectangles_of change.edited.now;
    } };
}

impl<'a, Op: OpMeaning + Drop> Change<'a, Op> {
    /// Makes the change from an old state to a new one.
    pub(crate) fn between(
        old: &'a GraphState<Op>,
        new: &'a GraphState<Op>,
        edited: &'a [Edited],
    ) -> Change<'a, Op>
        ensures { result ≡ record { old = old.now; new = new.now; rectangles = rectangles_of edited.now } }
    {
        Change { old, new, edited }
    }

    /// Returns the damages of the new state's nodes, in their order.
    fn damages<K: OpKit<Op = Op>>(&self, kit: &K, alloc: Global) -> Result<Vec<Rect>, NoMemory>
        ensures { IfOk result (λ rects. rects.items ≡ damages Op.same Op.meanings self.now) }
    {
        let new = self.new;
        let nodes = new.nodes();
        let mut inputs = Inputs::new(alloc);
        let mut known = Vec::with_capacity(alloc, nodes.len())?;
        for fact in nodes {
            let damage = self.damage_of_node(kit, &known, fact, &mut inputs)?;
            known.push(damage)?;
        }
        Ok(known)
    }

    /// Returns the damage of a node of the new state, where that of the nodes before it is known. It finds
    /// the node's inputs.
    fn damage_of_node<K: OpKit<Op = Op>>(
        &self,
        kit: &K,
        known: &[Rect],
        fact: &NodeFact<Op>,
        inputs: &mut Inputs,
    ) -> Result<Rect, NoMemory>
        requires state { IsGraphState Op.meanings self.now.new }
        requires at { slice_get self.now.new.nodes (length known.now) ≡ Some fact.now }
        ensures { IfOk result (λ damage. damage
            ≡ damage_of_node Op.same Op.meanings self.now known.now fact.now.spec) }
    {
        let same_inputs = self.find_inputs(inputs_of(&fact.spec.body), inputs)?;
        if self.is_unedited(kit, &fact.spec, known.len(), same_inputs) {
            return Ok(self.damage_passed_on(kit, known, fact, inputs));
        }
        let old = self.old;
        let before = old.shape_near(fact.spec.name, known.len());
        Ok(before.bounds.hull(&fact.bounds))
    }

    /// Finds the new state's nodes of these names, and returns whether they have the boxes and the formats
    /// that they had.
    fn find_inputs(&self, names: &[Name], inputs: &mut Inputs) -> Result<bool, NoMemory>
        ensures positions { OnOk result
            (inputs.new.positions.items ≡ map (index_of (specs_of self.now.new.nodes)) names.now) }
        ensures boxes { OnOk result (inputs.new.boxes.items ≡ new_boxes self.now names.now) }
        ensures same { IfOk result (λ same. same ≡ have_same_shapes self.now names.now) }
    {
        inputs.positions.clear();
        inputs.boxes.clear();
        let new = self.new;
        let mut same = true;
        for name in names {
            let position = new.index_of(*name);
            let shape = stated_at(new.nodes(), position);
            same = same && self.had_shape(*name, position, &shape);
            inputs.positions.push(position)?;
            inputs.boxes.push(shape.bounds)?;
        }
        Ok(same)
    }

    /// Returns whether the node of a name had this box and this format. It looks for it first at a
    /// position where it may be.
    fn had_shape(&self, name: Name, guess: usize, shape: &Shape) -> bool
        ensures { result ≡ same_shape (side_shape self.now.old name) shape.now }
    {
        let old = self.old;
        let before = old.shape_near(name, guess);
        before.bounds == shape.bounds && before.format == shape.format
    }

    /// Returns whether the old state has a node of the name of this one of the new state, with its body
    /// and with its inputs' boxes and formats. It looks for it first at the position that this one has.
    fn is_unedited<K: OpKit<Op = Op>>(
        &self,
        kit: &K,
        node: &NodeSpec<Op>,
        position: usize,
        same_inputs: bool,
    ) -> bool
        requires { same_inputs ≡ have_same_shapes self.now (inputs_of node.now.body) }
        ensures { result ≡ is_unedited Op.same self.now node.now
            (node_of (specs_of self.now.old.nodes) node.now.name) }
    {
        let old = self.old;
        match old.nodes().get(old.index_near(node.name, position)) {
            Some(before) => same_body(kit, &before.spec.body, &node.body) && same_inputs,
            None => false,
        }
    }

    /// Returns what the damage of a node's inputs invalidates of it, or what the rectangle of a root is of
    /// it.
    fn damage_passed_on<K: OpKit<Op = Op>>(
        &self,
        kit: &K,
        known: &[Rect],
        fact: &NodeFact<Op>,
        inputs: &Inputs,
    ) -> Rect
        requires state { IsGraphState Op.meanings self.now.new }
        requires at { slice_get self.now.new.nodes (length known.now) ≡ Some fact.now }
        requires positions { inputs.now.positions.items
            ≡ map (index_of (specs_of self.now.new.nodes)) (inputs_of fact.now.spec.body) }
        requires boxes { inputs.now.boxes.items ≡ new_boxes self.now (inputs_of fact.now.spec.body) }
        ensures { result
            ≡ damage_passed_on Op.meanings self.now known.now fact.now.bounds fact.now.spec.body }
    {
        match &fact.spec.body {
            Body::Source { buffer } => self.written(*buffer).meet(&fact.bounds),
            Body::Compute { op, .. } => {
                invalidated_hull(kit, op, &inputs.boxes, known, &inputs.positions, 0)
            }
        }
    }

    /// Returns the rectangle of the root of a buffer.
    fn written(&self, buffer: Name) -> Rect
        ensures { result ≡ rectangle_of self.now.rectangles (root_of self.now.new.buffers buffer) }
    {
        let new = self.new;
        match buffer_of(new.buffers(), buffer) {
            Some(source) => rectangle_of(self.edited, source.root.as_bytes()),
            None => rectangle_of(self.edited, &[]),
        }
    }

    /// Returns the damage of each node of either state: of the new ones in their order, and then of those
    /// that are gone.
    ///
    /// # Errors
    ///
    /// `NoMemory` if memory runs out.
    pub(crate) fn damage_list<K: OpKit<Op = Op>>(
        &self,
        kit: &K,
        alloc: Global,
    ) -> Result<DamageList, NoMemory>
        ensures { IfOk result (λ list. list ≡ damage_list Op.same Op.meanings self.now) }
    {
        let known = self.damages(kit, alloc)?;
        let list = self.new_damages(alloc, &known)?;
        let list = self.with_gone(alloc, &known, list)?;
        Ok(DamageList::new(list))
    }

    /// Returns the new state's nodes with their damages.
    fn new_damages(&self, alloc: Global, known: &[Rect]) -> Result<Vec<(Name, Rect)>, NoMemory>
        requires { known.now ≡ damages Op.same Op.meanings self.now }
        ensures { IfOk result (λ list. list.items
            ≡ damages_of Op.same Op.meanings self.now (node_names (specs_of self.now.new.nodes))) }
    {
        let new = self.new;
        let nodes = new.nodes();
        let mut list = Vec::with_capacity(alloc, nodes.len())?;
        for fact in nodes {
            let name = fact.spec.name;
            let damage = self.damage(known, name, list.len());
            list.push((name, damage))?;
        }
        Ok(list)
    }

    /// Puts the nodes that are gone after others, with their damages.
    fn with_gone(
        &self,
        alloc: Global,
        known: &[Rect],
        listed: Vec<(Name, Rect)>,
    ) -> Result<Vec<(Name, Rect)>, NoMemory>
        requires { known.now ≡ damages Op.same Op.meanings self.now }
        ensures { IfOk result (λ list. list.items
            ≡ listed.items ++ damages_of Op.same Op.meanings self.now (gone_names self.now)) }
    {
        let names = self.gone_names(alloc)?;
        let mut list = listed;
        for name in &names {
            list.push((*name, self.damage(known, *name, known.len())))?;
        }
        Ok(list)
    }

    /// Returns the names of the old state's nodes that are gone, in their order.
    fn gone_names(&self, alloc: Global) -> Result<Vec<Name>, NoMemory>
        ensures { IfOk result (λ names. names.items ≡ gone_names self.now) }
    {
        let (old, new) = (self.old, self.new);
        old.names_not_in(alloc, new)
    }

    /// Returns the damage of the node of a name, where those of the new state's nodes are known: that of a
    /// node that is gone is its box. It looks for it first at a position where it may be.
    fn damage(&self, known: &[Rect], name: Name, guess: usize) -> Rect
        requires { known.now ≡ damages Op.same Op.meanings self.now }
        ensures { result ≡ damage Op.same Op.meanings self.now name }
    {
        let (old, new) = (self.old, self.new);
        match known.get(new.index_near(name, guess)) {
            Some(damage) => *damage,
            None => old.shape_near(name, guess).bounds,
        }
    }
}

/// Returns the hull of what the damages of inputs invalidate of an operation's result: of those at these
/// positions, the first of which is so many inputs after the first of all.
fn invalidated_hull<K: OpKit>(
    kit: &K,
    op: &K::Op,
    boxes: &[Rect],
    known: &[Rect],
    positions: &[usize],
    input: usize,
) -> Rect
    requires arity { length boxes.now ≡ K.Op.meanings.input_count op.now }
    requires inputs { input + length positions.now ≡ K.Op.meanings.input_count op.now }
    requires bounds { IsSome (bounds_of K.Op.meanings op.now boxes.now) }
    ensures { result ≡ hull_of (map
        (λ (input : ℕ × ℕ). K.Op.meanings.invalidated op.now boxes.now input.0 (slice_index_or known.now input.1 empty))
        (enumerate_from input positions.now)) }
{
    match positions.split_first() {
        Some((position, rest)) => {
            let changed = known.get(*position).copied().unwrap_or(Rect::EMPTY);
            let invalid = kit.invalidated(op, boxes, input, changed);
            invalid.hull(&invalidated_hull(kit, op, boxes, known, rest, input + 1))
        }
        None => Rect::EMPTY,
    }
}
