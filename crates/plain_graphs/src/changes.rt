//! Where the images of nodes may differ between two states of which one follows the other.

ghost use Rattle.std.specs.Prelude.{◌≡◌, ◌++◌, IfOk, List, map, slice_index_or};
ghost use Rattle.std.specs.List.{list_all};
ghost use Rattle.plane_rect.specs.Rectangle.{empty};
ghost use Rattle.model_graphs.specs.Facts.{root_of, specs_of};
ghost use Rattle.model_graphs.specs.Node.{index_of};
ghost use Rattle.model_operations.specs.Meanings.{int_meanings, same_operation};
ghost use Rattle.model_states.specs.Cache.{itself, without_damaged};
ghost use Rattle.model_states.specs.Damage.{damage, damage_list, damage_of_node, damage_passed_on, damages, gone_names, have_same_shapes, inputs_of, invalidated_by, is_unedited, known_damage, new_boxes, same_body, same_names, same_shape, side_shape};
ghost use Rattle.model_states.specs.Rectangles.{rectangle_of};
ghost use Rattle.model_states.specs.State.{node_of};
ghost use Rattle.model_states.specs.Valid.{node_names};
ghost use Rattle.plane_rect.specs.Tile.{meets};

use crate::cache::Pair;
use crate::graph::{Graph, Shape};
use crate::names::{buffer_of, fact_index};
use crate::shapes::stated_at;
use crate::tiles::hull_of;
use alloc_basics::NoMemory;
use model_graphs::{Body, NodeSpec};
use model_operations::IntOp;
use operation_regions::invalidated;
use plane_rect::{Name, Rect, meets};
use std::alloc::Global;
use std::marker::Model;

/// Two graphs of which one follows the other, and the rectangles of root buffers that separate them:
/// a root that is not listed has not changed. A clause sees the change from the one to the other.
#[derive(Drop)]
pub struct Change<'a> {
    old: &'a Graph,
    new: &'a Graph,
    rectangles: &'a [(Name, Rect)],
}

impl<'a> Model for Change<'a> {
    ghost use Rattle.model_states.specs.Damage.{Change};
    ghost use Rattle.model_operations.specs.declared.operation.IntOp.{IntOp};

    ghost Value = { Change IntOp };

    ghost view = { λ change. record {
      old = change.old.now;
      new = change.new.now;
      rectangles = change.rectangles.now;
    } };
}

impl<'a> Change<'a> {
    /// Makes the change from an old graph to a new one.
    pub fn between(old: &'a Graph, new: &'a Graph, rectangles: &'a [(Name, Rect)]) -> Change<'a>
        ensures { result ≡ record { old = old.now; new = new.now; rectangles = rectangles.now } }
    {
        Change {
            old,
            new,
            rectangles,
        }
    }

    /// Returns the damages of the new graph's nodes, in their order: a rectangle outside of which the image
    /// has not changed.
    ///
    /// # Errors
    ///
    /// No memory was left.
    pub fn damages(&self, alloc: Global) -> Result<Vec<Rect>, NoMemory>
        ensures { IfOk result (λ rects. rects.items ≡ damages same_operation int_meanings self.now) }
    {
        let new = self.new;
        let mut known = Vec::new(alloc);
        for fact in &new.nodes {
            let damage = self.damage_of_node(alloc, &known, &fact.spec)?;
            known.push(damage)?;
        }
        Ok(known)
    }

    /// Returns the damage of the node of a name, where those of the new graph's nodes are known: that of a
    /// node that is gone is its box.
    fn damage(&self, known: &[Rect], name: Name) -> Rect
        requires { known.now ≡ damages same_operation int_meanings self.now }
        ensures { result ≡ damage same_operation int_meanings self.now name }
    {
        let new = self.new;
        match known.get(fact_index(&new.nodes, name)) {
            Some(damage) => *damage,
            None => self.old_shape(name).bounds,
        }
    }

    /// Returns the damage of a node of the new graph, where those of the nodes before it are known.
    fn damage_of_node(
        &self,
        alloc: Global,
        known: &[Rect],
        node: &NodeSpec<IntOp>,
    ) -> Result<Rect, NoMemory>
        ensures { IfOk result (λ damage. damage
            ≡ damage_of_node same_operation int_meanings self.now known.now node.now) }
    {
        let new = self.new;
        let bounds = stated_at(&new.nodes, known.len()).bounds;
        if self.is_unedited(node) {
            return self.damage_passed_on(alloc, known, &bounds, &node.body);
        }
        Ok(self.old_shape(node.name).bounds.hull(&bounds))
    }

    /// Tests whether the old graph has a node of the name of this one of the new graph, with its body and
    /// with its inputs' boxes and formats.
    fn is_unedited(&self, node: &NodeSpec<IntOp>) -> bool
        ensures { result ≡ is_unedited same_operation self.now node.now
            (node_of (specs_of self.now.old.nodes) node.now.name) }
    {
        let old = self.old;
        match old.nodes.get(fact_index(&old.nodes, node.name)) {
            Some(before) => same_body(&before.spec.body, &node.body)
                && self.keeps(inputs_of(&node.body)),
            None => false,
        }
    }

    /// Tests whether the nodes of these names have the boxes and the formats that they had.
    fn keeps(&self, names: &[Name]) -> bool
        ensures { result ≡ have_same_shapes self.now names.now }
    {
        names.iter().all(|name| self.keeps_shape(*name))
    }

    /// Tests whether the node of a name has the box and the format that it had.
    fn keeps_shape(&self, name: Name) -> bool
        ensures { result ≡ same_shape (side_shape self.now.old name)
            (side_shape self.now.new name) }
    {
        let (old, new) = (self.old_shape(name), self.new_shape(name));
        old.bounds == new.bounds && old.format == new.format
    }

    /// Returns the shape of the old graph's node of a name.
    fn old_shape(&self, name: Name) -> Shape
        ensures { result ≡ side_shape self.now.old name }
    {
        let old = self.old;
        stated_at(&old.nodes, fact_index(&old.nodes, name))
    }

    /// Returns the shape of the new graph's node of a name.
    fn new_shape(&self, name: Name) -> Shape
        ensures { result ≡ side_shape self.now.new name }
    {
        let new = self.new;
        stated_at(&new.nodes, fact_index(&new.nodes, name))
    }

    /// Returns what the damage of the inputs invalidates of a node of this box, or what the rectangle of a
    /// root is of it.
    fn damage_passed_on(
        &self,
        alloc: Global,
        known: &[Rect],
        bounds: &Rect,
        body: &Body<IntOp>,
    ) -> Result<Rect, NoMemory>
        ensures { IfOk result (λ damage. damage
            ≡ damage_passed_on int_meanings self.now known.now bounds.now body.now) }
    {
        match body {
            Body::Source { buffer } => Ok(self.written(*buffer).meet(bounds)),
            Body::Compute { op, inputs } => {
                let invalid = self.invalidated(alloc, known, op, inputs.as_slice())?;
                Ok(hull_of(&invalid))
            }
        }
    }

    /// Returns the rectangle of the root of a buffer.
    fn written(&self, buffer: Name) -> Rect
        ensures { result ≡ rectangle_of self.now.rectangles (root_of self.now.new.buffers buffer) }
    {
        let new = self.new;
        match buffer_of(&new.buffers, buffer) {
            Some(source) => rectangle_of(self.rectangles, source.root.as_bytes()),
            None => rectangle_of(self.rectangles, &[]),
        }
    }

    /// Returns what the damage of each input invalidates of an operation's result.
    fn invalidated(
        &self,
        alloc: Global,
        known: &[Rect],
        op: &IntOp,
        inputs: &[Name],
    ) -> Result<Vec<Rect>, NoMemory>
        ensures { IfOk result (λ rects. rects.items
            ≡ invalidated_by int_meanings op.now (new_boxes self.now inputs.now)
            (known_damage self.now known.now) inputs.now) }
    {
        let boxes = self.new_boxes(alloc, inputs)?;
        let mut rects = Vec::new(alloc);
        for (input, name) in inputs.iter().enumerate() {
            let changed = self.known_damage(known, *name);
            rects.push(invalidated(op, &boxes, input, changed))?;
        }
        Ok(rects)
    }

    /// Returns the boxes of the new graph's nodes of these names.
    fn new_boxes(&self, alloc: Global, names: &[Name]) -> Result<Vec<Rect>, NoMemory>
        ensures { IfOk result (λ boxes. boxes.items ≡ new_boxes self.now names.now) }
    {
        Ok(
            names
                .iter()
                .map(|name| self.new_shape(*name).bounds)
                .collect(alloc)?,
        )
    }

    /// Returns the damage of the new graph's node of a name, among those that are known.
    fn known_damage(&self, known: &[Rect], name: Name) -> Rect
        ensures { result ≡ known_damage self.now known.now name }
    {
        let new = self.new;
        known
            .get(fact_index(&new.nodes, name))
            .copied()
            .unwrap_or(Rect::EMPTY)
    }

    /// Returns the pairs of a list whose tile does not meet the damage of their node, in their order.
    ///
    /// # Errors
    ///
    /// No memory was left.
    pub fn without_damaged(&self, alloc: Global, pairs: &[Pair]) -> Result<Vec<Pair>, NoMemory>
        ensures { IfOk result (λ left. left.items
            ≡ without_damaged itself (damage same_operation int_meanings self.now) pairs.now) }
    {
        let known = self.damages(alloc)?;
        let left = self.undamaged(alloc, &known, pairs)?;
        Ok(left)
    }

    /// Returns the same, where the damages of the new graph's nodes are known.
    fn undamaged(
        &self,
        alloc: Global,
        known: &[Rect],
        pairs: &[Pair],
    ) -> Result<Vec<Pair>, NoMemory>
        requires { known.now ≡ damages same_operation int_meanings self.now }
        ensures { IfOk result (λ left. left.items
            ≡ without_damaged itself (damage same_operation int_meanings self.now) pairs.now) }
    {
        let mut left = Vec::new(alloc);
        for pair in pairs {
            if !self.is_damaged(known, pair) {
                left.push(*pair)?;
            }
        }
        Ok(left)
    }

    /// Tests whether the tile of a pair meets the damage of its node.
    fn is_damaged(&self, known: &[Rect], pair: &Pair) -> bool
        requires { known.now ≡ damages same_operation int_meanings self.now }
        ensures { result ≡ meets pair.now.tile
            (damage same_operation int_meanings self.now pair.now.node) }
    {
        meets(&pair.tile, &self.damage(known, pair.node))
    }
}

/// Returns the rectangle of the root buffer of a name, without a position where none is listed.
fn rectangle_of(rectangles: &[(Name, Rect)], root: &[u8]) -> Rect
    ensures { result ≡ rectangle_of rectangles.now root.now }
{
    for (name, rect) in rectangles {
        if root == name.as_bytes() {
            return *rect;
        }
    }
    Rect::EMPTY
}

/// Returns the inputs of a body.
fn inputs_of(body: &Body<IntOp>) -> &[Name]
    ensures { result.now ≡ inputs_of body.now }
{
    match body {
        Body::Source { .. } => &[],
        Body::Compute { inputs, .. } => inputs.as_slice(),
    }
}

/// Tests whether two bodies are one.
fn same_body(a: &Body<IntOp>, b: &Body<IntOp>) -> bool
    ensures { result ≡ same_body same_operation a.now b.now }
{
    match (a, b) {
        (Body::Source { buffer: a }, Body::Source { buffer: b }) => a == b,
        (Body::Compute { op: f, inputs: a }, Body::Compute { op: g, inputs: b }) => {
            f == g && same_names(a.as_slice(), b.as_slice())
        }
        _ => false,
    }
}

/// Tests whether two lists have the same names.
fn same_names(a: &[Name], b: &[Name]) -> bool
    ensures { result ≡ same_names a.now b.now }
{
    a == b
}
