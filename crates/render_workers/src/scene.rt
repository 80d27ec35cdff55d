//! A committed state with the images of its sources.

ghost use Rattle.std.specs.Prelude.{◌≡◌, []};
ghost use Rattle.std.specs.List.{IsDistinct};
ghost use Rattle.std.specs.Str.{bytes_eq};
ghost use Rattle.frozen_images.specs.Scenes.{facts_in};
ghost use Rattle.model_graphs.specs.Facts.{shapes_of_facts};
ghost use Rattle.model_states.specs.Valid.{AreStated};
ghost use Rattle.render_workers.specs.Scenes.{names_in};

use frozen_images::{FrozenBuffer, SceneTiles};
use model_graphs::{NodeFact, OpMeaning};
use model_states::Damage;
use std::marker::Model;

/// A committed state as data for viewers: its number, its nodes with their boxes and formats, the buffers that they
/// show, whose images tiles in memory hold, and the damages of the last commits. It needs no chain, so it can be handed
/// to another thread.
#[derive(Drop)]
pub struct Scene<Op: OpMeaning> {
    number: u64,
    nodes: Vec<NodeFact<Op>>,
    buffers: Vec<FrozenBuffer>,
    damages: Vec<Damage>,
}

impl<Op: OpMeaning> Model for Scene<Op> {
    ghost use Rattle.render_workers.specs.Scenes.{IsScene, SceneOf};

    ghost Value = { SceneOf Op };

    ghost view = { λ scene. record { number = scene.number; nodes = scene.nodes.items; buffers = scene.buffers.items; damages = scene.damages.items } };

    ghost invariant = { λ scene. IsScene Op.meanings
        (record { number = scene.number; nodes = scene.nodes.items; buffers = scene.buffers.items; damages = scene.damages.items }) };
}

impl<Op: OpMeaning + Drop> Scene<Op> {
    /// Returns the scene of a state of this number, without damages and without memory. The nodes are valid over the
    /// buffers, of which no two have one name.
    pub fn new(number: u64, nodes: Vec<NodeFact<Op>>, buffers: Vec<FrozenBuffer>) -> Scene<Op>
        requires distinct { IsDistinct bytes_eq (names_in buffers.items) }
        requires stated { AreStated Op.meanings (shapes_of_facts (facts_in buffers.items)) nodes.items }
        ensures { result ≡ record { number = number; nodes = nodes.items; buffers = buffers.items; damages = [] } }
    {
        let damages = Vec::new(*nodes.allocator());
        Scene {
            number,
            nodes,
            buffers,
            damages,
        }
    }

    /// Returns the scene with these damages of the last commits in place of its own, without memory.
    pub fn with_damages(self, damages: Vec<Damage>) -> Scene<Op>
        ensures { result ≡ record { number = self.number; nodes = self.nodes; buffers = self.buffers; damages = damages.items } }
    {
        Scene { damages, ..self }
    }

    /// Returns the damages of the last commits.
    pub fn damages(&self) -> &[Damage]
        ensures { result.now ≡ self.now.damages }
    {
        &self.damages
    }

    /// Returns the number of the state.
    pub fn number(&self) -> u64
        ensures { result ≡ self.now.number }
    {
        self.number
    }

    /// Returns the nodes in their order, which are valid over the buffers.
    pub fn nodes(&self) -> &[NodeFact<Op>]
        ensures nodes { result.now ≡ self.now.nodes }
        ensures stated { AreStated Op.meanings (shapes_of_facts (facts_in self.now.buffers)) self.now.nodes }
    {
        &self.nodes
    }

    /// Returns the buffers with their frozen images, of which no two have one name.
    pub fn buffers(&self) -> &[FrozenBuffer]
        ensures buffers { result.now ≡ self.now.buffers }
        ensures distinct { IsDistinct bytes_eq (names_in self.now.buffers) }
    {
        &self.buffers
    }

    /// Returns the source of the buffers' tiles, over whatever chain.
    pub fn tiles(&self) -> SceneTiles<'_>
        ensures { result.buffers.now ≡ self.now.buffers }
    {
        SceneTiles::new(&self.buffers)
    }
}
