//! What a hub of scenes shows.

ghost use Rattle.std.specs.Prelude.{◌≡◌};
ghost use Rattle.frozen_images.specs.Scenes.{facts_in};
ghost use Rattle.model_graphs.specs.Facts.{shapes_of_facts};
ghost use Rattle.model_states.specs.Valid.{AreStated};
ghost use Rattle.scene_viewers.specs.HubScenes.{MayFollow, following-rises, following-transitive};

use model_graphs::OpMeaning;
use render_workers::Scene;
use scene_hub::Numbered;
use std::marker::Model;

/// A scene in a hub. A clause sees it as the scene.
#[derive(Drop)]
pub struct HubScene<Op: OpMeaning> {
    scene: Scene<Op>,
}

impl<Op: OpMeaning> Model for HubScene<Op> {
    ghost use Rattle.render_workers.specs.Scenes.{SceneOf};

    ghost Value = { SceneOf Op };

    ghost view = { λ hub. hub.scene };
}

impl<Op: OpMeaning + Drop> HubScene<Op> {
    /// Makes it of a scene.
    pub fn new(scene: Scene<Op>) -> HubScene<Op>
        ensures { result ≡ scene }
    {
        HubScene { scene }
    }

    /// Returns the scene.
    pub fn scene(&self) -> &Scene<Op>
        ensures scene { result.now ≡ self.now }
        ensures stated { AreStated Op.meanings (shapes_of_facts (facts_in self.now.buffers)) self.now.nodes }
    {
        let _nodes = self.scene.nodes();
        &self.scene
    }
}

impl<Op: OpMeaning + Drop> Numbered for HubScene<Op> {
    ghost number_of = { λ scene. scene.number };

    ghost follows = { MayFollow Op.meanings };

    ghost rises = { following-rises Op.meanings };

    ghost transitive = { following-transitive Op.meanings };

    fn number(&self) -> u64 {
        self.scene.number()
    }
}
