//! A viewer of scenes.

use crate::hub_scene::HubScene;
use model_graphs::OpMeaning;
use node_cache::HandCache;
use patch_abyss::Patch;
use scene_hub::Numbered;
use std::alloc::Global;
use std::marker::Model;

/// A rectangle of a node of one scene, with the number of the scene.
#[derive(Drop)]
pub struct Frame {
    pub number: u64,
    pub patch: Patch,
}

/// A viewer of a hub's scenes, which keeps the tiles of nodes that it evaluated. It shows the scene of the last step
/// by which it entered. A clause sees the prefixes of the hub's list that it has seen and that it was told, the cached
/// tiles, the most recent first, and how many of them a frame leaves. The tiles are right for the scene that it shows,
/// where each scene that it has seen wholly follows the one before it.
#[derive(Drop)]
pub struct Viewer<Op: OpMeaning + Drop>
where
    HubScene<Op>: Numbered,
{
    pub(crate) entrance: scene_hub::Viewer<HubScene<Op>>,
    pub(crate) cache: HandCache,
    pub(crate) capacity: u32,
    pub(crate) alloc: Global,
}

impl<Op: OpMeaning + Drop> Model for Viewer<Op>
where
    HubScene<Op>: Numbered,
{
    ghost use Rattle.scene_viewers.specs.Viewers.{IsViewer, ViewerOf};

    ghost Value = { ViewerOf Op };

    ghost view = { λ v. record { shown = v.entrance.showing.list; told = v.entrance.told.list; entries = v.cache.tiles.entries; most = v.cache.tiles.cap; capacity = v.capacity } };

    ghost invariant = { λ v. IsViewer Op.meanings (record { shown = v.entrance.showing.list; told = v.entrance.told.list; entries = v.cache.tiles.entries; most = v.cache.tiles.cap; capacity = v.capacity }) };
}
