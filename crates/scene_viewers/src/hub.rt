//! Starting a hub of scenes.

ghost use Rattle.std.specs.Prelude.{◌≡◌, ◌≤◌, [], ◌∷◌, All, IfOk, map, vec_len};
ghost use Rattle.scene_hub.specs.Hub.{published};
ghost use Rattle.scene_viewers.specs.Viewers.{IsFresh, fresh_viewer};

use crate::hub_scene::HubScene;
use crate::viewer::Viewer;
use alloc_basics::NoMemory;
use model_graphs::OpMeaning;
use render_workers::Scene;
use scene_hub::{Editor, HubRefused};
use std::alloc::Global;
use std::sync::Wait;

/// A hub of scenes: one editor publishes, viewers render and wait for nobody.
pub struct Hub;

/// Makes viewers without cached tiles of those that enter.
fn viewers_of<Op: OpMeaning + Drop>(
    alloc: Global,
    entrances: Vec<scene_hub::Viewer<HubScene<Op>>>,
    capacity: u32,
) -> Result<Vec<Viewer<Op>>, NoMemory>
    requires { 1 ≤ capacity }
    ensures { IfOk result (λ viewers. viewers.items
        ≡ map (λ entrance. fresh_viewer capacity entrance.showing.list entrance.told.list) entrances.items) }
{
    let mut viewers = Vec::with_capacity(alloc, entrances.len())?;
    for entrance in entrances {
        viewers.push(Viewer::new(alloc, entrance, capacity)?)?;
    }
    Ok(viewers)
}

impl Hub {
    /// Starts a hub with its first scene and so many viewers, each of which has seen it and keeps at most `capacity`
    /// tiles after a frame. It waits for nobody but itself.
    ///
    /// # Errors
    ///
    /// `NoPlace` where there is no room for a viewer, and `NoMemory` if memory runs out. Nothing is left behind.
    pub fn start<Op: OpMeaning + Drop, R: Wait>(
        alloc: Global,
        rt: &R,
        viewers: u32,
        capacity: u32,
        first: Scene<Op>,
    ) -> Result<(Editor<HubScene<Op>>, Vec<Viewer<Op>>), HubRefused>
        requires viewers { (1 ≤ viewers) × (viewers ≤ 16) }
        requires capacity { 1 ≤ capacity }
        ensures list { IfOk result (λ hub. published hub.0 ≡ first ∷ []) }
        ensures count { IfOk result (λ hub. vec_len hub.1 ≡ viewers) }
        ensures viewers { IfOk result (λ hub. All (IsFresh capacity first hub.0.list.whole) hub.1.items) }
    {
        let (editor, entrances) = scene_hub::Hub::start(alloc, rt, viewers, HubScene::new(first))?;
        match viewers_of(alloc, entrances, capacity) {
            Ok(viewers) => Ok((editor, viewers)),
            Err(NoMemory) => {
                editor.end(rt);
                Err(HubRefused::NoMemory)
            }
        }
    }
}
