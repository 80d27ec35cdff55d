//! The end of a hub that shows scenes.

ghost use Rattle.left_right.specs.Sides.{view};
ghost use Rattle.scene_hub.specs.HubRule.{HasSeen, IsShown};
ghost use Rattle.scene_hub.specs.HubList.{IsSameHub};

use crate::numbered::Numbered;
use crate::receipt::Receipt;
use crate::rule::SceneReader;
use crate::showing::Showing;

/// Shows the scene of the last step by which it entered, of which it has a share of its own, so it
/// waits for nobody. What it has seen is `seen` of it, in which each scene follows all before it, and
/// what it was told is `told`.
#[derive(Drop)]
pub struct Viewer<S: Numbered> {
    pub(crate) reader: SceneReader<S>,
    pub(crate) showing: Showing<S>,
    pub(crate) told: Receipt<S>,
    ghost shown: { IsShown S.number_of S.follows showing },
    ghost has_seen: { HasSeen (view reader.place) showing.list },
    ghost one_hub: { IsSameHub told.list showing.list },
}
