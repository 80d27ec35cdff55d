//! What a viewer is told by.

ghost use Rattle.std.specs.Prelude.{◌≡◌, Some, option_map};
ghost use Rattle.scene_hub.specs.HubList.{scenes, IsReached, FollowUpTo};
ghost use Rattle.scene_hub.specs.SceneLog.{last_of};

use crate::numbered::Numbered;
use crate::prefix::ListPrefix;

/// A receipt of a scene that was published. It holds the prefix of the hub's list that ends with the
/// scene. A viewer that is told of it shows no earlier scene from then on.
#[derive(Drop)]
pub struct Receipt<S: Numbered> {
    pub(crate) number: u64,
    pub(crate) list: ListPrefix<S>,
    ghost reached: { IsReached list },
    ghost follow: { FollowUpTo S.number_of S.follows list number },
}

impl<S: Numbered> Receipt<S> {
    /// Returns the number of the scene.
    pub fn number(&self) -> u64
        ensures { option_map S.number_of (last_of (scenes self.now.list)) ≡ Some result }
    {
        self.number
    }
}
