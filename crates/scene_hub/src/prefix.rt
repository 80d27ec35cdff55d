//! A prefix of the list of a hub's scenes.

ghost use Rattle.std.specs.Prelude.{◌≡◌, ◌⊎◌};
ghost use Rattle.scene_hub.specs.HubList.{IsReached, IsSameHub, scenes};
ghost use Rattle.scene_hub.specs.SceneLog.{Begins};

use crate::book::HubBook;
use crate::entry::Entry;
use logbook::Seen;

/// A log that was reached.
pub type Log<S> = Seen<Entry<S>, (), HubBook<S>>;

/// A prefix of the list of a hub's scenes, which is `scenes` of it: those that the log at `reached`
/// has of the list that begins at `origin`. It has no bytes.
#[derive(Drop)]
pub struct ListPrefix<S> {
    pub origin: Log<S>,
    pub reached: Log<S>,
}

impl<S> ListPrefix<S> {
    /// Returns a copy.
    pub fn again(&self) -> ListPrefix<S>
        ensures { result ≡ self.now }
    {
        ListPrefix {
            origin: self.origin.again(),
            reached: self.reached.again(),
        }
    }

    /// Shows that one of two prefixes of the same list begins the other. It does nothing at run time.
    pub(crate) fn compare(&self, other: &ListPrefix<S>)
        requires { IsSameHub self.now other.now × IsReached self.now × IsReached other.now }
        ensures { Begins (scenes self.now) (scenes other.now) ⊎ Begins (scenes other.now) (scenes self.now) }
    {
        let mut both = self.reached.again();
        both.learn(&other.reached);
    }
}
