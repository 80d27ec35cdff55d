//! What a viewer does. None of its calls waits.

ghost use Rattle.std.specs.Prelude.{◌≡◌, ◌⊎◌, Some, IfOk, OnOk, OnErr, option_map};
ghost use Rattle.left_right.specs.Sides.{view};
ghost use Rattle.scene_hub.specs.SceneLog.{AllFollow, Begins, last_of};
ghost use Rattle.scene_hub.specs.HubRule.{HasSeen, IsSeen, IsShown};
ghost use Rattle.scene_hub.specs.Hub.{seen, told, receipted, IsOfViewer, IsSameViewerHub};

use crate::numbered::Numbered;
use crate::receipt::Receipt;
use crate::refusals::ViewRefused;
use crate::rule::{Look, SceneReader};
use crate::showing::Showing;
use crate::viewer::Viewer;
use core::mem::replace_with;

/// Takes a share of the scene that is shown at the step by which it enters, and leaves.
fn look<S: Numbered>(
    reader: SceneReader<S>,
    _nothing: (),
) -> (SceneReader<S>, Result<Showing<S>, ViewRefused>)
    ensures later { (p : _) → HasSeen (view reader.place) p → HasSeen (view result.0.place) p }
    ensures shown { IfOk result.1 (λ next. IsShown S.number_of S.follows next × IsSeen next.list (view reader.place)) }
    ensures seen { IfOk result.1 (λ next. view result.0.place ≡ Some next.list) }
{
    match reader.enter_as::<Look>() {
        Ok(reading) => {
            let share = reading.get().share();
            let reader = reading.leave();
            match share {
                Ok(next) => (reader, Ok(next)),
                Err(_) => (reader, Err(ViewRefused::NoMemory)),
            }
        }
        Err(reader) => (reader, Err(ViewRefused::NoEntry)),
    }
}

/// Takes a share of the scene that is shown, by a reader that stays where it is.
fn glance<S: Numbered>(reader: &mut SceneReader<S>) -> Result<Showing<S>, ViewRefused>
    ensures later { (p : _) → HasSeen (view reader.old.place) p → HasSeen (view reader.new.place) p }
    ensures shown { IfOk result (λ next. IsShown S.number_of S.follows next × IsSeen next.list (view reader.old.place)) }
    ensures seen { IfOk result (λ next. view reader.new.place ≡ Some next.list) }
{
    replace_with(reader, (), look)
}

impl<S: Numbered> Viewer<S> {
    /// Returns the scene that the viewer shows, which is the last that it has seen.
    pub fn scene(&self) -> &S
        ensures { last_of (seen self.now) ≡ Some result.now }
    {
        &*self.showing.scene
    }

    /// Returns the number of the scene that the viewer shows.
    pub fn number(&self) -> u64
        ensures { option_map S.number_of (last_of (seen self.now)) ≡ Some result }
    {
        self.showing.number
    }

    /// Takes in a receipt of the viewer's hub. From now on the viewer enters at no earlier scene.
    pub fn told(&mut self, receipt: Receipt<S>)
        requires { IsOfViewer receipt self.old }
        ensures told { Begins (told self.old) (told self.new) × Begins (receipted receipt) (told self.new) }
        ensures one { (told self.new ≡ told self.old) ⊎ (told self.new ≡ receipted receipt) }
        ensures seen { seen self.new ≡ seen self.old }
        ensures hub { IsSameViewerHub self.old self.new }
    {
        self.told.list.compare(&receipt.list);
        if self.told.number < receipt.number {
            self.told = receipt;
        }
    }

    /// Enters: the viewer shows the scene that is shown at this step, which is at least as new as all
    /// that it saw or was told. At a refusal it is as before: where its hub has ended, or where memory
    /// runs out.
    pub fn enter(&mut self) -> Result<(), ViewRefused>
        ensures seen { OnOk result (Begins (seen self.old) (seen self.new) × Begins (told self.old) (seen self.new)) }
        ensures follow { AllFollow S.follows (seen self.new) }
        ensures entered { OnOk result (view self.new.reader.place ≡ Some self.new.showing.list) }
        ensures refused { OnErr result (seen self.new ≡ seen self.old) }
        ensures told { told self.new ≡ told self.old }
        ensures hub { IsSameViewerHub self.old self.new }
    {
        let next = glance(&mut self.reader)?;
        self.told.list.compare(&next.list);
        // This never comes, since a scene is shown before its receipt is made.
        if next.number < self.told.number {
            return Err(ViewRefused::NoEntry);
        }
        self.showing = next;
        Ok(())
    }
}
