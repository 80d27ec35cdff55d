//! Showing the next scene.

ghost use Rattle.std.specs.Prelude.{◌≡◌, [], ◌∷◌, Some, drop, OnErr, MatchBool};
ghost use Rattle.left_right.specs.Sides.{view};
ghost use Rattle.scene_hub.specs.HubRule.{IsSeen, IsShown};
ghost use Rattle.scene_hub.specs.HubList.{ComesBefore};

use crate::numbered::Numbered;
use crate::publisher::Publisher;
use crate::rule::{Look, SceneWriter};
use crate::showing::Showing;
use core::mem::replace_with;
use std::snapshot::Snapshot;
use std::sync::Wait;
use std::thread;

/// Puts the next scene in the writer's queue. The queue has had room for it since the hub was started,
/// so this does not wait.
fn queue<S: Numbered, R: Wait>(rt: &R, writer: &mut SceneWriter<S>, mut next: Showing<S>)
    requires { drop writer.old.behind writer.old.log.items ≡ [] }
    ensures desk { writer.new.desk ≡ writer.old.desk }
    ensures pending { drop writer.new.behind writer.new.log.items ≡ next ∷ [] }
{
    for _ in rt.forever() {
        match writer.append(next) {
            Ok(()) => return,
            Err(back) => next = back,
        }
        thread::yield_now();
    }
    unreachable!()
}

/// Shows the scene that is queued, or nothing new where no share of it can be taken.
pub(crate) fn turn<S: Numbered, R: Wait>(
    rt: &R,
    writer: SceneWriter<S>,
    next: &Snapshot<Showing<S>>,
) -> (SceneWriter<S>, bool)
    requires queued { drop writer.behind writer.log.items ≡ next.now.value ∷ [] }
    requires shown { IsShown S.number_of S.follows next.now.value }
    requires later { ComesBefore writer.desk.shown.value.list next.now.value.list }
    ensures { MatchBool result.1
        ((result.0.desk.shown.value.list ≡ next.now.value.list) × (view result.0.desk.place ≡ Some next.now.value.list) × (drop result.0.behind result.0.log.items ≡ []))
        ((result.0.desk.shown.value ≡ writer.desk.shown.value) × (drop result.0.behind result.0.log.items ≡ next.now.value ∷ []) × (view result.0.desk.place ≡ view writer.desk.place)) }
{
    let (writer, outcome) = writer.publish_as::<Look, R>(rt);
    (writer, outcome.is_ok())
}

/// Shows the scene that is queued. It waits for the viewers that are entering.
fn show_queued<S: Numbered, R: Wait>(
    rt: &R,
    mut writer: SceneWriter<S>,
    next: &Snapshot<Showing<S>>,
) -> SceneWriter<S>
    requires queued { drop writer.behind writer.log.items ≡ next.now.value ∷ [] }
    requires shown { IsShown S.number_of S.follows next.now.value }
    requires later { ComesBefore writer.desk.shown.value.list next.now.value.list }
    ensures shown { result.desk.shown.value.list ≡ next.now.value.list }
    ensures seen { view result.desk.place ≡ Some next.now.value.list }
    ensures none_pending { drop result.behind result.log.items ≡ [] }
{
    for _ in rt.forever() {
        let (after, is_shown) = turn(rt, writer, next);
        writer = after;
        if is_shown {
            return writer;
        }
    }
    unreachable!()
}

/// Shows the next scene, by the runtime beside it.
fn show_next<S: Numbered, R: Wait>(
    mut writer: SceneWriter<S>,
    job: (&R, Showing<S>),
) -> (SceneWriter<S>, ())
    requires queued { drop writer.behind writer.log.items ≡ [] }
    requires shown { IsShown S.number_of S.follows job.1 }
    requires later { ComesBefore writer.desk.shown.value.list job.1.list }
    ensures shown { result.0.desk.shown.value.list ≡ job.entry.1.list }
    ensures seen { view result.0.desk.place ≡ Some job.entry.1.list }
    ensures none_pending { drop result.0.behind result.0.log.items ≡ [] }
{
    let (rt, next) = job;
    let about = Snapshot::of(&next);
    queue(rt, &mut writer, next);
    (show_queued(rt, writer, &about), ())
}

impl<S: Numbered> Publisher<S> {
    /// Shows the next scene. It waits for the viewers that are entering.
    pub(crate) fn show<R: Wait>(&mut self, rt: &R, next: Showing<S>)
        requires shown { IsShown S.number_of S.follows next }
        requires later { ComesBefore self.old.writer.desk.shown.value.list next.list }
        ensures { self.new.writer.desk.shown.value.list ≡ next.list }
    {
        replace_with(&mut self.writer, (rt, next), show_next);
    }
}
