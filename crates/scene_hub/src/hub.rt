//! Starting a hub.

ghost use Rattle.std.specs.Prelude.{◌≡◌, ◌≤◌, [], ◌∷◌, ◌++◌, Some, All, IfOk, OnErr, MatchBool, drop, vec_len};
ghost use Rattle.left_right.specs.Sides.{view};
ghost use Rattle.scene_hub.specs.Hub.{published, seen, told, IsViewerOf, IsSameEditorHub};
ghost use Rattle.scene_hub.specs.{HubRule.IsShown, HubList.scenes};

use crate::editor::Editor;
use crate::numbered::Numbered;
use crate::publisher::Publisher;
use crate::receipt::Receipt;
use crate::refusals::HubRefused;
use crate::rule::{Notes, SceneWriter};
use crate::scene_list::SceneList;
use crate::showing::Showing;
use crate::showings::turn;
use crate::viewer::Viewer;
use std::alloc::Global;
use std::snapshot::Snapshot;
use std::sync::{Arc, Wait};

/// A hub of scenes: one editor, and viewers.
pub struct Hub;

/// Shows the first scene once more, where memory suffices. So the writer has seen it, and its queue
/// has room for one scene more.
fn show_again<S: Numbered, R: Wait>(
    rt: &R,
    mut writer: SceneWriter<S>,
    first: &Showing<S>,
) -> (SceneWriter<S>, bool)
    requires pending { drop writer.behind writer.log.items ≡ [] }
    requires shown { IsShown S.number_of S.follows first.now × (writer.desk.shown.value.list ≡ first.now.list) }
    ensures { MatchBool result.1
        ((result.0.desk.shown.value.list ≡ first.now.list) × (view result.0.desk.place ≡ Some first.now.list) × (drop result.0.behind result.0.log.items ≡ []))
        (Unit {0}) }
{
    let Ok(next) = first.share() else {
        return (writer, false);
    };
    let about = Snapshot::of(&next);
    if writer.append(next).is_err() {
        return (writer, false);
    }
    turn(rt, writer, &about)
}

/// Makes the publisher of a hub with so many viewers, which shows the first scene. Where memory runs
/// out it leaves nothing behind.
fn first_publisher<S: Numbered, R: Wait>(
    alloc: Global,
    rt: &R,
    viewers: u32,
    first: &Showing<S>,
) -> Result<Publisher<S>, HubRefused>
    requires viewers { (1 ≤ viewers) × (viewers ≤ 16) }
    requires shown { IsShown S.number_of S.follows first.now }
    ensures { IfOk result (λ publisher. publisher.writer.desk.shown.value.list ≡ first.now.list) }
{
    let (one, other) = (first.share()?, first.share()?);
    let writer: SceneWriter<S> = SceneWriter::new(alloc, one, other, viewers as usize)?;
    let (writer, is_shown) = show_again(rt, writer, first);
    if !is_shown {
        drop(writer.take(rt));
        return Err(HubRefused::NoMemory);
    }
    let (writer, is_shown) = show_again(rt, writer, first);
    if !is_shown {
        drop(writer.take(rt));
        return Err(HubRefused::NoMemory);
    }
    Ok(Publisher { writer })
}

impl<S: Numbered> Editor<S> {
    /// Makes a viewer that has seen what is shown.
    fn viewer(&mut self, shown: &Showing<S>) -> Result<Viewer<S>, HubRefused>
        requires { IsShown S.number_of S.follows shown.now × (shown.now.list ≡ self.old.list.whole) }
        ensures viewer { IfOk result (λ viewer. IsViewerOf viewer self.new × (seen viewer ≡ scenes shown.now.list) × (told viewer ≡ scenes shown.now.list)) }
        ensures list { self.new.list ≡ self.old.list }
    {
        let showing = shown.share()?;
        let writer = &mut self.publisher.writer;
        let Ok(mut reader) = writer.factory().reader() else {
            return Err(HubRefused::NoPlace);
        };
        reader.learn::<Notes>(writer.tell::<Notes>());
        let told = Receipt {
            number: showing.number,
            list: showing.list.again(),
        };
        Ok(Viewer {
            reader,
            showing,
            told,
        })
    }

    /// Makes so many viewers that have seen what is shown.
    fn viewers(
        &mut self,
        alloc: Global,
        count: u32,
        shown: &Showing<S>,
    ) -> Result<Vec<Viewer<S>>, HubRefused>
        requires { IsShown S.number_of S.follows shown.now × (shown.now.list ≡ self.old.list.whole) }
        ensures viewers { IfOk result (λ viewers. (vec_len viewers ≡ count) × All (λ viewer. IsViewerOf viewer self.new × (seen viewer ≡ scenes shown.now.list) × (told viewer ≡ scenes shown.now.list)) viewers.items) }
        ensures list { self.new.list ≡ self.old.list }
    {
        let mut viewers = Vec::new(alloc);
        for _made in 0..count {
            viewers.push(self.viewer(shown)?)?;
        }
        Ok(viewers)
    }
}

impl Hub {
    /// Starts a hub with its first scene and so many viewers, each of which has seen it. At a refusal
    /// nothing is left behind. It waits for nobody but itself.
    pub fn start<S: Numbered, R: Wait>(
        alloc: Global,
        rt: &R,
        viewers: u32,
        first: S,
    ) -> Result<(Editor<S>, Vec<Viewer<S>>), HubRefused>
        requires { (1 ≤ viewers) × (viewers ≤ 16) }
        ensures list { IfOk result (λ hub. published hub.0 ≡ first ∷ []) }
        ensures count { IfOk result (λ hub. vec_len hub.1 ≡ viewers) }
        ensures viewers { IfOk result (λ hub. All (λ viewer. IsViewerOf viewer hub.0 × (seen viewer ≡ first ∷ []) × (told viewer ≡ first ∷ [])) hub.1.items) }
    {
        let number = first.number();
        let scene = Arc::new(alloc, first)?;
        let list = SceneList::begin(&*scene);
        let shown = Showing {
            scene,
            number,
            list: list.whole.again(),
        };
        let publisher = first_publisher(alloc, rt, viewers, &shown)?;
        let last = Receipt {
            number,
            list: list.whole.again(),
        };
        let mut editor = Editor {
            alloc,
            list,
            last,
            publisher,
        };
        match editor.viewers(alloc, viewers, &shown) {
            Ok(viewers) => Ok((editor, viewers)),
            Err(refused) => {
                editor.end(rt);
                Err(refused)
            }
        }
    }
}
