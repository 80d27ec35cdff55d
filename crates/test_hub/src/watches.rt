//! What the editor and the viewers of a watch do, each on a thread of its own.

ghost use Rattle.scene_hub.specs.Hub.{IsSameEditorHub, IsSameViewerHub, IsViewerOf};

use crate::pages::Page;
use crate::publications::publish_next;
use outside_io::{Gate, OpenGate};
use scene_hub::{Editor, Hub, Viewer};
use std::alloc::Global;
use std::process::Abort;
use std::sync::Wait;
use std::thread::{Threads, join_mut};

/// Publishes so many pages, each of which is reported to the gate. Returns whether it published all.
pub fn publish_all<R: Wait, G: Gate>(
    rt: &R,
    editor: &mut Editor<Page>,
    gate: &G,
    count: u32,
) -> bool
    ensures { IsSameEditorHub editor.old editor.new }
{
    let mut all = true;
    for _page in 0..count {
        all = publish_next(rt, editor).is_some() && all;
        gate.published(editor.number());
    }
    all
}

/// Enters so many times, which is reported to the gate. Returns whether it could, and saw no number
/// below one that it had seen, or below `least`.
pub fn look_all<G: Gate>(
    viewer: &mut Viewer<Page>,
    gate: &G,
    index: u32,
    count: u32,
    least: u64,
) -> bool
    ensures { IsSameViewerHub viewer.old viewer.new }
{
    let mut rises = true;
    for frame in 0..count {
        let before = viewer.number();
        rises = viewer.enter().is_ok() && rises;
        rises = before <= viewer.number() && least <= viewer.number() && rises;
        gate.looked(index, frame);
    }
    rises
}

/// Lets an editor and two viewers run side by side, with so many publications and so many frames of
/// each viewer. Returns whether each did what it should.
pub fn watch<R: Threads + Wait + Sync, G: Gate + Sync>(
    rt: &R,
    editor: &mut Editor<Page>,
    one: &mut Viewer<Page>,
    two: &mut Viewer<Page>,
    gate: &G,
    counts: (u32, u32),
) -> bool
    requires { IsViewerOf one.old editor.old × IsViewerOf two.old editor.old }
    ensures { IsViewerOf one.new editor.new × IsViewerOf two.new editor.new }
{
    let (publications, frames) = counts;
    let least = editor.number();
    one.told(editor.receipt());
    two.told(editor.receipt());
    let (published, (first, second)) = join_mut(
        rt,
        &mut || publish_all(rt, editor, gate, publications),
        &mut || {
            join_mut(
                rt,
                &mut || look_all(one, gate, 0, frames, least),
                &mut || look_all(two, gate, 1, frames, least),
            )
        },
    );
    published && first && second
}

/// Lets an editor and two viewers run side by side so many times, with ten publications and ten frames
/// of each viewer every time.
pub fn watch_often<R: Threads + Wait + Sync>(
    rt: &R,
    editor: &mut Editor<Page>,
    one: &mut Viewer<Page>,
    two: &mut Viewer<Page>,
    rounds: u32,
) -> bool
    requires { IsViewerOf one.old editor.old × IsViewerOf two.old editor.old }
{
    let mut all = true;
    for _round in 0..rounds {
        all = watch(rt, editor, one, two, &OpenGate, (10, 10)) && all;
    }
    all
}

/// Starts a hub with two viewers.
pub fn start_two(
    alloc: Global,
    rt: &(impl Abort + Wait),
) -> (Editor<Page>, Viewer<Page>, Viewer<Page>)
    ensures { IsViewerOf result.1 result.0 × IsViewerOf result.2 result.0 }
{
    let (editor, mut viewers) = Hub::start(alloc, rt, 2, Page { number: 1 }).expect(rt, "a hub");
    let two = viewers.pop().expect(rt, "the second viewer");
    let one = viewers.pop().expect(rt, "the first viewer");
    (editor, one, two)
}
