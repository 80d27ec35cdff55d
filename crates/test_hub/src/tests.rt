//! Expected values were worked out by hand.

use crate::pages::Page;
use crate::publications::publish_next;
use crate::watches::{start_two, watch, watch_often};
use outside_io::MeetGate;
use scene_hub::{Hub, ViewRefused};

#[test]
fn an_ended_hub_has_no_entry(rt: HostRuntime) {
    let (editor, mut viewers) = Hub::start(rt.alloc(), &rt, 1, Page { number: 1 }).expect(
        &rt, "a hub",
    );
    let first = viewers[0].number();
    let entered = viewers[0].enter();
    editor.end(&rt);
    let after = viewers[0].enter();
    let last = viewers[0].scene().number;
    assert!(rt; first == 1 && entered.is_ok());
    assert!(rt; after == Err(ViewRefused::NoEntry) && last == 1);
}

#[test]
fn sixteen_viewers_see_what_they_are_told(rt: HostRuntime) {
    let (mut editor, mut viewers) = Hub::start(rt.alloc(), &rt, 16, Page { number: 1 }).expect(
        &rt, "a hub",
    );
    let before = editor.number();
    let published = publish_next(&rt, &mut editor);
    let mut all = true;
    for viewer in &mut viewers {
        all = viewer.enter().is_ok() && viewer.number() == 2 && all;
    }
    editor.end(&rt);
    assert!(rt; published == Some(2) && all);
    assert!(rt; before == 1 && viewers.len() == 16);
}

#[test]
fn numbers_rise_over_a_thousand_publications(rt: HostRuntime) {
    let (mut editor, mut one, mut two) = start_two(rt.alloc(), &rt);
    let all = watch_often(&rt, &mut editor, &mut one, &mut two, 100);
    let last = editor.number();
    editor.end(&rt);
    assert!(rt; all && last == 1001);
}

#[test]
fn the_editor_and_two_viewers_meet(rt: HostRuntime) {
    let gate = MeetGate::new(rt.alloc(), 2, 2, 1_000_000_000).expect(&rt, "memory");
    let (mut editor, mut one, mut two) = start_two(rt.alloc(), &rt);
    let all = watch(&rt, &mut editor, &mut one, &mut two, &gate, (3, 2));
    editor.end(&rt);
    assert!(rt; all && gate.ran_out() == 0 && gate.calls() == 7);
}
