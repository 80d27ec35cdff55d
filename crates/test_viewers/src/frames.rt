//! Frames of a hub's viewer. Expected values were worked out by hand: the inverse of 0 is 255, and a rectangle of 128 by
//! 128 pixels from the origin needs four tiles of 64 by 64.

use crate::scenes::inverted_zeros;
use int_ops::{IntKit, IntOp, IntPurse};
use op_contracts::OpKit;
use plane_rect::Name;
use scene_viewers::{Frame, Hub, ViewRefused, Viewer};
use std::process::Abort;
use std::thread::Threads;
use test_nodes::rect;

/// How many permits there are for a frame.
const PERMITS: u64 = 1 << 32;

/// A rectangle by x, y, width and height.
type Fields = [i64; 4];

/// The rectangle of most frames.
const ALL: Fields = [0, 0, 128, 128];

/// Returns a frame of a node of the viewer's hub, and how many permits it spent.
fn frame(
    rt: &(impl Abort + Threads + Sync),
    viewer: &mut Viewer<IntOp>,
    word: &str,
    fields: Fields,
) -> (Result<Frame, ViewRefused>, u64) {
    let mut purse = IntPurse::new(PERMITS);
    let node = Name::parse(word.as_bytes()).expect(rt, "a name");
    let shown = viewer.render(rt, &IntKit, &mut purse, node, rect(fields));
    (shown, PERMITS.wrapping_sub(IntKit.left(&purse)))
}

/// Checks that a frame has the number, that it is inverted zeros of so many pixels, and that so many permits were spent.
fn check_frame(
    rt: &impl Abort,
    found: (Result<Frame, ViewRefused>, u64),
    number: u64,
    pixels: usize,
    spent: u64,
) {
    let (frame, permits) = found;
    let frame = frame.expect(rt, "a frame");
    let bytes = frame.patch.raw_bytes();
    let inverted = bytes.iter().all(|byte| *byte == 255);
    assert!(rt; frame.number == number && bytes.len() == pixels.wrapping_mul(3) && inverted);
    assert!(rt; permits == spent, "{permits} permits in place of {spent}");
}

#[test]
fn a_frame_of_the_same_scene_is_found_again(rt: HostRuntime) {
    let alloc = rt.alloc();
    let scene = inverted_zeros(alloc, 1).expect(&rt, "a scene");
    let (editor, mut viewers) = Hub::start(alloc, &rt, 1, 16, scene).expect(&rt, "a hub");
    let viewer = &mut viewers[0];
    let first = frame(&rt, viewer, "b", ALL);
    let again = frame(&rt, viewer, "b", ALL);
    let part = frame(&rt, viewer, "b", [60, 60, 8, 8]);
    editor.end(&rt);
    check_frame(&rt, first, 1, 128 * 128, 4);
    check_frame(&rt, again, 1, 128 * 128, 0);
    check_frame(&rt, part, 1, 64, 0);
}

#[test]
fn a_frame_leaves_as_many_tiles_as_the_capacity(rt: HostRuntime) {
    let alloc = rt.alloc();
    let scene = inverted_zeros(alloc, 1).expect(&rt, "a scene");
    let (editor, mut viewers) = Hub::start(alloc, &rt, 1, 3, scene).expect(&rt, "a hub");
    let viewer = &mut viewers[0];
    let first = frame(&rt, viewer, "b", ALL);
    // The tile of the first corner is the oldest, and fell off.
    let last = frame(&rt, viewer, "b", [64, 64, 64, 64]);
    let oldest = frame(&rt, viewer, "b", [0, 0, 64, 64]);
    editor.end(&rt);
    check_frame(&rt, first, 1, 128 * 128, 4);
    check_frame(&rt, last, 1, 64 * 64, 0);
    check_frame(&rt, oldest, 1, 64 * 64, 1);
}

#[test]
fn refusals_spend_nothing_and_leave_the_tiles(rt: HostRuntime) {
    let alloc = rt.alloc();
    let scene = inverted_zeros(alloc, 7).expect(&rt, "a scene");
    let (editor, mut viewers) = Hub::start(alloc, &rt, 1, 16, scene).expect(&rt, "a hub");
    let viewer = &mut viewers[0];
    let first = frame(&rt, viewer, "b", ALL);
    let unknown = frame(&rt, viewer, "c", ALL);
    let again = frame(&rt, viewer, "b", ALL);
    editor.end(&rt);
    let ended = frame(&rt, viewer, "b", ALL);
    let shown = viewer.scene().number();
    check_frame(&rt, first, 7, 128 * 128, 4);
    check_frame(&rt, again, 7, 128 * 128, 0);
    assert!(rt; matches!(unknown, (Err(ViewRefused::UnknownNode { number: 7 }), 0)));
    assert!(rt; matches!(ended, (Err(ViewRefused::NoEntry), 0)) && shown == 7);
}
