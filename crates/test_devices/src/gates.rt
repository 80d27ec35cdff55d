//! Viewers and an editor that meet at a gate, each on a thread.

use crate::check::check;
use outside_io::{Gate, MeetGate};
use std::thread::join;

/// Returns a viewer that reports so many frames, one after another.
fn look(gate: &MeetGate, viewer: u32, frames: u32) {
    for frame in 0..frames {
        gate.looked(viewer, frame);
    }
}

/// Returns an editor that publishes the scenes of so many commits.
fn publish(gate: &MeetGate, commits: u64) {
    for number in 0..commits {
        gate.published(number);
    }
}

#[test]
fn viewers_and_an_editor_meet(rt: HostRuntime) {
    let gate = MeetGate::new(rt.alloc(), 2, 2, 1_000_000_000).expect(&rt, "memory");
    join(
        &rt,
        || {
            join(&rt, || look(&gate, 0, 2), || look(&gate, 1, 2));
        },
        || publish(&gate, 3),
    );
    assert!(rt; gate.ran_out() == 0 && gate.calls() == 7);
}

#[test]
fn a_single_viewer_waits_for_nobody(rt: HostRuntime) {
    let gate = MeetGate::new(rt.alloc(), 1, 1, 10).expect(&rt, "memory");
    gate.looked(0, 0);
    gate.published(2);
    assert!(rt; gate.ran_out() == 0 && gate.calls() == 2);
}

/// A call on a gate, as a viewer's frame or a commit, each by its number.
#[derive(Clone, Copy)]
enum Call {
    Looked(u32, u32),
    Published(u64),
}

/// Calls on a gate of two viewers, two frames each and three turns, and how many waits ran out by then.
const WAITS: [(Call, u64); 10] = [
    // These wait for nothing: there is no third viewer, and no third frame.
    (Call::Looked(2, 0), 0),
    (Call::Looked(0, 2), 0),
    // The other viewer reported nothing, and the same report again is none of it.
    (Call::Looked(0, 0), 1),
    (Call::Looked(0, 0), 2),
    // Nothing was published, and then frame 0 of viewer 1 is missing.
    (Call::Looked(1, 1), 3),
    (Call::Published(1), 4),
    // Now all of frame 0 are there, then all of frame 1, and there is no frame 2.
    (Call::Looked(1, 0), 4),
    (Call::Looked(0, 1), 4),
    (Call::Published(2), 4),
    (Call::Published(3), 4),
];

#[test]
fn waits_end_after_their_turns(rt: HostRuntime) {
    let gate = MeetGate::new(rt.alloc(), 2, 2, 3).expect(&rt, "memory");
    for (index, (call, ran_out)) in WAITS.iter().enumerate() {
        match *call {
            Call::Looked(viewer, frame) => gate.looked(viewer, frame),
            Call::Published(number) => gate.published(number),
        }
        check(&rt, index, gate.ran_out(), *ran_out);
    }
    check(&rt, "calls", gate.calls(), 10);
}
