//! Edits of nodes, and nodes, that the plain program refuses.

use crate::values::{check_row, nodes_of};
use model_operations::IntOp;
use plain_graphs::{StateRefused, walk_refused, with_edits};
use std::alloc::Global;
use std::fmt::Write;
use std::process::Abort;
use test_nodes::{node, sketched};

/// Checks why the edits of a script, of no nodes over no buffers, are refused, where one is.
fn check_edits(
    rt: &impl Abort,
    alloc: Global,
    row: usize,
    script: &str,
    wanted: Option<StateRefused>,
) {
    let edits = sketched(alloc, script).expect(rt, "edits").edits;
    let edited = with_edits(alloc, &[], Vec::new(alloc), &edits).expect(rt, "memory");
    check_row(rt, row, &edited.err(), &wanted);
}

/// Edits that are refused.
const EDITS: [(&str, StateRefused); 3] = [
    ("node i invert zz", StateRefused::UnknownInput),
    (
        "node k color Y8 0 0 1 1 5\nnode i invert k\ndrop k",
        StateRefused::InUse,
    ),
    ("drop k", StateRefused::UnknownInput),
];

#[test]
fn edits_that_are_refused(rt: HostRuntime) {
    for (row, (script, wanted)) in EDITS.iter().enumerate() {
        check_edits(&rt, rt.alloc(), row, script, Some(*wanted));
    }
}

/// Returns a script of as many nodes of new names.
fn new_names(rt: &impl Abort, alloc: Global, count: u32) -> String {
    let mut script = String::new(alloc);
    for number in 0..count {
        write!(script, "node k{number} color Y8 0 0 1 1 5\n").expect(rt, "memory");
    }
    script
}

#[test]
fn the_nodes_are_at_most_256(rt: HostRuntime) {
    let alloc = rt.alloc();
    check_edits(&rt, alloc, 0, &new_names(&rt, alloc, 256), None);
    let refused = Some(StateRefused::TooManyNodes);
    check_edits(&rt, alloc, 1, &new_names(&rt, alloc, 257), refused);
}

/// Nodes without buffers of which the walk refuses one.
const WALKS: [(&str, StateRefused); 2] = [
    (
        "node k color Y8 0 0 1 1 5\nnode u over k k",
        StateRefused::Formats,
    ),
    (
        "node k color Y8 0 0 32768 1 5\nnode b box 1 NONE k",
        StateRefused::Bounds,
    ),
];

#[test]
fn nodes_that_the_walk_refuses(rt: HostRuntime) {
    let alloc = rt.alloc();
    for (row, (script, wanted)) in WALKS.iter().enumerate() {
        let (_, nodes) = nodes_of(&rt, alloc, script);
        let refused = walk_refused(alloc, &[], &nodes).expect(&rt, "memory");
        check_row(&rt, row, &refused, &Some(*wanted));
    }
    let lone = [node(alloc, "i", IntOp::Invert, &[]).expect(&rt, "a node")];
    let refused = walk_refused(alloc, &[], &lone).expect(&rt, "memory");
    check_row(&rt, 2, &refused, &Some(StateRefused::Arity));
}
