//! Commits that are refused.

use crate::briefs::{Brief, Kind, new_nodes, trial_over};
use crate::steps::{Example, Step, make_all};
use model_states::StateRefused;

/// Two nodes, of which the second reads the first, and a wide one.
const NODES: Step = Step::Commit(&[
    Brief::Source("s", "a"),
    Brief::Compute("i", Kind::Invert, &["s"]),
    Brief::Compute("k", Kind::Color(32_768), &[]),
]);

/// An edit that is not refused.
const FINE: Brief = Brief::Source("t", "b");

/// Checks that these nodes are unchanged.
const UNCHANGED: Step = Step::Nodes(3, &["s", "i", "k"]);

/// Edits that are refused, each after one that is not: the graph is unchanged, and its nodes can be removed.
pub(crate) const REFUSED: Example = (
    [0, 0, 8, 8],
    &[
        Step::Add("b"),
        NODES,
        Step::Undo,
        Step::Redo,
        Step::Refused(
            &[FINE, Brief::Compute("n", Kind::Invert, &["zz"])],
            StateRefused::UnknownInput,
        ),
        UNCHANGED,
        Step::Refused(
            &[FINE, Brief::Source("n", "zz")],
            StateRefused::UnknownInput,
        ),
        UNCHANGED,
        Step::Refused(
            &[FINE, Brief::Compute("s", Kind::Invert, &["i"])],
            StateRefused::UnknownInput,
        ),
        UNCHANGED,
        Step::Refused(
            &[FINE, Brief::Compute("i", Kind::Invert, &["i"])],
            StateRefused::UnknownInput,
        ),
        UNCHANGED,
        Step::Refused(&[FINE, Brief::Remove("zz")], StateRefused::UnknownInput),
        UNCHANGED,
        Step::Refused(&[FINE, Brief::Remove("s")], StateRefused::InUse),
        UNCHANGED,
        Step::Refused(
            &[FINE, Brief::Compute("n", Kind::Invert, &[])],
            StateRefused::Arity,
        ),
        UNCHANGED,
        Step::Refused(
            &[FINE, Brief::Compute("n", Kind::Over, &["s", "i", "s"])],
            StateRefused::Arity,
        ),
        UNCHANGED,
        Step::Refused(
            &[FINE, Brief::Compute("n", Kind::Over, &["t", "s"])],
            StateRefused::Formats,
        ),
        UNCHANGED,
        Step::Refused(
            &[FINE, Brief::Compute("n", Kind::Mean(1), &["k"])],
            StateRefused::Bounds,
        ),
        UNCHANGED,
        Step::Commit(&[Brief::Remove("i"), Brief::Remove("s")]),
        Step::Nodes(4, &["k"]),
    ],
);

/// A refused commit leaves what can be redone.
const LEFT: Example = (
    [0, 0, 8, 8],
    &[
        NODES,
        Step::Undo,
        Step::Refused(&[Brief::Remove("s")], StateRefused::UnknownInput),
        Step::Redo,
        Step::Nodes(3, &["s", "i", "k"]),
    ],
);

/// An edit is refused before a node.
pub(crate) const FIRST: Example = (
    [0, 0, 8, 8],
    &[Step::Refused(
        &[Brief::Compute("n", Kind::Invert, &[]), Brief::Remove("zz")],
        StateRefused::UnknownInput,
    )],
);

/// A buffer that was taken away after an undo is unknown.
const TAKEN_AWAY: Example = (
    [0, 0, 8, 8],
    &[
        Step::Commit(&[Brief::Source("s", "a")]),
        Step::Add("b"),
        Step::Commit(&[FINE]),
        Step::Undo,
        Step::TakeAway,
        Step::Refused(&[FINE], StateRefused::UnknownInput),
        Step::Nodes(3, &["s"]),
    ],
);

const REFUSALS: [&Example; 4] = [&REFUSED, &LEFT, &FIRST, &TAKEN_AWAY];

#[test]
fn refused_commits_leave_the_graph(rt: HostRuntime) {
    for example in &REFUSALS {
        make_all(&rt, rt.alloc(), example);
    }
}

#[test]
fn a_graph_has_at_most_256_nodes(rt: HostRuntime) {
    let alloc = rt.alloc();
    let mut trial = trial_over(&rt, alloc, [0, 0, 8, 8]);
    let refused = StateRefused::TooManyNodes;
    trial.check_refused(&rt, 0, &new_nodes(&rt, alloc, 257), refused);
    trial.check_counts(&rt, 1, 0, 0);
    trial.commit(&rt, &new_nodes(&rt, alloc, 256), &[]);
    trial.check_counts(&rt, 2, 1, 256);
}
