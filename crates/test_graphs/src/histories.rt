//! Undos and redos.

use crate::briefs::{Brief, trial_over, write};
use crate::steps::{Example, Step, make_all};

const SOURCE: Step = Step::Commit(&[Brief::Source("s", "a")]);

/// Undos have the damages of the commits.
const UNDONE: Example = (
    [0, 0, 8, 8],
    &[
        SOURCE,
        Step::Write([1, 2, 3, 4]),
        Step::Undo,
        Step::Damage(3, &[("s", [1, 2, 3, 4])]),
        Step::Undo,
        Step::Damage(4, &[("s", [0, 0, 8, 8])]),
        Step::Nodes(4, &[]),
        Step::First,
        Step::Nodes(4, &[]),
    ],
);

/// Redos have the damages of the commits.
const REDONE: Example = (
    [0, 0, 8, 8],
    &[
        SOURCE,
        Step::Write([1, 2, 3, 4]),
        Step::Undo,
        Step::Undo,
        Step::Redo,
        Step::Damage(5, &[("s", [0, 0, 8, 8])]),
        Step::Redo,
        Step::Damage(6, &[("s", [1, 2, 3, 4])]),
        Step::Last,
    ],
);

/// Nothing is redone after a commit.
const COMMITTED: Example = (
    [0, 0, 8, 8],
    &[
        SOURCE,
        Step::Undo,
        SOURCE,
        Step::Last,
        Step::Nodes(3, &["s"]),
    ],
);

const HISTORIES: [&Example; 3] = [&UNDONE, &REDONE, &COMMITTED];

#[test]
fn undos_and_redos_have_the_damages_of_the_commits(rt: HostRuntime) {
    for example in &HISTORIES {
        make_all(&rt, rt.alloc(), example);
    }
}

#[test]
fn sixty_four_states_can_be_undone_to(rt: HostRuntime) {
    let mut trial = trial_over(&rt, rt.alloc(), [0, 0, 8, 8]);
    for _ in 0..65 {
        write(&rt, &mut trial, [0, 0, 1, 1]);
    }
    for _ in 0..64 {
        trial.undo(&rt);
    }
    trial.check_first(&rt, 0);
    trial.check_counts(&rt, 1, 129, 0);
}
