//! The damage of commits.

use crate::briefs::{Brief, Kind};
use crate::steps::{Example, Step, make_all};

const MEAN_OF_A_SOURCE: Step = Step::Commit(&[
    Brief::Source("s", "a"),
    Brief::Compute("b", Kind::Mean(1), &["s"]),
]);

/// A write damages the square around it.
const SQUARE: Example = (
    [0, 0, 128, 128],
    &[
        MEAN_OF_A_SOURCE,
        Step::Damage(1, &[("s", [0, 0, 128, 128]), ("b", [-1, -1, 130, 130])]),
        Step::Write([0, 0, 1, 1]),
        Step::Damage(2, &[("s", [0, 0, 1, 1]), ("b", [-1, -1, 3, 3])]),
        Step::Write([64, 64, 1, 1]),
        Step::Damage(3, &[("s", [64, 64, 1, 1]), ("b", [63, 63, 3, 3])]),
    ],
);

/// A write beyond a view damages what the view shows.
const BEYOND: Example = (
    [0, 0, 8, 8],
    &[
        MEAN_OF_A_SOURCE,
        Step::Write([7, 6, 9, 9]),
        Step::Damage(2, &[("s", [7, 6, 1, 2]), ("b", [6, 5, 3, 4])]),
    ],
);

/// A changed box damages the hull of both boxes.
const HULL: Example = (
    [0, 0, 200, 1],
    &[
        Step::Commit(&[
            Brief::Source("s", "a"),
            Brief::Compute("c", Kind::Crop([0, 0, 200, 1]), &["s"]),
            Brief::Compute("b", Kind::Mean(1), &["c"]),
        ]),
        Step::Commit(&[Brief::Compute("c", Kind::Crop([0, 0, 100, 1]), &["s"])]),
        Step::Damage(
            2,
            &[
                ("s", [0, 0, 0, 0]),
                ("c", [0, 0, 200, 1]),
                ("b", [-1, -1, 202, 3]),
            ],
        ),
    ],
);

/// A node that is removed is listed last.
const REMOVED: Example = (
    [0, 0, 8, 8],
    &[
        Step::Commit(&[
            Brief::Compute("k", Kind::Color(5), &[]),
            Brief::Source("s", "a"),
        ]),
        Step::Commit(&[Brief::Remove("k")]),
        Step::Damage(2, &[("s", [0, 0, 0, 0]), ("k", [0, 0, 5, 1])]),
    ],
);

/// A node that moves is not damaged.
const MOVED: Example = (
    [0, 0, 8, 8],
    &[
        Step::Commit(&[
            Brief::Source("s", "a"),
            Brief::Compute("i", Kind::Invert, &["s"]),
            Brief::Compute("b", Kind::Mean(1), &["s"]),
        ]),
        Step::Commit(&[
            Brief::Remove("i"),
            Brief::Compute("i", Kind::Invert, &["s"]),
        ]),
        Step::Nodes(2, &["s", "b", "i"]),
        Step::Damage(
            2,
            &[
                ("s", [0, 0, 0, 0]),
                ("b", [0, 0, 0, 0]),
                ("i", [0, 0, 0, 0]),
            ],
        ),
    ],
);

/// All of them.
pub(crate) const DAMAGES: [&Example; 5] = [&SQUARE, &BEYOND, &HULL, &REMOVED, &MOVED];

#[test]
fn commits_damage_what_changes(rt: HostRuntime) {
    for example in &DAMAGES {
        make_all(&rt, rt.alloc(), example);
    }
}
