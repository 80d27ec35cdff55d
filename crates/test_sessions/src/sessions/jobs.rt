//! Jobs of edits, commits and renders. The results are worked out by hand.

use crate::sessions::calls::Made::{Buffer, Load, Node, Paint, Source};
use crate::sessions::calls::Work;
use crate::sessions::steps::Bytes::{All, From, Of};
use crate::sessions::steps::Step::{
    self, Commit, Counts, Edit, Grabs, Has, Redo, Refuses, Shows, Undo,
};
use crate::values::Fields;
use render_workers::RenderRefused;

/// The rectangle of four tiles.
const SQUARE: Fields = [0, 0, 128, 128];

/// One of its tiles.
const TILE: Fields = [0, 0, 64, 64];

/// Commits a gray square of 128 by 128 pixels under the mean of nine, as the first state.
pub const MEAN: [Step; 7] = [
    Edit(Buffer("a", SQUARE)),
    Edit(Paint("a", SQUARE, 100)),
    Edit(Source("s", "a")),
    Edit(Node("b", Work::Mean, "s")),
    Has("b", false),
    Commit(1),
    Has("b", true),
];

/// Renders the mean twice, again after one pixel was written and committed, after an undo and after a redo. The tiles
/// that meet the pixel's damage are evaluated again, and no others.
pub const EDITED_AND_UNDONE: [Step; 18] = [
    Shows(("b", 0, SQUARE), From(&[(0, &[44, 67]), (129, &[100])])),
    Counts(4, 0),
    Shows(("b", 0, SQUARE), Of(0)),
    Counts(4, 4),
    Edit(Paint("a", [0, 0, 1, 1], 200)),
    Shows(("b", 0, SQUARE), Of(0)),
    Counts(4, 8),
    Commit(2),
    Shows(
        ("b", 0, SQUARE),
        From(&[(0, &[56, 78, 67]), (128, &[78, 111, 100])]),
    ),
    Counts(5, 11),
    Undo(3),
    Grabs("a", [0, 0, 1, 1], &[100]),
    Shows(("b", 0, SQUARE), Of(0)),
    Counts(6, 14),
    Redo(4),
    Grabs("a", [0, 0, 1, 1], &[200]),
    Shows(("b", 0, SQUARE), Of(3)),
    Counts(7, 17),
];

/// Loads four pixels, and shows them through two nodes that are edited between two commits.
pub const LOADED: [Step; 15] = [
    Edit(Buffer("a", [0, 0, 2, 2])),
    Edit(Load("a", [0, 0, 2, 2], &[10, 20, 30, 200])),
    Edit(Source("s", "a")),
    Edit(Node("g", Work::Gain(2), "s")),
    Edit(Node("i", Work::Invert, "g")),
    Commit(1),
    Shows(("i", 0, [0, 0, 2, 2]), All(&[235, 215, 195, 0])),
    Counts(2, 0),
    Edit(Node("g", Work::Gain(3), "s")),
    Shows(("i", 0, [0, 0, 2, 2]), All(&[235, 215, 195, 0])),
    Counts(2, 2),
    Commit(2),
    Shows(("i", 0, [0, 0, 2, 2]), All(&[225, 195, 165, 0])),
    Counts(4, 2),
    Shows(("i", 1, [0, 0, 1, 1]), All(&[146])),
];

/// The refusals of strips of two and of three tiles, where a cache has one.
const TWO_TILES: RenderRefused = RenderRefused::Strip {
    needed: 2,
    capacity: 1,
};

const THREE_TILES: RenderRefused = RenderRefused::Strip {
    needed: 3,
    capacity: 1,
};

/// Renders the mean with a cache of one pair: a strip of more tiles is refused and not counted, and one tile is found
/// only where it was the last that was looked up. The mean is one pixel wider than the buffer on each side, so that a
/// whole row of it needs three tiles to the right of the origin.
pub const ONE_PAIR: [Step; 16] = [
    Refuses(("b", 0, SQUARE), TWO_TILES),
    Shows(("b", 0, TILE), From(&[])),
    Counts(1, 0),
    Shows(("b", 0, TILE), Of(0)),
    Counts(1, 1),
    Shows(("b", 0, [64, 0, 64, 64]), From(&[])),
    Counts(2, 1),
    Shows(("b", 0, TILE), Of(0)),
    Counts(3, 1),
    Shows(("b", 0, [0, 0, 64, 128]), From(&[(0, &[44, 67])])),
    Counts(4, 2),
    Refuses(("b", 0, [0, 0, 32_768, 1]), THREE_TILES),
    Refuses(("c", 0, [0, 0, 1, 1]), RenderRefused::UnknownNode),
    Refuses(("b", 8, [0, 0, 129, 1]), RenderRefused::Rect),
    Shows(("b", 0, [0, 64, 64, 64]), From(&[])),
    Counts(4, 3),
];

/// Renders rows of the mean that are within its box, across its border, of which the mean has only a part, and past it.
pub const ACROSS_THE_BORDER: [Step; 6] = [
    Shows(("b", 0, [10, 10, 4, 1]), All(&[100; 4])),
    Counts(1, 0),
    Shows(("b", 0, [127, 5, 4, 1]), All(&[67, 33, 0, 0])),
    Counts(3, 0),
    Shows(("b", 0, [300, 60, 4, 1]), All(&[0; 4])),
    Counts(3, 0),
];

/// The box of a buffer of two tiles.
const PAIR: Fields = [0, 0, 128, 64];

/// Returns the steps that invert a buffer of two tiles twice, paint a part of it, undo that and redo it. Each state
/// shows the buffer as it was committed: with these bytes, and with the painted ones.
pub fn inverted_and_painted<'a>(raw: &'a [u8], painted: &'a [u8]) -> [Step<'a>; 14] {
    [
        Edit(Buffer("a", PAIR)),
        Edit(Load("a", PAIR, raw)),
        Edit(Source("s", "a")),
        Edit(Node("i", Work::Invert, "s")),
        Edit(Node("j", Work::Invert, "i")),
        Commit(1),
        Shows(("j", 0, PAIR), All(raw)),
        Edit(Paint("a", [60, 0, 8, 1], 7)),
        Commit(2),
        Shows(("j", 0, PAIR), All(painted)),
        Undo(3),
        Shows(("j", 0, PAIR), All(raw)),
        Redo(4),
        Shows(("j", 0, PAIR), All(painted)),
    ]
}

/// Returns the steps that render the mean of nine of a gray square twice, and again after one pixel was written and
/// committed. Both states show these means.
pub fn work_after_an_edit<'a>(first: &'a [u8], second: &'a [u8]) -> [Step<'a>; 10] {
    [
        Edit(Buffer("a", SQUARE)),
        Edit(Paint("a", SQUARE, 100)),
        Edit(Source("s", "a")),
        Edit(Node("b", Work::Mean, "s")),
        Commit(1),
        Shows(("b", 0, SQUARE), All(first)),
        Shows(("b", 0, SQUARE), All(first)),
        Edit(Paint("a", [0, 0, 1, 1], 200)),
        Commit(2),
        Shows(("b", 0, SQUARE), All(second)),
    ]
}

/// Returns the steps that paint both tiles of a buffer and read it four times, each time these bytes.
pub fn four_reads<'a>(raw: &'a [u8]) -> [Step<'a>; 7] {
    [
        Edit(Buffer("a", PAIR)),
        Edit(Paint("a", [0, 0, 64, 64], 1)),
        Edit(Paint("a", [64, 0, 64, 64], 2)),
        Grabs("a", PAIR, raw),
        Grabs("a", PAIR, raw),
        Grabs("a", PAIR, raw),
        Grabs("a", PAIR, raw),
    ]
}
