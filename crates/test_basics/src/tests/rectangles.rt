//! Answers that were worked out by hand, and those of GEGL's rectangles.

use crate::tests::check::check;
use plane_rect::{Name, PLANE_ORIGIN, PLANE_SIDE, Rect, RectRefused, TileAt, plane_index};
use std::process::Abort;

fn made(fields: [i64; 4]) -> Result<Rect, RectRefused> {
    let [x, y, w, h] = fields;
    Rect::new(x, y, w, h)
}

fn rect(rt: &impl Abort, fields: [i64; 4]) -> Rect {
    made(fields).expect(rt, "a rectangle")
}

fn fields(rect: &Rect) -> [i64; 4] {
    [
        i64::from(rect.x),
        i64::from(rect.y),
        i64::from(rect.w),
        i64::from(rect.h),
    ]
}

#[test]
fn columns_count_from_the_corner(rt: HostRuntime) {
    check(&rt, "first", plane_index(-16_777_216), 0);
    check(&rt, "origin", plane_index(0), PLANE_ORIGIN);
    check(&rt, "last", plane_index(16_777_215), PLANE_SIDE - 1);
}

#[test]
fn new_refuses_or_makes(rt: HostRuntime) {
    let size = Some(RectRefused::Size);
    let position = Some(RectRefused::Place);
    check(&rt, "size", made([16_777_216, 0, 1, 1]).err(), size);
    check(&rt, "position", made([16_777_217, 0, 0, 0]).err(), position);
    check(&rt, "empty", rect(&rt, [5, 5, 0, 3]), Rect::EMPTY);
    let widest = rect(&rt, [-16_777_216, 0, 33_554_432, 1]);
    assert!(rt; !widest.in_limits());
    assert!(rt; widest.has(16_777_215, 0) && !widest.has(16_777_215, 1));
    assert!(rt; !widest.is_empty() && Rect::EMPTY.is_empty());
}

/// Two rectangles, the intersection and the bounding box.
const PAIRS: [[[i64; 4]; 4]; 8] = [
    [[0, 0, 3, 3], [2, 2, 4, 4], [2, 2, 1, 1], [0, 0, 6, 6]],
    [[0, 0, 3, 3], [5, 5, 1, 1], [0, 0, 0, 0], [0, 0, 6, 6]],
    [[0, 0, 1, 1], [3, 2, 1, 1], [0, 0, 0, 0], [0, 0, 4, 3]],
    [[0, 0, 10, 10], [5, 5, 10, 10], [5, 5, 5, 5], [0, 0, 15, 15]],
    [
        [0, 0, 10, 10],
        [10, 0, 10, 10],
        [0, 0, 0, 0],
        [0, 0, 20, 10],
    ],
    [
        [-10, -10, 5, 5],
        [-7, -8, 10, 10],
        [-7, -8, 2, 3],
        [-10, -10, 13, 12],
    ],
    [[0, 0, 0, 0], [3, 4, 5, 6], [0, 0, 0, 0], [3, 4, 5, 6]],
    [[3, 4, 5, 6], [0, 0, 0, 0], [0, 0, 0, 0], [3, 4, 5, 6]],
];

#[test]
fn meets_and_hulls(rt: HostRuntime) {
    for (row, [a, b, meet, hull]) in PAIRS.iter().enumerate() {
        let (a, b) = (rect(&rt, *a), rect(&rt, *b));
        check(&rt, row, fields(&a.meet(&b)), *meet);
        check(&rt, row, fields(&a.hull(&b)), *hull);
    }
}

/// What is left of a square of 3 by 3 without its middle.
const AROUND: [[i64; 4]; 4] = [[0, 0, 3, 1], [0, 1, 1, 1], [2, 1, 1, 1], [0, 2, 3, 1]];

#[test]
fn parts(rt: HostRuntime) {
    let (square, middle) = (rect(&rt, [0, 0, 3, 3]), rect(&rt, [1, 1, 1, 1]));
    assert!(rt; square.contains(&middle) && !middle.contains(&square));
    let around = square.minus(&middle);
    check(&rt, "parts", around.count, 4);
    check(&rt, "parts", around.parts.map(|part| fields(&part)), AROUND);
}

#[test]
fn moves(rt: HostRuntime) {
    let middle = rect(&rt, [1, 1, 1, 1]);
    let halved = rect(&rt, [-3, 0, 3, 1]).halved();
    check(&rt, "halved", fields(&halved), [-2, 0, 2, 1]);
    let shifted = middle.shift(-5, 2).expect(&rt, "a rectangle");
    check(&rt, "shifted", fields(&shifted), [-4, 3, 1, 1]);
    let refused = middle.shift(i64::MAX, 0).err();
    check(&rt, "refused", refused, Some(RectRefused::Place));
    let grown = middle.grow(2).expect(&rt, "a rectangle");
    check(&rt, "grown", fields(&grown), [-1, -1, 5, 5]);
    let eightfold = middle.scaled(3).expect(&rt, "a rectangle in limits");
    check(&rt, "eightfold", fields(&eightfold), [8, 8, 8, 8]);
}

#[test]
fn tiles_by_rows(rt: HostRuntime) {
    let wide = rect(&rt, [-65, 0, 66, 1]);
    let tiles: Vec<TileAt> = wide.tiles().collect(rt.alloc()).expect(&rt, "memory");
    check(&rt, "tiles", tiles.len(), 3);
    for (tile, tx) in tiles.iter().zip([-2, -1, 0].iter()) {
        check(&rt, tx, (tile.tx, tile.ty), (*tx, 0));
    }
    check(
        &rt,
        "tile",
        fields(&TileAt::of(-65, 0).rect()),
        [-128, 0, 64, 64],
    );
}

/// Words, and whether they are names.
const NAMES: [(&[u8], bool); 8] = [
    (b"a_9", true),
    (b"abcdefghijklmnop", true),
    (b"", false),
    (b"A", false),
    (b"9a", false),
    (b"_a", false),
    (b"a-b", false),
    (b"abcdefghijklmnopq", false),
];

#[test]
fn names(rt: HostRuntime) {
    for (row, (word, is_name)) in NAMES.iter().enumerate() {
        let name = Name::parse(word);
        check(&rt, row, name.is_some(), *is_name);
        if let Some(name) = name {
            check(&rt, row, name.as_bytes(), *word);
        }
    }
}

#[test]
fn texts(rt: HostRuntime) {
    let text = format!(in rt.alloc(); "{}; {}", RectRefused::Place, RectRefused::Size);
    check(
        &rt,
        "text",
        text.expect(&rt, "memory").as_str(),
        "the rectangle begins outside the plane; a side is negative or ends outside the plane",
    );
}
