//! Each call on its happy path, and refusals in their order. Expected values are worked out by hand from the doc
//! comments.

ghost use Rattle.plane_rect.specs.Rectangle.{InLimits};

use crate::tests::check::check;
use buffer_layouts::{BufferLayout, EditRefused};
use pixel_formats::Format;
use plane_rect::{Name, Rect};
use std::alloc::Global;
use std::process::Abort;
use test_nodes::rect;

/// Returns the name that a word is.
fn name(rt: &impl Abort, word: &str) -> Name {
    Name::parse(word.as_bytes()).expect(rt, "a name")
}

/// Creates a buffer, and returns why none is created.
fn create(
    rt: &impl Abort,
    layout: &mut BufferLayout,
    name: Name,
    format: Format,
    extent: Rect,
) -> Option<EditRefused>
    requires { InLimits extent }
{
    layout.reserve().expect(rt, "memory");
    match layout.create_refused(name) {
        Some(refused) => Some(refused),
        None => {
            layout.create(name, format, extent);
            None
        }
    }
}

/// Makes a sub-buffer, and returns why none is made.
fn sub(
    rt: &impl Abort,
    layout: &mut BufferLayout,
    name: Name,
    parent: Name,
    rect: Rect,
) -> Option<EditRefused> {
    layout.reserve().expect(rt, "memory");
    match layout.sub_refused(name, parent) {
        Some(refused) => Some(refused),
        None => {
            layout.sub(name, parent, rect);
            None
        }
    }
}

/// Duplicates a buffer, and returns why none is duplicated.
fn duplicate(
    rt: &impl Abort,
    layout: &mut BufferLayout,
    name: Name,
    from: Name,
) -> Option<EditRefused> {
    layout.reserve().expect(rt, "memory");
    match layout.duplicate_source(name, from) {
        Ok(_) => {
            layout.duplicate(name, from);
            None
        }
        Err(refused) => Some(refused),
    }
}

/// The buffers of `add_three`: the name, the number of its root, the root's name, and the extent.
const VIEWS: [(&str, usize, &str, [i64; 4]); 3] = [
    ("a", 0, "a", [0, 0, 10, 8]),
    ("b", 0, "a", [0, 3, 4, 5]),
    ("c", 1, "c", [0, 3, 4, 5]),
];

/// Adds a buffer, a part of it and a duplicate of that.
fn add_three(rt: &impl Abort, layout: &mut BufferLayout) {
    let (a, b, c) = (name(rt, "a"), name(rt, "b"), name(rt, "c"));
    let created = create(rt, layout, a, Format::RGB8, rect([0, 0, 10, 8]));
    check(rt, "a", created, None);
    check(rt, "b", sub(rt, layout, b, a, rect([-2, 3, 6, 20])), None);
    check(rt, "c", duplicate(rt, layout, c, b), None);
}

/// Checks the fact and the view of a buffer of this row.
fn check_view(rt: &impl Abort, layout: &BufferLayout, row: &(&str, usize, &str, [i64; 4])) {
    let (word, number, root, extent) = row;
    let extent = rect(*extent);
    let fact = layout.fact(name(rt, word)).expect(rt, "a fact");
    assert!(rt;
        fact.root == name(rt, root) && fact.bounds == extent && fact.format == Format::RGB8,
        "{fact:?}"
    );
    let view = layout.view(name(rt, word)).expect(rt, "a view");
    assert!(rt; view.root == *number && view.extent == extent, "{view:?}");
    assert!(rt;
        view.bounds == rect([0, 0, 10, 8]) && view.format == Format::RGB8,
        "{view:?}"
    );
}

/// Checks how many buffers and roots there are.
fn check_counts(rt: &impl Abort, layout: &BufferLayout, wanted: (usize, usize)) {
    check(
        rt,
        "counts",
        (layout.facts().len(), layout.roots().len()),
        wanted,
    );
}

#[test]
fn buffers_show_parts_of_roots(rt: HostRuntime) {
    let mut layout = BufferLayout::new(rt.alloc());
    add_three(&rt, &mut layout);
    for row in &VIEWS {
        check_view(&rt, &layout, row);
    }
    let copied = layout.copy().expect(&rt, "memory");
    let d = name(&rt, "d");
    let created = create(&rt, &mut layout, d, Format::Y8, rect([0, 0, 1, 1]));
    check(&rt, "d", created, None);
    check_counts(&rt, &copied, (3, 2));
    check_counts(&rt, &layout, (4, 3));
}

/// Returns the layout of a Y8 buffer `a` of 4 by 4 pixels, and of an RGB16 buffer `b` of 2 by 2.
fn two_buffers(rt: &impl Abort, alloc: Global) -> BufferLayout {
    let mut layout = BufferLayout::new(alloc);
    let _ = create(
        rt,
        &mut layout,
        name(rt, "a"),
        Format::Y8,
        rect([0, 0, 4, 4]),
    );
    let _ = create(
        rt,
        &mut layout,
        name(rt, "b"),
        Format::RGB16,
        rect([0, 0, 2, 2]),
    );
    layout
}

const UNKNOWN: Option<EditRefused> = Some(EditRefused::UnknownBuffer);

const TAKEN: Option<EditRefused> = Some(EditRefused::NameTaken);

const OUTSIDE: Option<EditRefused> = Some(EditRefused::OutOfBounds);

const FORMATS: Option<EditRefused> = Some(EditRefused::Formats);

const SHORT: Option<EditRefused> = Some(EditRefused::WrongSize {
    found: 11,
    wanted: 24,
});

const ROW: [i64; 4] = [0, 0, 4, 1];

const LONG: [i64; 4] = [0, 0, 5, 1];

const SQUARE: [i64; 4] = [0, 0, 2, 2];

#[test]
fn refusals_of_names(rt: HostRuntime) {
    let (a, b, no) = (name(&rt, "a"), name(&rt, "b"), name(&rt, "no"));
    let layout = two_buffers(&rt, rt.alloc());
    check(&rt, "create", layout.create_refused(a), TAKEN);
    check(&rt, "sub", layout.sub_refused(a, no), UNKNOWN);
    check(
        &rt,
        "no duplicate",
        layout.duplicate_source(a, no).err(),
        UNKNOWN,
    );
    check(&rt, "duplicate", layout.duplicate_source(a, b).err(), TAKEN);
}

/// A buffer, a rectangle and the samples that fill it.
const FILLS: [(&str, [i64; 4], &[u32], Option<EditRefused>); 5] = [
    ("no", LONG, &[256], UNKNOWN),
    ("a", LONG, &[256], OUTSIDE),
    ("a", ROW, &[256], FORMATS),
    ("a", ROW, &[255, 0], FORMATS),
    ("a", ROW, &[255], None),
];

#[test]
fn refusals_of_fills(rt: HostRuntime) {
    let layout = two_buffers(&rt, rt.alloc());
    for (row, (word, fields, samples, wanted)) in FILLS.iter().enumerate() {
        let target = layout.fill_target(name(&rt, word), rect(*fields), samples);
        check(&rt, row, target.err(), *wanted);
    }
}

/// A buffer, a rectangle and the bytes that are put over it.
const PUTS: [(&str, [i64; 4], &[u8], Option<EditRefused>); 4] = [
    ("no", LONG, &[0; 11], UNKNOWN),
    ("b", LONG, &[0; 11], OUTSIDE),
    ("b", SQUARE, &[0; 11], SHORT),
    ("b", SQUARE, &[0; 24], None),
];

#[test]
fn refusals_of_puts(rt: HostRuntime) {
    let layout = two_buffers(&rt, rt.alloc());
    for (row, (word, fields, bytes, wanted)) in PUTS.iter().enumerate() {
        let target = layout.put_target(name(&rt, word), rect(*fields), bytes);
        check(&rt, row, target.err(), *wanted);
    }
}

/// Two buffers, and a rectangle of the first that is copied to the right by so many pixels.
const COPIES: [(&str, &str, [i64; 4], i64, i64, Option<EditRefused>); 5] = [
    ("a", "no", ROW, 0, 0, UNKNOWN),
    ("b", "a", ROW, 0, 0, OUTSIDE),
    ("a", "b", ROW, 0, 0, OUTSIDE),
    ("a", "a", ROW, 1 << 25, 0, OUTSIDE),
    ("a", "b", SQUARE, 0, 0, FORMATS),
];

#[test]
fn refusals_of_copies(rt: HostRuntime) {
    let layout = two_buffers(&rt, rt.alloc());
    for (row, (from, to, fields, dx, dy, wanted)) in COPIES.iter().enumerate() {
        let (from, to) = (name(&rt, from), name(&rt, to));
        let parts = layout.copy_parts(from, to, rect(*fields), *dx, *dy);
        check(&rt, row, parts.err(), *wanted);
    }
    let a = name(&rt, "a");
    let parts = layout.copy_parts(a, a, rect(SQUARE), 2, 1);
    check(
        &rt,
        "moved",
        parts.expect(&rt, "parts").moved,
        rect([2, 1, 2, 2]),
    );
}

/// Creates a buffer for each of 64 names.
fn create_64(rt: &impl Abort, layout: &mut BufferLayout) {
    for first in b"abcdefgh" {
        for second in b"abcdefgh" {
            let word = Name::parse(&[*first, *second]).expect(rt, "a name");
            let created = create(rt, layout, word, Format::Y8, rect([0, 0, 1, 1]));
            check(rt, (*first, *second), created, None);
        }
    }
}

#[test]
fn there_are_64_buffers_at_most(rt: HostRuntime) {
    let (a, no) = (name(&rt, "aa"), name(&rt, "no"));
    let mut layout = BufferLayout::new(rt.alloc());
    create_64(&rt, &mut layout);
    let full = Some(EditRefused::TooManyBuffers);
    check(&rt, "buffers", layout.facts().len(), 64);
    check(&rt, "create", layout.create_refused(no), full);
    check(&rt, "taken", layout.create_refused(a), TAKEN);
    check(&rt, "unknown", layout.sub_refused(no, no), UNKNOWN);
    check(&rt, "sub", layout.sub_refused(no, a), full);
}
