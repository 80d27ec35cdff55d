//! Small images, their levels, policies and operations, with results that were worked out by hand.

use crate::values::{Fields, check_row, name};
use model_operations::IntOp;
use pixel_formats::Abyss;
use pixel_formats::Format::{self, RGB8, RGBA8, Y8, Y16, YA8, YA16};
use plain_images::{
    Buffer, Picture, Samples, Step, evaluate, from_raw, level, raw_with, result_of,
};
use std::alloc::{AllocError, Global};
use std::process::Abort;
use test_nodes::{operation, rect};

/// An image: its rectangle, its format and its raw bytes.
type Image<'a> = (Fields, Format, &'a [u8]);

/// An operation, images, and the image that it gives of them.
type Change = (&'static str, &'static [Image<'static>], Image<'static>);

/// Where one pixel is.
const DOT: Fields = [0, 0, 1, 1];

/// Where two pixels are.
const PAIR: Fields = [0, 0, 2, 1];

/// Where three pixels are.
const ROW: Fields = [0, 0, 3, 1];

/// Returns the image of these raw bytes.
fn picture(rt: &impl Abort, alloc: Global, (fields, format, bytes): Image) -> Picture {
    let rect = rect(fields);
    assert!(rt; bytes.len() == rect.area() as usize * format.pixel_bytes() as usize);
    from_raw(alloc, rect, format, bytes).expect(rt, "memory")
}

/// Checks the raw bytes of a rectangle of a row's image under a policy.
fn check_part(
    rt: &impl Abort,
    alloc: Global,
    row: usize,
    picture: &Picture,
    (fields, policy): (Fields, Abyss),
    bytes: &[u8],
) {
    let raw = raw_with(alloc, picture, policy, &rect(fields)).expect(rt, "memory");
    check_row(rt, row, &raw.as_slice(), &bytes);
}

/// Checks the rectangle, the format and the raw bytes of a row's image.
fn check(
    rt: &impl Abort,
    alloc: Global,
    row: usize,
    picture: &Picture,
    (fields, format, bytes): Image,
) {
    assert!(rt; picture.rect() == rect(fields) && picture.format() == format);
    check_part(rt, alloc, row, picture, (fields, Abyss::None), bytes);
}

/// Returns these images.
fn pictures(rt: &impl Abort, alloc: Global, images: &[Image]) -> Vec<Picture> {
    let mut pictures = Vec::new(alloc);
    for image in images {
        let picture = picture(rt, alloc, *image);
        pictures
            .push(picture)
            .map_err(AllocError::from)
            .expect(rt, "memory");
    }
    pictures
}

/// Checks the images that operations give.
fn check_changes(rt: &impl Abort, alloc: Global, changes: &[Change]) {
    for (row, (words, images, wanted)) in changes.iter().enumerate() {
        let op = operation(alloc, words).expect(rt, "an operation");
        let inputs = pictures(rt, alloc, images);
        let given = result_of(alloc, &op, &inputs).expect(rt, "memory");
        check(rt, alloc, row, &given.expect(rt, "an image"), *wanted);
    }
}

/// Policies, with what they show around two gray pixels and of no image.
const POLICIES: [(Abyss, [u8; 4], u8); 5] = [
    (Abyss::None, [0, 10, 20, 0], 0),
    (Abyss::Clamp, [10, 10, 20, 20], 0),
    (Abyss::Loop, [20, 10, 20, 10], 0),
    (Abyss::Black, [0, 10, 20, 0], 0),
    (Abyss::White, [255, 10, 20, 255], 255),
];

/// Policies, with what they show beside a pixel with alpha.
const WITH_ALPHA: [(Abyss, [u8; 4]); 3] = [
    (Abyss::Black, [0, 0, 255, 255]),
    (Abyss::White, [255, 255, 255, 255]),
    (Abyss::Clamp, [2, 1, 4, 3]),
];

#[test]
fn policies(rt: HostRuntime) {
    let alloc = rt.alloc();
    let two = picture(&rt, alloc, (PAIR, Y8, &[10, 20]));
    let none = picture(&rt, alloc, ([0, 0, 0, 0], Y8, &[]));
    for (row, (policy, around, nowhere)) in POLICIES.iter().enumerate() {
        check_part(&rt, alloc, row, &two, ([-1, 0, 4, 1], *policy), around);
        check_part(&rt, alloc, row, &none, ([3, 4, 1, 1], *policy), &[*nowhere]);
    }
    let faint = picture(&rt, alloc, (DOT, YA16, &[2, 1, 4, 3]));
    for (row, (policy, beside)) in WITH_ALPHA.iter().enumerate() {
        check_part(&rt, alloc, row, &faint, ([1, 0, 1, 1], *policy), beside);
    }
    assert!(rt; faint.samples() == [258, 772].as_slice());
}

/// Rectangles left of the origin, and the pixels there of a row that begins at -65 with a 2, and has a 1 before its last.
const LEFT: [(Fields, [u8; 3]); 2] = [([-66, 0, 3, 1], [0, 2, 0]), ([-2, 0, 3, 1], [0, 1, 0])];

#[test]
fn positions_left_of_the_origin(rt: HostRuntime) {
    let alloc = rt.alloc();
    let mut bytes = [0; 66];
    bytes[0] = 2;
    bytes[64] = 1;
    let long = picture(&rt, alloc, ([-65, 0, 66, 1], Y8, &bytes));
    for (row, (fields, part)) in LEFT.iter().enumerate() {
        check_part(&rt, alloc, row, &long, (*fields, Abyss::None), part);
    }
}

/// Gray images, and levels of them.
const LEVELS: [(Image<'static>, u32, Image<'static>); 4] = [
    ((ROW, Y8, &[10, 20, 31]), 0, (ROW, Y8, &[10, 20, 31])),
    ((ROW, Y8, &[10, 20, 31]), 1, (PAIR, Y8, &[8, 8])),
    ((ROW, Y8, &[10, 20, 31]), 2, (DOT, Y8, &[4])),
    (
        ([-3, 0, 3, 1], Y8, &[10, 20, 31]),
        1,
        ([-2, 0, 2, 1], Y8, &[3, 13]),
    ),
];

#[test]
fn levels(rt: HostRuntime) {
    let alloc = rt.alloc();
    for (row, (image, z, wanted)) in LEVELS.iter().enumerate() {
        let reduced = level(alloc, &picture(&rt, alloc, *image), *z).expect(&rt, "memory");
        check(&rt, alloc, row, &reduced, *wanted);
    }
}

/// Three pixels in a column.
const COLUMN: Fields = [0, -1, 1, 3];

/// Operations of one image: changes of samples, conversions, moves, and squares around each pixel.
const OF_ONE: [Change; 17] = [
    (
        "gain 5 4 a",
        &[(PAIR, Y8, &[100, 250])],
        (PAIR, Y8, &[125, 255]),
    ),
    (
        "threshold 100 a",
        &[(PAIR, Y8, &[99, 100])],
        (PAIR, Y8, &[0, 255]),
    ),
    (
        "invert a",
        &[(PAIR, YA8, &[30, 100, 120, 100])],
        (PAIR, YA8, &[70, 100, 0, 100]),
    ),
    (
        "convert Y16 a",
        &[(DOT, Y8, &[128])],
        (DOT, Y16, &[0x80, 0x80]),
    ),
    (
        "convert Y8 a",
        &[(DOT, Y16, &[0x80, 0x80])],
        (DOT, Y8, &[128]),
    ),
    (
        "convert Y8 a",
        &[(DOT, RGB8, &[10, 20, 31])],
        (DOT, Y8, &[20]),
    ),
    (
        "convert RGBA8 a",
        &[(DOT, YA8, &[7, 9])],
        (DOT, RGBA8, &[7, 7, 7, 9]),
    ),
    ("convert Y8 a", &[(DOT, YA8, &[7, 9])], (DOT, Y8, &[7])),
    ("flip h a", &[(ROW, Y8, &[1, 2, 3])], (ROW, Y8, &[3, 2, 1])),
    (
        "flip v a",
        &[(COLUMN, Y8, &[1, 2, 3])],
        (COLUMN, Y8, &[3, 2, 1]),
    ),
    (
        "translate 1 0 a",
        &[(PAIR, Y8, &[7, 8])],
        ([1, 0, 2, 1], Y8, &[7, 8]),
    ),
    (
        "translate -3 -2 a",
        &[(PAIR, Y8, &[7, 8])],
        ([-3, -2, 2, 1], Y8, &[7, 8]),
    ),
    (
        "crop 1 0 5 5 a",
        &[(ROW, Y8, &[1, 2, 3])],
        ([1, 0, 2, 1], Y8, &[2, 3]),
    ),
    (
        "box 1 NONE a",
        &[(DOT, Y8, &[9])],
        ([-1, -1, 3, 3], Y8, &[1; 9]),
    ),
    ("box 1 CLAMP a", &[(DOT, Y8, &[9])], (DOT, Y8, &[9])),
    (
        "dilate 1 CLAMP a",
        &[(ROW, Y8, &[5, 0, 0])],
        (ROW, Y8, &[5, 5, 0]),
    ),
    (
        "erode 1 WHITE a",
        &[(ROW, Y8, &[5, 9, 9])],
        (ROW, Y8, &[5, 5, 9]),
    ),
];

/// A pixel, and one beside its lower right corner.
const APART: [Image<'static>; 2] = [(DOT, Y8, &[200]), ([1, 1, 1, 1], Y8, &[100])];

/// Where checkered pixels are.
const LONG: Fields = [-2, 0, 6, 1];

/// Operations of two images and of none.
const OF_OTHERS: [Change; 6] = [
    (
        "add a b",
        &[(DOT, Y8, &[200]), (DOT, Y8, &[100])],
        (DOT, Y8, &[255]),
    ),
    (
        "mask a b",
        &[(DOT, Y8, &[200]), (DOT, Y8, &[128])],
        (DOT, Y8, &[100]),
    ),
    ("add a b", &APART, ([0, 0, 2, 2], Y8, &[200, 0, 0, 100])),
    ("mask a b", &APART, ([0, 0, 0, 0], Y8, &[])),
    (
        "checker Y8 -2 0 6 1 2 0 9",
        &[],
        (LONG, Y8, &[9, 9, 0, 0, 9, 9]),
    ),
    (
        "checker YA8 0 0 2 1 1 3 7",
        &[],
        (PAIR, YA8, &[3, 255, 7, 255]),
    ),
];

#[test]
fn operations(rt: HostRuntime) {
    check_changes(&rt, rt.alloc(), &OF_ONE);
    check_changes(&rt, rt.alloc(), &OF_OTHERS);
}

/// Operations that don't take so many of a gray and a colored pixel.
const NOT_TAKEN: [(IntOp, usize); 7] = [
    (IntOp::Add, 2),
    (IntOp::Over, 2),
    (IntOp::Mask, 2),
    (IntOp::Invert, 0),
    (IntOp::Invert, 2),
    (IntOp::Threshold { at: 256 }, 1),
    (IntOp::Gain { num: 1, den: 0 }, 1),
];

#[test]
fn inputs_that_are_not_taken(rt: HostRuntime) {
    let alloc = rt.alloc();
    let mixed = pictures(&rt, alloc, &[(DOT, Y8, &[1]), (DOT, RGB8, &[1, 2, 3])]);
    for (op, count) in &NOT_TAKEN {
        let inputs = mixed.get(..*count).expect(&rt, "enough");
        let given = result_of(alloc, op, inputs).expect(&rt, "memory");
        assert!(rt; given.is_none());
    }
}

/// Returns the last image of steps over one gray buffer.
fn last_of(rt: &impl Abort, alloc: Global, buffer: Image, steps: &[Step]) -> Picture {
    let picture = picture(rt, alloc, buffer);
    let buffer = Buffer {
        name: name(rt, "a"),
        picture,
    };
    let images = evaluate(alloc, &[buffer], steps).expect(rt, "memory");
    let mut images = images.expect(rt, "images");
    images.pop().expect(rt, "an image")
}

/// The inverse of four pixels, and what is around its first row.
const INVERSE: (Image<'static>, &[u8]) = (
    ([0, 0, 2, 2], Y8, &[0xFF, 0xBF, 0x7F, 0x00]),
    &[0x00, 0xFF, 0xBF, 0x00],
);

#[test]
fn inverse_of_a_source(rt: HostRuntime) {
    let alloc = rt.alloc();
    let first = vec![in alloc; 0].expect(&rt, "memory");
    let steps = [
        Step::FromBuffer(name(&rt, "a")),
        Step::Apply(IntOp::Invert, first),
    ];
    let source = ([0, 0, 2, 2], Y8, [0x00, 0x40, 0x80, 0xFF].as_slice());
    let inverse = last_of(&rt, alloc, source, &steps);
    check(&rt, alloc, 0, &inverse, INVERSE.0);
    check_part(
        &rt,
        alloc,
        1,
        &inverse,
        ([-1, 0, 4, 1], Abyss::None),
        INVERSE.1,
    );
}

/// Returns the step of one color over one pixel.
fn color_of(rt: &impl Abort, alloc: Global, words: &str) -> Step {
    Step::Apply(
        operation(alloc, words).expect(rt, "a color"),
        Vec::new(alloc),
    )
}

#[test]
fn one_color_over_another(rt: HostRuntime) {
    let alloc = rt.alloc();
    let both = vec![in alloc; 0, 1].expect(&rt, "memory");
    let steps = [
        color_of(&rt, alloc, "color RGBA8 0 0 1 1 100 0 0 128"),
        color_of(&rt, alloc, "color RGBA8 0 0 1 1 0 200 0 255"),
        Step::Apply(IntOp::Over, both),
    ];
    let over = last_of(&rt, alloc, (DOT, Y8, &[0]), &steps);
    check(&rt, alloc, 0, &over, (DOT, RGBA8, &[100, 100, 0, 255]));
}
