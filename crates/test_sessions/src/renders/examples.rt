//! Worked examples. Bytes and counts were worked out by hand, but where the plain program says what they are.

use crate::renders::steps::Bytes::{All, Count, From, Length, Of, Plain, Random};
use crate::renders::steps::Step::{self, Asks, Lists, Writes};
use crate::renders::steps::Wanted::{Again, Listed, Refused, Shown};
use crate::values::Fields;
use pixel_formats::Format;
use render_workers::RenderRefused;

/// The samples that a buffer is given.
#[derive(Clone, Copy)]
pub enum Samples {
    /// None, so that they are zero.
    Zeros,
    /// One gray everywhere.
    Gray(u32),
    /// These raw bytes.
    Bytes(&'static [u8]),
    /// Raw bytes that look random, from this first number on.
    Random(u32),
}

/// A buffer: its name, its format, its box and its samples.
pub type Given = (&'static str, Format, Fields, Samples);

/// Nodes over buffers of a chain, and steps on them.
#[derive(Clone, Copy)]
pub struct Example {
    /// The blocks of the disk and of a chain over it, and how many tiles the chain has in memory.
    pub chain: (u32, u32, u32),
    pub given: &'static [Given],
    /// The nodes, as a script.
    pub nodes: &'static str,
    /// How many pairs the cache keeps.
    pub cached: u32,
    /// How many tiles a strip may need.
    pub capacity: u32,
    /// Whether the plain program is asked for the images of the nodes.
    pub is_plain: bool,
    pub steps: &'static [Step],
    /// What follows: its nodes are committed over the same buffers, which leaves no cached tile.
    pub then: Option<&'static Example>,
}

/// What an example has where it says nothing else.
pub const USUAL: Example = Example {
    chain: (256, 256, 1),
    given: &[],
    nodes: "",
    cached: 100,
    capacity: 200,
    is_plain: false,
    steps: &[],
    then: None,
};

/// Four pixels are inverted: all of them, none, and across the edges, outside of which is zero. The buffer itself has no
/// cached tile.
pub const FOUR: Example = Example {
    chain: (64, 64, 1),
    given: &[(
        "a",
        Format::Y8,
        [0, 0, 2, 2],
        Samples::Bytes(&[0x00, 0x40, 0x80, 0xff]),
    )],
    nodes: "node s source a\nnode i invert s\n",
    cached: 16,
    steps: &[
        Asks(
            ("i", 0, [0, 0, 2, 2]),
            Shown((1, 0), &[All(&[0xff, 0xbf, 0x7f, 0x00])]),
        ),
        Asks(("i", 0, [0, 0, 0, 0]), Shown((0, 0), &[All(&[])])),
        Asks(
            ("i", 0, [-1, 0, 4, 1]),
            Shown((0, 1), &[All(&[0x00, 0xff, 0xbf, 0x00])]),
        ),
        Asks(
            ("s", 0, [-1, 0, 4, 1]),
            Shown((0, 0), &[All(&[0x00, 0x00, 0x40, 0x00])]),
        ),
    ],
    ..USUAL
};

/// The mean around one pixel, whose box grows into four tiles where it is black around, and doesn't where the pixel is
/// repeated.
pub const GROWN: Example = Example {
    chain: (64, 64, 1),
    given: &[("a", Format::Y8, [0, 0, 1, 1], Samples::Gray(9))],
    nodes: "node s source a\nnode b box 1 NONE s\nnode c box 1 CLAMP s\n",
    cached: 16,
    steps: &[
        Asks(
            ("b", 0, [-1, -1, 3, 3]),
            Shown((4, 0), &[All(&[1, 1, 1, 1, 1, 1, 1, 1, 1])]),
        ),
        Asks(("c", 0, [0, 0, 1, 1]), Shown((1, 0), &[All(&[9])])),
    ],
    ..USUAL
};

/// A color is composited over an opaque one, over no buffer.
pub const COLORS: Example = Example {
    chain: (64, 64, 1),
    nodes: "node t color RGBA8 0 0 1 1 100 0 0 128\n\
        node u color RGBA8 0 0 1 1 0 200 0 255\n\
        node o over t u\n",
    cached: 16,
    steps: &[Asks(
        ("o", 0, [0, 0, 1, 1]),
        Shown((3, 0), &[All(&[0x64, 0x64, 0x00, 0xff])]),
    )],
    ..USUAL
};

/// The mean around each of 128 by 128 pixels.
const MEAN: Example = Example {
    given: &[("a", Format::Y8, SQUARE, Samples::Gray(100))],
    nodes: "node s source a\nnode b box 1 NONE s\n",
    ..USUAL
};

const SQUARE: Fields = [0, 0, 128, 128];

/// The mean is rendered, and again.
const MADE: Step = Asks(
    ("b", 0, SQUARE),
    Shown((4, 0), &[From(0, &[44, 67]), From(129, &[100])]),
);

const FOUND: Step = Asks(("b", 0, SQUARE), Shown((0, 4), &[Of(0)]));

/// It is rendered again after one pixel was written and committed: the tiles that meet its damage are evaluated again, and
/// no others. Here the pixel is in the corner.
pub const CORNER: Example = Example {
    steps: &[
        MADE,
        FOUND,
        Writes([0, 0, 1, 1], 200),
        Asks(
            ("b", 0, SQUARE),
            Shown((1, 3), &[From(0, &[56, 78]), From(128, &[78, 111])]),
        ),
    ],
    ..MEAN
};

/// Here it is where four tiles meet.
pub const MIDDLE: Example = Example {
    steps: &[
        MADE,
        FOUND,
        Writes([64, 64, 1, 1], 200),
        Asks(
            ("b", 0, SQUARE),
            Shown((4, 0), &[From(0, &[44, 67]), From(8_255, &[111, 111, 111])]),
        ),
    ],
    ..MEAN
};

/// The mean along a row.
pub const ROW: Example = Example {
    given: &[("a", Format::Y8, [0, 0, 200, 1], Samples::Gray(50))],
    nodes: "node s source a\nnode c crop 0 0 200 1 s\nnode b box 1 CLAMP c\n",
    steps: &[Asks(("b", 0, [0, 0, 200, 1]), Shown((8, 0), &[All(&[50; 200])]))],
    then: Some(&CROPPED),
    ..USUAL
};

/// The row is cropped: the box changes, so that no tile of it stays.
const CROPPED: Example = Example {
    nodes: "node c crop 0 0 100 1 s\n",
    steps: &[Asks(
        ("b", 0, [0, 0, 200, 1]),
        Shown(
            (4, 0),
            &[From(0, &[50; 100]), From(100, &[0; 100]), Length(200)],
        ),
    )],
    ..USUAL
};

/// Nodes that aren't there, and rectangles that are too wide at level 0, of sources too.
pub const REFUSED: Example = Example {
    given: &[("a", Format::Y8, [0, 0, 2, 2], Samples::Zeros)],
    nodes: "node s source a\nnode i invert s\n",
    cached: 16,
    steps: &[
        Asks(
            ("k", 8, [0, 0, 129, 1]),
            Refused(RenderRefused::UnknownNode),
        ),
        Asks(("a", 0, [0, 0, 1, 1]), Refused(RenderRefused::UnknownNode)),
        Asks(("i", 8, [0, 0, 129, 1]), Refused(RenderRefused::Rect)),
        Asks(("s", 8, [0, 0, 129, 1]), Refused(RenderRefused::Rect)),
        Asks(("i", 8, [65_537, 0, 1, 1]), Refused(RenderRefused::Rect)),
        Asks(("i", 8, [65_535, 0, 1, 1]), Shown((0, 0), &[All(&[0])])),
        Asks(("i", 8, [0, 0, 0, 0]), Shown((0, 0), &[All(&[])])),
    ],
    ..USUAL
};

/// A row of 65 tiles.
const WIDE: Fields = [0, 0, 4160, 64];

const CHECKERED: &str = "node c checker Y8 0 0 4160 64 8 0 255\n";

/// The row of a checkerboard, where 64 tiles may be needed.
pub const TOO_WIDE: Example = Example {
    given: &[("a", Format::Y8, [0, 0, 1, 1], Samples::Zeros)],
    nodes: CHECKERED,
    cached: 65,
    capacity: 64,
    steps: &[Asks(
        ("c", 0, WIDE),
        Refused(RenderRefused::Strip {
            needed: 65,
            capacity: 64,
        }),
    )],
    then: Some(&WIDEST),
    ..USUAL
};

/// The same where 65 may be.
const WIDEST: Example = Example {
    nodes: CHECKERED,
    cached: 65,
    capacity: 65,
    steps: &[Asks(
        ("c", 0, WIDE),
        Shown(
            (65, 0),
            &[
                Length(266_240),
                From(4_150, &[0, 0, 255, 255]),
                Count(255, 133_120),
            ],
        ),
    )],
    ..USUAL
};

/// A mean and its inverse over a cache of 8 pairs, which is what the widest strip needs.
pub const LISTS: Example = Example {
    chain: (64, 64, 1),
    given: &[("a", Format::Y8, [0, 0, 200, 150], Samples::Zeros)],
    nodes: "node s source a\nnode b box 1 CLAMP s\nnode i invert b\n",
    cached: 8,
    capacity: 8,
    steps: &[
        Asks(("i", 0, [0, 0, 70, 10]), Listed),
        Asks(("b", 0, [60, 60, 10, 10]), Listed),
        Asks(("i", 0, [0, 0, 200, 64]), Listed),
        Asks(("i", 0, [0, 0, 200, 64]), Listed),
        Asks(("i", 0, [130, 60, 3, 90]), Listed),
        Asks(("b", 0, [-9, -9, 300, 300]), Listed),
        Asks(("i", 0, [199, 149, 9, 9]), Listed),
        Lists(24, 8),
    ],
    ..USUAL
};

/// A small photograph is cropped, made brighter and softer, under a caption, and rendered, the second time at level 2. Its
/// two strips need 14 and 15 tiles, of which 8 are the same.
pub const PHOTOGRAPH: Example = Example {
    chain: (4_096, 4_096, 40),
    given: &[
        ("photo", Format::RGB8, [0, 0, 128, 96], Samples::Random(1)),
        ("caption", Format::YA8, [5, 80, 50, 10], Samples::Random(2)),
    ],
    nodes: "node p source photo\n\
        node c crop 4 4 120 88 p\n\
        node g gain 5 4 c\n\
        node b box 5 CLAMP g\n\
        node a convert RGBA8 b\n\
        node t source caption\n\
        node u convert RGBA8 t\n\
        node o over u a\n",
    cached: 16_384,
    is_plain: true,
    steps: &[
        Asks(("o", 0, [4, 4, 120, 88]), Shown((21, 8), &[Plain])),
        Asks(("o", 2, [1, 1, 30, 22]), Shown((0, 29), &[Plain])),
    ],
    ..USUAL
};

/// A photograph of usual size, with all tiles in memory: each of the nodes' tiles is evaluated once, though the windows of
/// twelve strips overlap.
pub const USUAL_PHOTOGRAPH: Example = Example {
    chain: (1, 40_960, 4_096),
    given: &[
        ("photo", Format::RGB8, [0, 0, 1024, 768], Samples::Random(1)),
        (
            "caption",
            Format::YA8,
            [40, 680, 400, 60],
            Samples::Random(2),
        ),
    ],
    nodes: "node p source photo\n\
        node c crop 16 16 992 736 p\n\
        node g gain 5 4 c\n\
        node b box 5 CLAMP g\n\
        node a convert RGBA8 b\n\
        node t source caption\n\
        node u convert RGBA8 t\n\
        node o over u a\n",
    is_plain: false,
    steps: &[
        Asks(
            ("o", 0, [16, 16, 992, 736]),
            Shown((974, 704), &[Length(2_920_448)]),
        ),
        Asks(
            ("o", 2, [4, 4, 248, 184]),
            Shown((0, 1_678), &[Length(182_528)]),
        ),
    ],
    ..PHOTOGRAPH
};

/// The box of a buffer of two tiles.
const PAIR: Fields = [0, 0, 128, 64];

/// A buffer is inverted twice, and shown so.
pub const INVERTED_TWICE: Example = Example {
    chain: (64, 64, 1),
    given: &[("a", Format::Y8, PAIR, Samples::Random(4))],
    nodes: "node s source a\nnode i invert s\nnode j invert i\n",
    cached: 4,
    steps: &[
        Asks(("j", 0, PAIR), Again(&[Random(4, 128 * 64)])),
        Asks(("j", 0, PAIR), Again(&[Random(4, 128 * 64)])),
    ],
    ..USUAL
};

/// The box of a buffer that no level of it divides evenly.
const ODD: Fields = [-75, -3, 142, 71];

/// The maximum around each pixel, whose levels are compared with those of the plain program.
pub const DILATED: Example = Example {
    chain: (256, 256, 3),
    given: &[("a", Format::RGB8, ODD, Samples::Random(1))],
    nodes: "node s source a\nnode d dilate 2 NONE s\n",
    is_plain: true,
    ..USUAL
};
