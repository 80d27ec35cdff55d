//! Plans of small graphs. The expected needs were worked out by hand.

use crate::values::{Fields, check_row};
use graph_commits::Graph;
use int_ops::{IntKit, IntOp};
use model_states::Strip;
use op_contracts::OpKit;
use plane_rect::{Rect, TileAt, strip_rects};
use roi_planner::{PlanRefused, StripList, plan, strip_need};
use std::alloc::Global;
use std::process::Abort;
use test_nodes::{rect, sketched};

/// A needed tile: the position of its node, and the x and y of one of its pixels.
type Needed = (u32, i64, i64);

/// A node's position and a request of it, and the strips of its plan with the tiles that they need in their order.
type Example = ((u32, Fields), &'static [(Fields, &'static [Needed])]);

/// Returns the graph that the lines of a script make.
fn graph_of(rt: &impl Abort, alloc: Global, script: &str) -> Graph<IntOp> {
    let sketch = sketched(alloc, script).expect(rt, "buffers and nodes");
    let mut graph = Graph::new(alloc);
    assert!(rt; graph.has_all_buffers_in(&sketch.buffers));
    let damage = graph.commit(&IntKit, &sketch.edits, &sketch.buffers, &[]);
    damage.expect(rt, "a commit that is not refused");
    graph
}

/// Plans a request of a graph's node at a position.
///
/// # Errors
///
/// As [`plan`].
fn planned<K: OpKit>(
    rt: &impl Abort,
    kit: &K,
    alloc: Global,
    graph: &Graph<K::Op>,
    (node, rect): (u32, Rect),
    capacity: u32,
) -> Result<StripList, PlanRefused> {
    let nodes = graph.nodes();
    assert!(rt; (node as usize) < nodes.len());
    plan(kit, alloc, nodes, node, rect, capacity)
}

/// Returns what is needed for a rectangle of a graph's node at a position.
fn needed<K: OpKit>(
    rt: &impl Abort,
    kit: &K,
    alloc: Global,
    graph: &Graph<K::Op>,
    (node, rect): (u32, Rect),
) -> Strip {
    let nodes = graph.nodes();
    assert!(rt; (node as usize) < nodes.len());
    strip_need(kit, alloc, nodes, node, rect).expect(rt, "memory")
}

/// Checks that the strip of a row has a rectangle, and needs these tiles in this order.
fn check_strip(
    rt: &impl Abort,
    alloc: Global,
    row: usize,
    strip: &Strip,
    fields: Fields,
    tiles: &[Needed],
) {
    let mut wanted = Vec::new(alloc);
    for (node, x, y) in tiles {
        let pixel = rect([*x, *y, 1, 1]);
        let tile = TileAt::of_position(pixel.first_column(), pixel.first_row());
        wanted.push((*node, tile)).expect(rt, "memory");
    }
    check_row(rt, row, &strip.rect, &rect(fields));
    check_row(rt, row, &strip.need.as_slice(), &wanted.as_slice());
}

/// Checks the strips of the plan of a request.
fn check_plan(rt: &impl Abort, alloc: Global, row: usize, graph: &Graph<IntOp>, example: &Example) {
    let ((node, request), strips) = *example;
    let planned = planned(rt, &IntKit, alloc, graph, (node, rect(request)), 100);
    let list = planned.expect(rt, "a plan");
    check_row(rt, row, &list.as_slice().len(), &strips.len());
    for (index, (fields, tiles)) in strips.iter().enumerate() {
        let strip = list.as_slice().get(index).expect(rt, "a strip");
        check_strip(rt, alloc, row, strip, *fields, tiles);
    }
}

/// The box of one pixel.
const DOT: Fields = [0, 0, 1, 1];

/// The nine positions around one pixel are in four tiles, and in two rows of tiles. The source needs none.
const AROUND: [Example; 2] = [
    (
        (1, [-1, -1, 3, 3]),
        &[
            ([-1, -1, 3, 1], &[(1, -1, -1), (1, 0, -1)]),
            ([-1, 0, 3, 2], &[(1, -1, 0), (1, 0, 0)]),
        ],
    ),
    ((0, DOT), &[(DOT, &[])]),
];

#[test]
fn squares_around_one_pixel(rt: HostRuntime) {
    let alloc = rt.alloc();
    let script = "buffer a Y8 0 0 1 1\nnode s source a\nnode b box 1 NONE s\n";
    let graph = graph_of(&rt, alloc, script);
    for (row, example) in AROUND.iter().enumerate() {
        check_plan(&rt, alloc, row, &graph, example);
    }
    let right = needed(&rt, &IntKit, alloc, &graph, (1, rect([0, 0, 9, 9])));
    check_strip(&rt, alloc, 2, &right, [0, 0, 9, 9], &[(1, 0, 0)]);
}

/// A request of two tiles.
const TWO_TILES: Fields = [0, 0, 128, 64];

/// The tiles that the part of a dilated crop of ten by ten pixels across four tiles needs, and the part of its inverse: the
/// inputs stand before what they are needed for, the tiles of each row by row.
const NEEDED: [Example; 2] = [
    (
        (2, TWO_TILES),
        &[(
            TWO_TILES,
            &[
                (1, 0, 0),
                (1, 64, 0),
                (1, 0, 64),
                (1, 64, 64),
                (2, 0, 0),
                (2, 64, 0),
            ],
        )],
    ),
    (
        (3, TWO_TILES),
        &[(TWO_TILES, &[(1, 0, 0), (1, 64, 0), (3, 0, 0), (3, 64, 0)])],
    ),
];

#[test]
fn operations_over_a_crop(rt: HostRuntime) {
    let script = "buffer a Y8 0 0 200 100\n\
        node s source a\n\
        node c crop 60 60 10 10 s\n\
        node d dilate 1 CLAMP c\n\
        node i invert c\n";
    let graph = graph_of(&rt, rt.alloc(), script);
    for (row, example) in NEEDED.iter().enumerate() {
        check_plan(&rt, rt.alloc(), row, &graph, example);
    }
}

/// A row of 65 tiles.
const ROW: Fields = [0, 0, 4160, 64];

#[test]
fn strip_of_65_tiles(rt: HostRuntime) {
    let alloc = rt.alloc();
    let graph = graph_of(&rt, alloc, "node c checker Y8 0 0 4160 64 8 0 255\n");
    let wanted = PlanRefused::Strip {
        needed: 65,
        capacity: 64,
    };
    let refused = planned(&rt, &IntKit, alloc, &graph, (0, rect(ROW)), 64);
    check_row(&rt, 0, &refused.err(), &Some(wanted));
    let widest = planned(&rt, &IntKit, alloc, &graph, (0, rect(ROW)), 65);
    let list = widest.expect(&rt, "a plan");
    let strip = list.as_slice().first().expect(&rt, "a strip");
    check_row(&rt, 1, &strip.need.as_slice().len(), &65);
    let last = strip.need.as_slice().last().expect(&rt, "a tile");
    check_row(&rt, 2, &last.1, &TileAt::of(4159, 63));
}

/// A request without a position, and one outside the box.
const NOTHING: [Example; 2] = [
    ((0, [0, 0, 0, 0]), &[]),
    ((0, [0, 64, 5, 5]), &[([0, 64, 5, 5], &[])]),
];

#[test]
fn requests_of_nothing(rt: HostRuntime) {
    let alloc = rt.alloc();
    let graph = graph_of(&rt, alloc, "node c checker Y8 0 0 64 64 8 0 255\n");
    for (row, example) in NOTHING.iter().enumerate() {
        check_plan(&rt, alloc, row, &graph, example);
    }
    let rects = strip_rects(alloc, &rect([0, 60, 1, 9])).expect(&rt, "memory");
    assert!(rt; rects.len() == 2);
}
