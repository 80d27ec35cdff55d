//! How many pairs renders look up, and how many of these they find, by the plain program.

ghost use Rattle.std.specs.Prelude.{length};
ghost use Rattle.plain_graphs.specs.Needs.{AreStripsBelow};

use crate::values::{Fields, check_row, name, nodes_of};
use plain_graphs::{Change, Graph, Lookups, Strip, need, needed_pairs};
use plane_rect::{Name, Rect};
use std::alloc::Global;
use std::process::Abort;
use test_nodes::rect;

/// The capacity of the list of cached pairs.
const CAPACITY: usize = 16_384;

/// How many pairs were looked up that were not cached, and how many that were.
type Counts = (u64, u64);

/// A rectangle of the root `a` that is written before a render, if one is, a rectangle of the node, and the counts after its
/// render.
type Render = (Option<Fields>, Fields, Counts);

/// Returns the graph of the buffers and the nodes of a script.
fn graph_of(rt: &impl Abort, alloc: Global, script: &str) -> Graph {
    let (buffers, nodes) = nodes_of(rt, alloc, script);
    Graph::new(alloc, buffers, nodes).expect(rt, "memory")
}

/// Returns a list without cached pairs, of which nothing is counted.
fn nothing_cached(alloc: Global) -> Lookups {
    Lookups {
        pairs: Vec::new(alloc),
        applied: 0,
        reused: 0,
    }
}

/// Returns the strips of a request for a node.
fn strips_of(
    rt: &impl Abort,
    alloc: Global,
    graph: &Graph,
    word: &str,
    request: Fields,
) -> Vec<Strip>
    ensures { AreStripsBelow (length graph.now.nodes) result.items }
{
    let wanted = name(rt, word);
    assert!(rt; graph.nodes.len() <= 256);
    let position = graph.nodes.iter().position(|fact| fact.spec.name == wanted);
    let position = position.expect(rt, "a node");
    need(alloc, &graph.nodes, position as u32, rect(request)).expect(rt, "memory")
}

/// Checks how many pairs each strip of a request for a node needs.
fn check_strips(
    rt: &impl Abort,
    alloc: Global,
    graph: &Graph,
    word: &str,
    request: Fields,
    wanted: &[usize],
) {
    let strips = strips_of(rt, alloc, graph, word, request);
    let mut counts = Vec::new(alloc);
    for strip in &strips {
        counts
            .push(strip.need.as_slice().len())
            .expect(rt, "memory");
    }
    check_row(rt, 0, &counts.as_slice(), &wanted);
}

/// Looks up what a request for a node needs.
fn render(
    rt: &impl Abort,
    alloc: Global,
    graph: &Graph,
    word: &str,
    request: Fields,
    lookups: &mut Lookups,
) {
    let strips = strips_of(rt, alloc, graph, word, request);
    let pairs = needed_pairs(alloc, &graph.nodes, &strips).expect(rt, "memory");
    let most = 1 << 62;
    let few = (pairs.len() as u64) < most;
    assert!(rt; lookups.applied < most && lookups.reused < most && few);
    let looked_up = lookups.look_up_all(alloc, CAPACITY, &pairs);
    looked_up.expect(rt, "memory");
}

/// Takes away what a step from a graph to another damages, where rectangles of roots were written.
fn step(
    rt: &impl Abort,
    alloc: Global,
    old: &Graph,
    new: &Graph,
    written: &[(Name, Rect)],
    lookups: &mut Lookups,
) {
    let change = Change::between(old, new, written);
    let pairs = change.without_damaged(alloc, &lookups.pairs);
    lookups.pairs = pairs.expect(rt, "memory");
}

/// Checks the counts of what was looked up after a row.
fn check_counts(rt: &impl Abort, row: usize, lookups: &Lookups, counts: Counts) {
    check_row(rt, row, &(lookups.applied, lookups.reused), &counts);
}

/// The mean over a square around each pixel of a buffer of 128 by 128 pixels.
const SQUARE: &str = "buffer a Y8 0 0 128 128\nnode s source a\nnode b box 1 NONE s\n";

const ALL: Fields = [0, 0, 128, 128];

/// A photograph, cropped, made brighter and softer, under a caption, and what is shown of it.
const CAPTIONED: &str = "buffer photo RGB8 0 0 1024 768\n\
    buffer caption YA8 40 680 400 60\n\
    node p source photo\n\
    node c crop 16 16 992 736 p\n\
    node g gain 5 4 c\n\
    node b box 5 CLAMP g\n\
    node a convert RGBA8 b\n\
    node t source caption\n\
    node u convert RGBA8 t\n\
    node o over u a\n";

const SHOWN: Fields = [16, 16, 992, 736];

/// One pixel, and means around it whose box grows and doesn't.
const GROWN: &str =
    "buffer a Y8 0 0 1 1\nnode s source a\nnode b box 1 NONE s\nnode c box 1 CLAMP s\n";

/// A source and a checkerboard added, softened, thinned and inverted, which is the graph of a made job.
const MADE: &str = "buffer a RGB8 0 0 512 384\n\
    node s source a\n\
    node k checker RGB8 -32 -32 576 448 32 0 64\n\
    node d add s k\n\
    node b box 3 CLAMP d\n\
    node e erode 1 NONE b\n\
    node i invert e\n";

const MADE_SHOWN: Fields = [0, 0, 512, 384];

/// A script, a node, and renders of it.
type Example = (&'static str, &'static str, &'static [Render]);

/// Renders after an edit and its undo; after an edit of other tiles; of a photograph under a caption; of a made job.
const RENDERS: [Example; 4] = [
    (
        SQUARE,
        "b",
        &[
            (None, ALL, (4, 0)),
            (None, ALL, (4, 4)),
            (Some([0, 0, 1, 1]), ALL, (5, 7)),
            (Some([0, 0, 1, 1]), ALL, (6, 10)),
        ],
    ),
    (
        SQUARE,
        "b",
        &[
            (None, ALL, (4, 0)),
            (None, ALL, (4, 4)),
            (Some([64, 64, 1, 1]), ALL, (8, 4)),
        ],
    ),
    (
        CAPTIONED,
        "o",
        &[(None, SHOWN, (974, 704)), (None, SHOWN, (974, 2382))],
    ),
    (MADE, "i", &[(None, MADE_SHOWN, (336, 500))]),
];

#[test]
fn renders_after_edits(rt: HostRuntime) {
    let alloc = rt.alloc();
    let a = name(&rt, "a");
    for (script, node, renders) in &RENDERS {
        let graph = graph_of(&rt, alloc, script);
        let mut lookups = nothing_cached(alloc);
        for (row, (written, request, counts)) in renders.iter().enumerate() {
            if let Some(fields) = written {
                step(
                    &rt,
                    alloc,
                    &graph,
                    &graph,
                    &[(a, rect(*fields))],
                    &mut lookups,
                );
            }
            render(&rt, alloc, &graph, node, *request, &mut lookups);
            check_counts(&rt, row, &lookups, *counts);
        }
    }
}

/// Scripts, nodes and requests, with the number of pairs that each strip needs.
const STRIPS: [(&str, &str, Fields, &[usize]); 3] = [
    (
        CAPTIONED,
        "o",
        SHOWN,
        &[112, 144, 144, 144, 144, 144, 144, 144, 144, 144, 151, 119],
    ),
    (
        "node c checker Y8 0 0 4160 64 8 0 255\n",
        "c",
        [0, 0, 4160, 64],
        &[65],
    ),
    (MADE, "i", MADE_SHOWN, &[126, 146, 146, 146, 146, 126]),
];

#[test]
fn strips_need_pairs(rt: HostRuntime) {
    for (script, node, request, counts) in &STRIPS {
        let graph = graph_of(&rt, rt.alloc(), script);
        check_strips(&rt, rt.alloc(), &graph, node, *request, counts);
    }
}

/// Means of the first columns of a row.
const WIDE: &str =
    "buffer a Y8 0 0 200 1\nnode s source a\nnode c crop 0 0 200 1 s\nnode b box 1 CLAMP c\n";

const NARROW: &str =
    "buffer a Y8 0 0 200 1\nnode s source a\nnode c crop 0 0 100 1 s\nnode b box 1 CLAMP c\n";

#[test]
fn boxes_that_change_and_grow(rt: HostRuntime) {
    let alloc = rt.alloc();
    let (wide, narrow) = (graph_of(&rt, alloc, WIDE), graph_of(&rt, alloc, NARROW));
    let mut lookups = nothing_cached(alloc);
    render(&rt, alloc, &wide, "b", [0, 0, 200, 1], &mut lookups);
    check_counts(&rt, 0, &lookups, (8, 0));
    step(&rt, alloc, &wide, &narrow, &[], &mut lookups);
    render(&rt, alloc, &narrow, "b", [0, 0, 200, 1], &mut lookups);
    check_counts(&rt, 1, &lookups, (12, 0));
    let grown = graph_of(&rt, alloc, GROWN);
    let mut lookups = nothing_cached(alloc);
    render(&rt, alloc, &grown, "b", [-1, -1, 3, 3], &mut lookups);
    render(&rt, alloc, &grown, "c", [0, 0, 1, 1], &mut lookups);
    check_counts(&rt, 2, &lookups, (5, 0));
}

/// Returns a number from 0 to 255, and moves the state on.
fn random(state: &mut u32) -> i64 {
    *state = state.wrapping_mul(1_664_525).wrapping_add(1_013_904_223);
    i64::from(*state / (1 << 24))
}

/// Returns the rectangles of the job's fills: seven random numbers each, of which the first four are its position and its
/// sides.
fn filled(rt: &impl Abort, alloc: Global) -> Vec<Rect> {
    let mut state = 0;
    let mut rects = Vec::new(alloc);
    for _ in 0..24 {
        let (x, y) = (random(&mut state), random(&mut state));
        let (w, h) = (1 + random(&mut state) % 32, 1 + random(&mut state) % 32);
        for _ in 0..3 {
            random(&mut state);
        }
        rects.push(rect([x, y, w, h])).expect(rt, "memory");
    }
    rects
}

/// The nodes of the made job, and how many of their tiles are cached after its first render.
const CACHED: [(&str, usize); 5] = [("i", 48), ("e", 48), ("b", 80), ("d", 80), ("k", 80)];

#[test]
fn first_render_of_the_made_job(rt: HostRuntime) {
    let graph = graph_of(&rt, rt.alloc(), MADE);
    let mut lookups = nothing_cached(rt.alloc());
    render(&rt, rt.alloc(), &graph, "i", MADE_SHOWN, &mut lookups);
    for (row, (word, count)) in CACHED.iter().enumerate() {
        let wanted = name(&rt, word);
        let found = lookups.pairs.iter().filter(|pair| pair.node == wanted);
        check_row(&rt, row, &found.count(), count);
    }
}

#[test]
fn all_renders_of_the_made_job(rt: HostRuntime) {
    let alloc = rt.alloc();
    let graph = graph_of(&rt, alloc, MADE);
    let mut fills = filled(&rt, alloc);
    let known = [rect([60, 71, 18, 11]), rect([163, 129, 21, 12])];
    check_row(&rt, 0, &fills.get(..2), &Some(known.as_slice()));
    for back in [23, 22, 22] {
        let fill = fills.get(back).copied().expect(&rt, "a fill");
        fills.push(fill).expect(&rt, "memory");
    }
    let a = name(&rt, "a");
    let mut lookups = nothing_cached(alloc);
    render(&rt, alloc, &graph, "i", MADE_SHOWN, &mut lookups);
    for fill in &fills {
        step(&rt, alloc, &graph, &graph, &[(a, *fill)], &mut lookups);
        render(&rt, alloc, &graph, "i", MADE_SHOWN, &mut lookups);
    }
    assert!(rt; lookups.applied < 23_408 && lookups.reused < 23_408);
    check_row(&rt, 1, &(lookups.applied + lookups.reused), &23_408);
}
