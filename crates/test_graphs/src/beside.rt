//! Graphs that are edited by commits, beside those of the plain program: nodes, refusals, damages, and what an undo and a redo
//! lead back to.

use crate::briefs::{Brief, Kind, edits_of};
use crate::values::{Fields, check_row, name};
use graph_commits::{Graph, GraphRefused};
use int_ops::{IntKit, IntOp};
use model_graphs::{Body, BufferFact, Edited, NodeEdit, NodeFact, NodeSpec};
use model_states::{Damage, StateRefused};
use op_contracts::OpKit;
use pixel_formats::Format;
use plain_graphs::{Change, Graph as PlainGraph, walk_refused, with_edits};
use plane_rect::{Name, Rect};
use std::alloc::{AllocError, Global};
use std::process::Abort;
use test_nodes::rect;

/// Rectangles of roots that are written before a commit, the commit's edits, and why it is refused where it is.
type Row = (
    &'static [(&'static str, Fields)],
    &'static [Brief],
    Option<StateRefused>,
);

/// A node of the image of each buffer.
const SOURCES: Row = (
    &[],
    &[
        Brief::Source("p", "a"),
        Brief::Source("q", "b"),
        Brief::Source("r", "v"),
    ],
    None,
);

/// A mean of one buffer with alpha over another, and then parts of a view.
const MEANS: [Row; 15] = [
    SOURCES,
    (
        &[("a", [2, 2, 3, 3])],
        &[Brief::Compute("s", Kind::Mean(2), &["p"])],
        None,
    ),
    (
        &[("b", [-6, -6, 5, 5])],
        &[Brief::Compute("t", Kind::WithAlpha, &["s"])],
        None,
    ),
    (
        &[("a", [0, 0, 4, 4]), ("b", [0, 0, 2, 2])],
        &[Brief::Compute("u", Kind::Over, &["t", "q"])],
        None,
    ),
    (
        &[("a", [4, 4, 1, 1])],
        &[Brief::Compute("s", Kind::Crop([1, 1, 5, 5]), &["r"])],
        None,
    ),
    (&[], &[Brief::Remove("w")], Some(StateRefused::UnknownInput)),
    (
        &[("a", [0, 0, 9, 9])],
        &[Brief::Remove("s")],
        Some(StateRefused::InUse),
    ),
    (
        &[],
        &[Brief::Compute("u", Kind::Over, &["t", "p"])],
        Some(StateRefused::Formats),
    ),
    (
        &[],
        &[Brief::Compute("x", Kind::Move(3, 16_777_216), &["p"])],
        Some(StateRefused::Bounds),
    ),
    (
        &[],
        &[Brief::Compute("w", Kind::Add, &["p"])],
        Some(StateRefused::Arity),
    ),
    (
        &[("a", [-9, -9, 12, 12])],
        &[
            Brief::Remove("u"),
            Brief::Remove("t"),
            Brief::Compute("s", Kind::Invert, &["p"]),
        ],
        None,
    ),
    (&[], &[Brief::Compute("x", Kind::Add, &["s", "r"])], None),
    (
        &[],
        &[Brief::Compute("x", Kind::Mirror, &["x"])],
        Some(StateRefused::UnknownInput),
    ),
    (
        &[],
        &[Brief::Source("p", "z")],
        Some(StateRefused::UnknownInput),
    ),
    (&[("a", [3, 2, 1, 1])], &[Brief::Source("p", "v")], None),
];

/// Images that are moved, mirrored and colored, of which some change their boxes and their positions.
const MOVES: [Row; 12] = [
    SOURCES,
    (
        &[],
        &[
            Brief::Compute("s", Kind::Crop([-4, -4, 20, 9]), &["q"]),
            Brief::Compute("t", Kind::Mirror, &["s"]),
        ],
        None,
    ),
    (&[("b", [-4, -4, 1, 1])], &[], None),
    (&[], &[Brief::Compute("x", Kind::Color(7), &[])], None),
    (&[], &[Brief::Compute("u", Kind::Add, &["x", "p"])], None),
    (
        &[("a", [6, 0, 9, 1])],
        &[Brief::Compute("x", Kind::Color(3), &[])],
        None,
    ),
    (
        &[],
        &[
            Brief::Remove("u"),
            Brief::Compute("u", Kind::Mean(1), &["x"]),
        ],
        None,
    ),
    (
        &[],
        &[Brief::Compute("w", Kind::Invert, &["zz"])],
        Some(StateRefused::UnknownInput),
    ),
    (&[], &[Brief::Compute("w", Kind::Over, &["s", "t"])], None),
    (
        &[("b", [-1, -1, 2, 2])],
        &[Brief::Compute("s", Kind::Move(-16, 15), &["q"])],
        None,
    ),
    (&[], &[Brief::Source("q", "a")], Some(StateRefused::Formats)),
    (&[], &[Brief::Remove("q")], Some(StateRefused::InUse)),
];

/// Returns two buffers, and a view on the first.
fn buffers(rt: &impl Abort, alloc: Global) -> Vec<BufferFact> {
    let facts = [
        ("a", "a", [0, 0, 12, 12], Format::Y8),
        ("b", "b", [-4, -4, 9, 7], Format::YA8),
        ("v", "a", [3, 2, 6, 6], Format::Y8),
    ];
    let mut buffers = Vec::new(alloc);
    for (word, root, fields, format) in &facts {
        let buffer = BufferFact {
            name: name(rt, word),
            root: name(rt, root),
            bounds: rect(*fields),
            format: *format,
        };
        buffers
            .push(buffer)
            .map_err(AllocError::from)
            .expect(rt, "memory");
    }
    buffers
}

/// A graph and its kit.
#[derive(Drop)]
struct Engine<K: OpKit> {
    kit: K,
    graph: Graph<K::Op>,
}

impl<K: OpKit> Engine<K> {
    /// Commits edits over buffers that are still there.
    fn commit(
        &mut self,
        rt: &impl Abort,
        edits: &[NodeEdit<K::Op>],
        buffers: &[BufferFact],
        written: &[Edited],
    ) -> Result<Damage, GraphRefused> {
        assert!(rt; self.graph.has_all_buffers_in(buffers));
        self.graph.commit(&self.kit, edits, buffers, written)
    }

    /// Goes back by one state.
    fn undo(&mut self, rt: &impl Abort) -> Damage {
        self.graph.undo().expect(rt, "a state to undo to")
    }

    /// Goes on by one state.
    fn redo(&mut self, rt: &impl Abort) -> Damage {
        self.graph.redo().expect(rt, "a state to redo to")
    }

    /// Returns the nodes.
    fn nodes(&self) -> &[NodeFact<K::Op>] {
        self.graph.nodes()
    }
}

/// Returns equal nodes.
fn copies(rt: &impl Abort, alloc: Global, facts: &[NodeFact<IntOp>]) -> Vec<NodeSpec<IntOp>> {
    let mut nodes = Vec::new(alloc);
    for fact in facts {
        let name = fact.spec.name;
        let body = match &fact.spec.body {
            Body::Source { buffer } => Body::Source { buffer: *buffer },
            Body::Compute { op, inputs } => Body::Compute {
                op: op.clone().expect(rt, "memory"),
                inputs: inputs.clone().expect(rt, "memory"),
            },
        };
        let node = NodeSpec { name, body };
        nodes
            .push(node)
            .map_err(AllocError::from)
            .expect(rt, "memory");
    }
    nodes
}

/// Returns the plain graph after edits, or why they are refused.
fn edited(
    rt: &impl Abort,
    alloc: Global,
    graph: &PlainGraph,
    edits: &[NodeEdit<IntOp>],
    buffers: &[BufferFact],
) -> Result<PlainGraph, StateRefused> {
    let nodes = copies(rt, alloc, &graph.nodes);
    match with_edits(alloc, buffers, nodes, edits).expect(rt, "memory") {
        Err(refused) => Err(refused),
        Ok(nodes) => match walk_refused(alloc, buffers, &nodes).expect(rt, "memory") {
            Some(refused) => Err(refused),
            None => {
                let buffers = buffers.to_vec(alloc).expect(rt, "memory");
                Ok(PlainGraph::new(alloc, buffers, nodes).expect(rt, "memory"))
            }
        },
    }
}

/// Returns the damage of each node of the new graph, and then of those that are gone.
fn plain_damages(
    rt: &impl Abort,
    alloc: Global,
    old: &PlainGraph,
    new: &PlainGraph,
    written: &[(Name, Rect)],
) -> Vec<(Name, Rect)> {
    let rects = Change::between(old, new, written)
        .damages(alloc)
        .expect(rt, "memory");
    let mut damages = Vec::new(alloc);
    for (fact, rect) in new.nodes.iter().zip(&rects) {
        damages.push((fact.spec.name, *rect)).expect(rt, "memory");
    }
    for fact in &old.nodes {
        let name = fact.spec.name;
        if !new.nodes.iter().any(|other| other.spec.name == name) {
            damages.push((name, fact.bounds)).expect(rt, "memory");
        }
    }
    damages
}

/// Returns whether two nodes are one, with its box and format.
fn same_node(a: &NodeFact<IntOp>, b: &NodeFact<IntOp>) -> bool {
    let same_body = match (&a.spec.body, &b.spec.body) {
        (Body::Source { buffer: a }, Body::Source { buffer: b }) => a == b,
        (Body::Compute { op: f, inputs: a }, Body::Compute { op: g, inputs: b }) => {
            f == g && a.as_slice() == b.as_slice()
        }
        _ => false,
    };
    same_body && a.spec.name == b.spec.name && a.bounds == b.bounds && a.format == b.format
}

/// Checks that a step led to the plain program's nodes, and had its damages.
fn check_step(
    rt: &impl Abort,
    row: usize,
    damage: &Damage,
    damages: &[(Name, Rect)],
    nodes: &[NodeFact<IntOp>],
    wanted: &[NodeFact<IntOp>],
) {
    check_row(rt, row, &damage.rects.as_slice(), &damages);
    check_row(rt, row, &nodes.len(), &wanted.len());
    assert!(rt; nodes.iter().zip(wanted).all(|(a, b)| same_node(a, b)));
}

/// Commits edits to a graph and to that of the plain program, and checks that both answer the same: where it is made, also its
/// undo and its redo. Returns the plain graph after it.
fn commit_both(
    rt: &impl Abort,
    alloc: Global,
    engine: &mut Engine<IntKit>,
    plain: PlainGraph,
    buffers: &[BufferFact],
    row: usize,
    (written, briefs, wanted): &Row,
) -> PlainGraph {
    let (mut rects, mut roots) = (Vec::new(alloc), Vec::new(alloc));
    for (word, fields) in *written {
        let (root, rect) = (name(rt, word), rect(*fields));
        rects.push((root, rect)).expect(rt, "memory");
        roots
            .push(Edited { root, rect })
            .map_err(AllocError::from)
            .expect(rt, "memory");
    }
    let edits = edits_of(rt, alloc, briefs);
    let made = engine.commit(rt, &edits, buffers, &roots);
    match edited(rt, alloc, &plain, &edits, buffers) {
        Err(refused) => {
            check_row(rt, row, &Some(refused), wanted);
            check_row(rt, row, &made.err(), &Some(GraphRefused::State(refused)));
            plain
        }
        Ok(next) => {
            check_row(rt, row, &None, wanted);
            let damages = plain_damages(rt, alloc, &plain, &next, &rects);
            let damage = made.expect(rt, "a commit that is not refused");
            check_step(rt, row, &damage, &damages, engine.nodes(), &next.nodes);
            let damage = engine.undo(rt);
            check_step(rt, row, &damage, &damages, engine.nodes(), &plain.nodes);
            let damage = engine.redo(rt);
            check_step(rt, row, &damage, &damages, engine.nodes(), &next.nodes);
            next
        }
    }
}

/// Makes the commits of a graph.
fn commit_all(rt: &impl Abort, alloc: Global, rows: &[Row]) {
    let buffers = buffers(rt, alloc);
    let mut engine = Engine {
        kit: IntKit,
        graph: Graph::new(alloc),
    };
    let mut plain = PlainGraph {
        buffers: Vec::new(alloc),
        nodes: Vec::new(alloc),
    };
    for (row, it) in rows.iter().enumerate() {
        plain = commit_both(rt, alloc, &mut engine, plain, &buffers, row, it);
    }
}

#[test]
fn commits_are_those_of_the_plain_program(rt: HostRuntime) {
    commit_all(&rt, rt.alloc(), &MEANS);
    commit_all(&rt, rt.alloc(), &MOVES);
}
