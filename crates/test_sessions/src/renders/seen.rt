//! What renders showed, and what they are compared with.

ghost use Rattle.std.specs.Prelude.{◌≤◌};

use crate::renders::plain::{bytes, level_bytes};
use crate::renders::steps::{Asked, Bytes, Wanted};
use crate::values::{check_row, name};
use int_ops::IntOp;
use model_graphs::NodeFact;
use patch_abyss::Patch;
use plain_graphs::{Lookups, Pair, need, needed_pairs};
use plain_images::Picture;
use plane_rect::{Name, TileAt};
use render_workers::RenderRefused;
use std::alloc::Global;
use std::process::Abort;
use test_nodes::rect;
use test_renders::Request;

/// What a render answered: the patch, with how many tiles were evaluated and how many the cache had, or why it was
/// refused.
pub type Answer = Result<(Patch, (u64, u64)), RenderRefused>;

/// What was shown so far, and what the plain program has.
#[derive(Drop)]
pub struct Seen {
    alloc: Global,
    /// How many tiles a strip may need.
    pub capacity: u32,
    patches: Vec<Patch>,
    /// The images of the nodes, where they are compared with.
    pictures: Vec<Picture>,
    /// The pairs that are cached.
    lookups: Lookups,
    /// Whether the disk refused a render.
    pub is_refused: bool,
}

impl Seen {
    /// Returns nothing shown, over nothing cached.
    pub fn new(alloc: Global, capacity: u32, pictures: Vec<Picture>) -> Seen {
        Seen {
            alloc,
            capacity,
            patches: Vec::new(alloc),
            pictures,
            lookups: Lookups {
                pairs: Vec::new(alloc),
                applied: 0,
                reused: 0,
            },
            is_refused: false,
        }
    }

    /// Returns what is asked for as a request.
    pub fn request(&self, rt: &impl Abort, asked: &Asked) -> Request
        ensures { result.level ≤ 8 }
    {
        let (word, level, fields) = *asked;
        assert!(rt; level <= 8);
        Request {
            node: name(rt, word),
            level,
            rect: rect(fields),
            capacity: self.capacity,
        }
    }

    /// Checks the answer of a row, over these nodes and with these pairs cached after it.
    pub fn check(
        &mut self,
        rt: &impl Abort,
        row: usize,
        (asked, wanted): (&Asked, &Wanted),
        answer: Answer,
        nodes: &[NodeFact<IntOp>],
        order: &[(Name, TileAt)],
    ) {
        if let Wanted::Refused(cause) = wanted {
            check_row(rt, row, &answer.err(), &Some(*cause));
            return;
        }
        let (patch, counts) = answer.expect(rt, "a render");
        let checks: &[Bytes] = match wanted {
            Wanted::Shown(wanted, checks) => {
                check_row(rt, row, &counts, wanted);
                checks
            }
            Wanted::Again(checks) => checks,
            _ => {
                let looked_up = self.look_up(rt, nodes, asked);
                check_row(rt, row, &counts, &looked_up);
                self.check_order(rt, row, order);
                &[]
            }
        };
        let node = position_of(rt, nodes, asked.0);
        for check in checks {
            self.check_bytes(rt, (row, node), asked, patch.raw_bytes(), check);
        }
        self.patches.push(patch).expect(rt, "memory");
    }

    /// Checks bytes of a row.
    fn check_bytes(
        &self,
        rt: &impl Abort,
        (row, node): (usize, usize),
        asked: &Asked,
        found: &[u8],
        check: &Bytes,
    ) {
        match check {
            Bytes::All(wanted) => check_row(rt, row, &found, wanted),
            Bytes::From(index, wanted) => {
                let rest = found.get(*index..).unwrap_or(&[]);
                check_row(rt, row, &rest.get(..wanted.len()), &Some(*wanted));
            }
            Bytes::Length(wanted) => check_row(rt, row, &found.len(), wanted),
            Bytes::Count(value, wanted) => {
                let count = found.iter().filter(|byte| *byte == value).count();
                check_row(rt, row, &count, wanted);
            }
            Bytes::Random(seed, count) => {
                let wanted = bytes(rt, self.alloc, *seed, *count);
                check_row(rt, row, &found, &wanted.as_slice());
            }
            Bytes::Of(number) => {
                let earlier = self.patches.get(*number).expect(rt, "an earlier render");
                check_row(rt, row, &found, &earlier.raw_bytes());
            }
            Bytes::Plain => {
                let picture = self.pictures.get(node).expect(rt, "an image");
                let wanted = level_bytes(rt, self.alloc, picture, asked.1, asked.2);
                check_row(rt, row, &found, &wanted.as_slice());
            }
        }
    }

    /// Looks up what a request needs in the plain list. Returns how many pairs were new and how many weren't.
    fn look_up(&mut self, rt: &impl Abort, nodes: &[NodeFact<IntOp>], asked: &Asked) -> (u64, u64) {
        let (alloc, capacity) = (self.alloc, self.capacity as usize);
        assert!(rt; nodes.len() <= 256);
        let position = position_of(rt, nodes, asked.0);
        assert!(rt; position < nodes.len());
        let strips = need(alloc, nodes, position as u32, rect(asked.2)).expect(rt, "memory");
        let pairs = needed_pairs(alloc, nodes, &strips).expect(rt, "memory");
        look_up_all(rt, alloc, &mut self.lookups, capacity, &pairs)
    }

    /// Checks that the pairs of the plain list are cached, in its order.
    fn check_order(&self, rt: &impl Abort, row: usize, order: &[(Name, TileAt)]) {
        let mut listed = Vec::new(self.alloc);
        for pair in &self.lookups.pairs {
            listed.push((pair.node, pair.tile)).expect(rt, "memory");
        }
        check_row(rt, row, &order, &listed.as_slice());
    }

    /// Checks that more than so many tiles were new in the plain list, and more than so many weren't.
    pub fn check_lists(&self, rt: &impl Abort, applied: u64, reused: u64) {
        assert!(rt; self.lookups.reused > reused && self.lookups.applied > applied);
    }
}

/// Looks up pairs in a list. Returns how many were new and how many weren't.
fn look_up_all(
    rt: &impl Abort,
    alloc: Global,
    lookups: &mut Lookups,
    capacity: usize,
    pairs: &[Pair],
) -> (u64, u64) {
    let (applied, reused) = (lookups.applied, lookups.reused);
    let most = 1 << 62;
    assert!(rt; applied < most && reused < most && (pairs.len() as u64) < most);
    lookups
        .look_up_all(alloc, capacity, pairs)
        .expect(rt, "memory");
    (
        lookups.applied.wrapping_sub(applied),
        lookups.reused.wrapping_sub(reused),
    )
}

/// Returns the position of the node of a name.
fn position_of(rt: &impl Abort, nodes: &[NodeFact<IntOp>], word: &str) -> usize {
    let wanted = name(rt, word);
    let position = nodes.iter().position(|fact| fact.spec.name == wanted);
    position.unwrap_or(nodes.len())
}
