//! A kit whose operations wait for one another, or are out of memory once.

ghost use Rattle.std.specs.Prelude.{◌≤◌};
ghost use Rattle.test_renders.specs.Ready.{IsOver, IsReady};

use crate::values::{Fields, name};
use alloc_basics::NoMemory;
use chain_owners::ChainMeaning;
use frozen_images::FrozenBuffer;
use int_ops::{IntKit, IntOp, IntPermit, IntPurse};
use node_cache::PairStore;
use op_contracts::{OpKit, SourceTiles, Window};
use patch_abyss::Patch;
use pixel_formats::Format;
use plane_rect::Rect;
use render_workers::RenderRefused;
use std::alloc::Global;
use std::process::Abort;
use std::sync::atomic::{AtomicU64, Ordering};
use std::thread::Threads;
use test_nodes::{rect, sketched};
use test_renders::{Canvas, Request, over_frozen, show};
use worker_pieces::Workers;

/// How often a tile that waits looks at most.
const LOOKS: u64 = 1_000_000_000;

/// What each tile is said to take, in nanoseconds, so that two of them are worth two workers.
const DEAR: u64 = 1_000_000;

/// How many permits there are for each render.
const PERMITS: u64 = 1 << 32;

/// Four tiles of one gray, and their inverse.
const NODES: &str = "node k color Y8 0 0 128 128 7\nnode i invert k\n";

/// Carries out the fifteen operations, of which it says that each is dear, and counts the tiles that are begun.
#[derive(Drop)]
pub struct WaitingKit {
    /// How many tiles are begun, those of refused renders too.
    pub begun: AtomicU64,
    /// How many tiles waited in vain.
    pub ran_out: AtomicU64,
    /// A tile waits until so many are begun.
    together: u64,
    /// The number of the tile for which memory runs out, counted from 1; at 0 there is none.
    scarce: u64,
}

impl WaitingKit {
    /// Makes a kit of whose tiles each waits until so many are begun, and the one of a number, counted from 1, is out of
    /// memory.
    pub fn new(together: u64, scarce: u64) -> WaitingKit {
        WaitingKit {
            begun: AtomicU64::new(0),
            ran_out: AtomicU64::new(0),
            together,
            scarce,
        }
    }

    /// Waits until as many tiles are begun as are made together. Returns whether that came in time.
    fn meets(&self) -> bool {
        for _look in 0..LOOKS {
            if self.begun.load(Ordering::SeqCst) >= self.together {
                return true;
            }
        }
        false
    }
}

impl OpKit for WaitingKit {
    type Op = IntOp;

    type Purse = IntPurse;

    type Permit = IntPermit;

    ghost permits = { λ purse. purse.left };

    fn arity(&self, op: &IntOp) -> u32 {
        IntKit.arity(op)
    }

    fn check(&self, op: &IntOp, formats: &[Format]) -> Option<Format> {
        IntKit.check(op, formats)
    }

    fn bounds(&self, op: &IntOp, boxes: &[Rect]) -> Option<Rect> {
        IntKit.bounds(op, boxes)
    }

    fn required(&self, op: &IntOp, boxes: &[Rect], input: usize, out: Rect) -> Rect {
        IntKit.required(op, boxes, input, out)
    }

    fn invalidated(&self, op: &IntOp, boxes: &[Rect], input: usize, changed: Rect) -> Rect {
        IntKit.invalidated(op, boxes, input, changed)
    }

    fn nanoseconds(&self, _op: &IntOp, _windows: &[Window]) -> u64 {
        DEAR
    }

    fn left(&self, purse: &IntPurse) -> u64 {
        IntKit.left(purse)
    }

    fn take(&self, purse: &mut IntPurse) -> Option<IntPermit> {
        IntKit.take(purse)
    }

    fn steady(&self, op: &IntOp) -> bool {
        IntKit.steady(op)
    }

    fn same(&self, a: &IntOp, b: &IntOp) -> bool {
        IntKit.same(a, b)
    }

    fn copy_op(&self, alloc: Global, op: &IntOp) -> Result<IntOp, NoMemory> {
        IntKit.copy_op(alloc, op)
    }

    fn apply(
        &self,
        alloc: Global,
        permit: IntPermit,
        op: &IntOp,
        boxes: &[Rect],
        windows: &[Window],
        out: Rect,
    ) -> Result<Patch, NoMemory> {
        let before = self.begun.fetch_add(1, Ordering::SeqCst);
        if before.wrapping_add(1) == self.scarce {
            return Err(NoMemory);
        }
        if !self.meets() {
            let _waited = self.ran_out.fetch_add(1, Ordering::SeqCst);
        }
        IntKit.apply(alloc, permit, op, boxes, windows, out)
    }
}

/// Renders a request by a kit, split among so many workers.
fn shown_by<H: ChainMeaning, S: SourceTiles<H>, P: PairStore<H>>(
    rt: &(impl Threads + Sync),
    kit: &WaitingKit,
    workers: u32,
    canvas: &mut Canvas<S, P>,
    chain: &mut H,
    request: &Request,
) -> Result<Patch, RenderRefused>
    requires level { request.now.level ≤ 8 }
    requires over { IsOver H.ChainMeaning S.SourceTiles P.PairStore canvas.old chain.old }
    requires ready { IsReady H.ChainMeaning S.SourceTiles P.PairStore canvas.old chain.old }
    ensures over { IsOver H.ChainMeaning S.SourceTiles P.PairStore canvas.new chain.new }
    ensures ready { IsReady H.ChainMeaning S.SourceTiles P.PairStore canvas.new chain.new }
{
    let mut purse = IntPurse::new(PERMITS);
    let shown = show(
        kit,
        canvas.alloc,
        &canvas.graph,
        &mut canvas.sources,
        &mut canvas.cache,
        chain,
        &mut purse,
        request,
        Workers::new(rt, workers),
    )?;
    Ok(shown.picture.into_patch())
}

/// Renders a rectangle of the gray tiles, or of their inverse, by a kit with so many workers, and once more where memory
/// runs out. Checks that one gray is shown everywhere. Returns whether memory ran out.
pub fn show_gray(
    rt: &(impl Abort + Threads + Sync),
    alloc: Global,
    kit: &WaitingKit,
    workers: u32,
    (word, fields): (&str, Fields),
    gray: u8,
) -> bool {
    let buffers: [FrozenBuffer; 0] = [];
    let nodes = sketched(alloc, NODES).expect(rt, "nodes");
    let canvas = over_frozen(alloc, &buffers, &[], &nodes.edits, 8);
    let mut canvas = canvas.expect(rt, "nodes over no buffer");
    let request = Request {
        node: name(rt, word),
        level: 0,
        rect: rect(fields),
        capacity: 8,
    };
    let first = shown_by(rt, kit, workers, &mut canvas, &mut (), &request);
    let is_refused = matches!(first, Err(RenderRefused::NoMemory));
    let shown = if is_refused {
        shown_by(rt, kit, workers, &mut canvas, &mut (), &request)
    } else {
        first
    };
    let patch = shown.expect(rt, "a render");
    let pixels = vec![in alloc; gray; request.rect.area() as usize].expect(rt, "memory");
    assert!(rt; patch.raw_bytes() == pixels.as_slice());
    is_refused
}
