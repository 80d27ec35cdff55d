//! A session of a kit that has only what each kit must have.

ghost use Rattle.std.specs.Prelude.{◌≡◌};
ghost use Rattle.model_sessions.specs.Steps.{IsProper};
ghost use Rattle.commit_session.specs.{Edits.step_of, Seen.IsOver};
ghost use Rattle.test_kit.specs.Cutting.{cutting, same_cut};

use crate::values::name;
use chain_contracts::TileChain;
use commit_session::{Edit, OwnedSession, Session};
use model_graphs::NodeEdit;
use op_contracts::OpKit;
use outside_io::SwapDisk;
use patch_abyss::Patch;
use pixel_formats::{Format, PixelSamples};
use std::alloc::Global;
use std::process::Abort;
use std::thread::Threads;
use test_kit::{CutKit, CutPurse, CutTo};
use test_nodes::{node, rect, source};

/// Makes an edit.
fn edit<C: TileChain>(
    rt: &(impl Abort + Threads + Sync),
    session: &mut OwnedSession<CutKit, C>,
    made: Edit<CutTo>,
)
    requires over { IsOver same_cut cutting session.old.state (C.held session.old.chain) }
    requires proper { IsProper (step_of made) }
    ensures { IsOver same_cut cutting session.new.state (C.held session.new.chain) }
{
    session.edit(rt, made).expect(rt, "an edit");
}

/// Commits two tiles of gray, and a node that cuts eight columns across their border out of them.
fn commit<C: TileChain>(
    rt: &(impl Abort + Threads + Sync),
    session: &mut OwnedSession<CutKit, C>,
    alloc: Global,
)
    requires { IsOver same_cut cutting session.old.state (C.held session.old.chain) }
    ensures { IsOver same_cut cutting session.new.state (C.held session.new.chain) }
{
    let (buffer, extent) = (name(rt, "a"), rect([0, 0, 128, 64]));
    let format = Format::Y8;
    edit(
        rt,
        session,
        Edit::Create {
            name: buffer,
            format,
            extent,
        },
    );
    let samples = PixelSamples::new(vec![in alloc; 7].expect(rt, "memory"));
    edit(
        rt,
        session,
        Edit::Fill {
            name: buffer,
            rect: extent,
            samples,
        },
    );
    let from = source("s", "a").expect(rt, "a node");
    edit(rt, session, Edit::Node(NodeEdit::Set(from)));
    let op = CutTo {
        rect: rect([60, 0, 8, 1]),
    };
    let cut = node(alloc, "c", op, &["s"]).expect(rt, "a node");
    edit(rt, session, Edit::Node(NodeEdit::Set(cut)));
    session.commit().expect(rt, "a commit");
}

/// Renders a row across the cut. Returns what is shown, and how many permits were spent.
fn shown<C: TileChain>(
    rt: &(impl Abort + Threads + Sync),
    session: &mut OwnedSession<CutKit, C>,
) -> (Patch, u64)
    requires { IsOver same_cut cutting session.old.state (C.held session.old.chain) }
    ensures { IsOver same_cut cutting session.new.state (C.held session.new.chain) }
{
    let permits = 1 << 32;
    let mut purse = CutPurse::new(permits);
    let patch = session.render(rt, &mut purse, name(rt, "c"), 0, rect([58, 0, 12, 1]));
    let spent = permits.wrapping_sub(CutKit.left(&purse));
    (patch.expect(rt, "a render"), spent)
}

/// Cuts eight columns out of two tiles. Checks what is shown around them, and that a permit was spent for each tile.
pub fn cut_two_tiles<D: SwapDisk>(rt: &(impl Abort + Threads + Sync), alloc: Global, disk: &mut D) {
    let session = Session::new(alloc, CutKit, disk, 64, 1, 2, 2);
    let mut session = session.expect(rt, "memory");
    commit(rt, &mut session, alloc);
    let (patch, spent) = shown(rt, &mut session);
    assert!(rt; spent == 2 && patch.raw_bytes() == [0, 0, 7, 7, 7, 7, 7, 7, 7, 7, 0, 0].as_slice());
}
