//! Lists of calls on a session of gray pixels, each with its answer.

ghost use Rattle.std.specs.Prelude.{◌≡◌};
ghost use Rattle.model_operations.specs.Meanings.{int_meanings, same_operation};
ghost use Rattle.commit_session.specs.Seen.{IsOver};

use crate::sessions::calls::{Asked, Made, commit, edit, grabbed, redo, render, shown, undo};
use crate::values::{Fields, check_row, name};
use chain_contracts::TileChain;
use commit_session::{OwnedSession, SessionRefused};
use int_ops::IntKit;
use patch_abyss::Patch;
use render_workers::RenderRefused;
use std::alloc::Global;
use std::process::Abort;
use std::thread::Threads;

/// Bytes of a patch.
#[derive(Clone, Copy)]
pub enum Bytes<'a> {
    /// All of them.
    All(&'a [u8]),

    /// Those from some indices on.
    From(&'a [(usize, &'a [u8])]),

    /// Those of an earlier render, counted from 0.
    Of(usize),
}

/// A call on a session, with its answer.
#[derive(Clone, Copy)]
pub enum Step<'a> {
    /// Makes an edit.
    Edit(Made<'a>),

    /// Commits, which makes the state of this number.
    Commit(u64),

    /// Undoes, which makes the state of this number.
    Undo(u64),

    /// Redoes, which makes the state of this number.
    Redo(u64),

    /// Asks whether the last state has a node.
    Has(&'static str, bool),

    /// Renders a rectangle of a level of a node.
    Shows(Asked, Bytes<'a>),

    /// Asks for a render that is refused.
    Refuses(Asked, RenderRefused),

    /// Asks how many tiles all renders evaluated, and how many the cache had.
    Counts(u64, u64),

    /// Reads a rectangle of a buffer that is edited.
    Grabs(&'static str, Fields, &'a [u8]),
}

/// Checks the bytes of a row's patch, which is rendered after others.
fn check(rt: &impl Abort, row: usize, earlier: &[Patch], patch: &Patch, wanted: &Bytes<'_>) {
    let found = patch.raw_bytes();
    match wanted {
        Bytes::All(bytes) => check_row(rt, row, &found, bytes),
        Bytes::From(parts) => {
            for (index, bytes) in *parts {
                let rest = found.get(*index..).unwrap_or(&[]);
                check_row(rt, row, &rest.get(..bytes.len()), &Some(*bytes));
            }
        }
        Bytes::Of(number) => {
            let same = earlier.get(*number).expect(rt, "an earlier render");
            check_row(rt, row, &found, &same.raw_bytes());
        }
    }
}

/// Renders what a row asks for, and checks its bytes. Returns whether the disk refused it once.
fn show<C: TileChain>(
    rt: &(impl Abort + Threads + Sync),
    session: &mut OwnedSession<IntKit, C>,
    patches: &mut Vec<Patch>,
    row: usize,
    asked: Asked,
    wanted: &Bytes<'_>,
) -> bool
    requires { IsOver same_operation int_meanings session.old.state (C.held session.old.chain) }
    ensures { IsOver same_operation int_meanings session.new.state (C.held session.new.chain) }
{
    let (patch, refused) = shown(rt, session, asked);
    check(rt, row, patches, &patch, wanted);
    patches.push(patch).expect(rt, "memory");
    refused
}

/// Makes the step of a row that the disk doesn't refuse.
fn make_sure<C: TileChain>(
    rt: &(impl Abort + Threads + Sync),
    session: &mut OwnedSession<IntKit, C>,
    row: usize,
    step: &Step<'_>,
)
    requires { IsOver same_operation int_meanings session.old.state (C.held session.old.chain) }
    ensures { IsOver same_operation int_meanings session.new.state (C.held session.new.chain) }
{
    match step {
        Step::Edit(_) | Step::Shows(_, _) | Step::Grabs(_, _, _) => {}
        Step::Commit(number) => check_row(rt, row, &commit(rt, session), number),
        Step::Undo(number) => check_row(rt, row, &undo(rt, session), number),
        Step::Redo(number) => check_row(rt, row, &redo(rt, session), number),
        Step::Has(word, wanted) => {
            check_row(rt, row, &session.has_node(name(rt, word)), wanted);
        }
        Step::Refuses(asked, wanted) => {
            let refused = render(rt, session, *asked).err();
            check_row(rt, row, &refused, &Some(SessionRefused::Render(*wanted)));
        }
        Step::Counts(applied, reused) => {
            let found = session.counts();
            check_row(
                rt,
                row,
                &(found.applied, found.reused),
                &(*applied, *reused),
            );
        }
    }
}

/// Makes the step of a row. Returns whether the disk refused it once.
fn make_step<C: TileChain>(
    rt: &(impl Abort + Threads + Sync),
    session: &mut OwnedSession<IntKit, C>,
    alloc: Global,
    patches: &mut Vec<Patch>,
    row: usize,
    step: &Step<'_>,
) -> bool
    requires { IsOver same_operation int_meanings session.old.state (C.held session.old.chain) }
    ensures { IsOver same_operation int_meanings session.new.state (C.held session.new.chain) }
{
    match step {
        Step::Edit(made) => edit(rt, session, alloc, *made),
        Step::Shows(asked, wanted) => show(rt, session, patches, row, *asked, wanted),
        Step::Grabs(word, fields, bytes) => {
            let (patch, is_refused) = grabbed(rt, session, word, *fields);
            check_row(rt, row, &patch.raw_bytes(), bytes);
            is_refused
        }
        _ => {
            make_sure(rt, session, row, step);
            false
        }
    }
}

/// Makes steps in their order. An edit, a render or a read that the disk refuses is made again. Returns whether it refused
/// one.
pub fn make<C: TileChain>(
    rt: &(impl Abort + Threads + Sync),
    session: &mut OwnedSession<IntKit, C>,
    alloc: Global,
    steps: &[Step<'_>],
) -> bool
    requires { IsOver same_operation int_meanings session.old.state (C.held session.old.chain) }
    ensures { IsOver same_operation int_meanings session.new.state (C.held session.new.chain) }
{
    let mut patches = Vec::new(alloc);
    let mut is_refused = false;
    let mut row: usize = 0;
    for step in steps {
        is_refused = make_step(rt, session, alloc, &mut patches, row, step) || is_refused;
        row = row.wrapping_add(1);
    }
    is_refused
}
