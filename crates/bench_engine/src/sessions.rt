//! Sessions that carry out lines of scripts.

ghost use Rattle.std.specs.Prelude.{IfSome};
ghost use Rattle.model_operations.specs.Meanings.{int_meanings, same_operation};
ghost use Rattle.plane_rect.specs.Rectangle.{InLimits};
ghost use Rattle.model_sessions.specs.Steps.{IsProper};
ghost use Rattle.commit_session.specs.{Edits.step_of, Seen.IsOver};

use crate::bench::{Bench, Host, Rounds, Times};
use crate::bytes::{last, noise};
use crate::lines::{lines_of, node_edit, numbers_of};
use commit_session::{Edit, OwnedSession, Session};
use int_ops::{IntKit, IntOp, IntPurse};
use model_buffers::RawBytes;
use outside_io::SwapDisk;
use patch_abyss::Patch;
use plane_rect::Rect;
use script_read::{Command, Line};
use std::alloc::Global;
use std::time::Instant;
use test_nodes::rect;
use tile_chain::TileChain;

/// One call a round.
const ONCE: Times = Times {
    rounds: 1,
    calls: 1,
    units: 1,
    bytes: 0,
};

/// Lines that are carried out in each of so many rounds, after others that aren't timed.
#[derive(Clone, Copy)]
pub struct Row {
    pub label: &'static str,
    pub rounds: u32,
    pub before: &'static str,
    pub timed: &'static str,
}

/// What a session is made ready by, and what is timed then, in at most as many rounds as the command line says.
#[derive(Clone, Copy)]
pub struct Job {
    pub setup: &'static [Row],
    pub timed: &'static [Row],
}

/// How many blocks of the disk a session takes, how many tiles it has in memory, how many columns of pixels its image
/// has, and how many bytes a load writes.
#[derive(Clone, Copy)]
pub struct Room {
    pub blocks: u32,
    pub resident: u32,
    pub columns: u32,
    pub load: usize,
}

/// A session, and lines that it carries out in each round.
#[derive(Drop)]
struct SessionWork<'a, R, C: TileChain> {
    rt: &'a R,
    session: OwnedSession<IntKit, C>,
    room: Room,
    row: Row,
    round: u32,
    bytes: Option<RawBytes>,
    lines: Vec<Line>,
}

/// Returns a rectangle that is in limits, or the one without a position in its place.
fn limited(asked: Rect) -> Rect
    ensures { InLimits result }
{
    rect([
        i64::from(asked.x),
        i64::from(asked.y),
        i64::from(asked.w),
        i64::from(asked.h),
    ])
}

/// Returns the edit that a command is, where a load writes these bytes. None where it is none.
fn edit_of(command: Command, bytes: &mut Option<RawBytes>) -> Option<Edit<IntOp>>
    ensures { IfSome result (λ edit. IsProper (step_of edit)) }
{
    match command {
        Command::Buffer { name, format, rect } => Some(Edit::Create {
            name,
            format,
            extent: limited(rect),
        }),
        Command::Dup { name, from } => Some(Edit::Dup { name, from }),
        Command::Load {
            name,
            rect,
            file: _,
        } => {
            let bytes = bytes.take()?;
            Some(Edit::Load { name, rect, bytes })
        }
        Command::Fill {
            name,
            rect,
            samples,
        } => Some(Edit::Fill {
            name,
            rect,
            samples,
        }),
        command => Some(Edit::Node(node_edit(command)?)),
    }
}

impl<R: Host, C: TileChain> SessionWork<'_, R, C> {
    /// Returns the number that depends on the patch and on how many tiles all renders evaluated and found.
    fn found(&self, patch: &Patch) -> u64 {
        let counts = self.session.counts();
        let tiles = counts.applied.wrapping_add(counts.reused);
        last(patch.raw_bytes()).wrapping_add(tiles)
    }

    /// Carries out a command. None where it is refused.
    fn carry_out(&mut self, command: Command) -> Option<u64>
        requires { IsOver same_operation int_meanings self.old.session.state (C.held self.old.session.chain) }
        ensures { IsOver same_operation int_meanings self.new.session.state (C.held self.new.session.chain) }
    {
        match command {
            Command::Commit => self.session.commit().ok(),
            Command::Undo => self.session.undo().ok(),
            Command::Redo => self.session.redo().ok(),
            Command::Render {
                name,
                level,
                rect,
                ..
            } => {
                let mut purse = IntPurse::new(1 << 40);
                let patch = self
                    .session
                    .render(self.rt, &mut purse, name, level.min(8), rect)
                    .ok()?;
                Some(self.found(&patch))
            }
            Command::Grab {
                name,
                level,
                abyss,
                rect,
                ..
            } => {
                let (level, rect) = (level.min(8), limited(rect));
                let patch = self.session.grab(name, level, abyss, rect).ok()?;
                Some(self.found(&patch))
            }
            command => {
                let edit = edit_of(command, &mut self.bytes)?;
                self.session.edit(self.rt, edit).ok()?;
                Some(1)
            }
        }
    }

    /// Carries out lines one after another. None at the first that is refused.
    fn carry_out_all(&mut self, lines: Vec<Line>) -> Option<u64>
        requires { IsOver same_operation int_meanings self.old.session.state (C.held self.old.session.chain) }
        ensures { IsOver same_operation int_meanings self.new.session.state (C.held self.new.session.chain) }
    {
        let mut found = 0u64;
        for line in lines {
            found = found.wrapping_add(self.carry_out(line.command)?);
        }
        Some(found)
    }
}

/// Returns the bytes that a row loads: none where its line is no load. None if memory runs out.
fn bytes_of(alloc: Global, row: Row, room: Room) -> Option<RawBytes> {
    let is_load = row.timed.as_bytes().starts_with(b"load");
    let count = if is_load { room.load } else { 0 };
    Some(RawBytes::new(noise(alloc, count)?))
}

/// Makes ready the lines of a session's round, and carries out those that aren't timed.
fn prepare<R: Host, C: TileChain>(work: &mut SessionWork<'_, R, C>) -> Option<()>
    requires { IsOver same_operation int_meanings work.old.session.state (C.held work.old.session.chain) }
    ensures { IsOver same_operation int_meanings work.new.session.state (C.held work.new.session.chain) }
{
    let (alloc, row) = (work.rt.alloc(), work.row);
    let numbers = numbers_of(work.round, work.room.columns);
    work.round = work.round.wrapping_add(1);
    work.carry_out_all(lines_of(alloc, row.before, numbers)?)?;
    work.bytes = Some(bytes_of(alloc, row, work.room)?);
    work.lines = lines_of(alloc, row.timed, numbers)?;
    Some(())
}

/// Times a row, in at most so many rounds. Sessions are no `Work`: a call that may start threads isn't proved of a
/// trait's method.
fn time_row<R: Host, C: TileChain>(
    bench: &Bench<'_, R>,
    work: &mut SessionWork<'_, R, C>,
    row: Row,
    limit: u32,
) -> Option<()>
    requires { IsOver same_operation int_meanings work.old.session.state (C.held work.old.session.chain) }
    ensures { IsOver same_operation int_meanings work.new.session.state (C.held work.new.session.chain) }
{
    work.row = row;
    work.round = 0;
    let mut rounds = Rounds::none();
    for _round in 0..row.rounds.min(limit) {
        prepare(work)?;
        let lines = std::mem::replace(&mut work.lines, Vec::new(bench.rt.alloc()));
        let start = Instant::now(bench.rt).ok()?;
        let found = work.carry_out_all(lines)?;
        rounds.add(start.elapsed(bench.rt).ok()?.as_nanos(), found);
    }
    bench.print(row.label, ONCE, rounds).ok()
}

/// Times rows, each in at most so many rounds.
fn time_rows<R: Host, C: TileChain>(
    bench: &Bench<'_, R>,
    work: &mut SessionWork<'_, R, C>,
    rows: &[Row],
    limit: u32,
) -> Option<()>
    requires { IsOver same_operation int_meanings work.old.session.state (C.held work.old.session.chain) }
    ensures { IsOver same_operation int_meanings work.new.session.state (C.held work.new.session.chain) }
{
    for row in rows {
        time_row(bench, work, *row, limit)?;
    }
    Some(())
}

/// Times a job by a session.
fn time_by<R: Host, C: TileChain + Drop>(
    bench: &Bench<'_, R>,
    session: OwnedSession<IntKit, C>,
    room: Room,
    job: &Job,
) -> Option<()>
    requires { IsOver same_operation int_meanings session.state (C.held session.chain) }
{
    let mut work = SessionWork {
        rt: bench.rt,
        session,
        room,
        row: Row {
            label: "",
            rounds: 0,
            before: "",
            timed: "",
        },
        round: 0,
        bytes: None,
        lines: Vec::new(bench.rt.alloc()),
    };
    time_rows(bench, &mut work, job.setup, u32::MAX)?;
    time_rows(bench, &mut work, job.timed, bench.rounds)
}

/// Times a job by a session over a disk, on one thread, which caches up to 65,536 tiles of nodes.
pub fn time_job<R: Host, D: SwapDisk>(
    bench: &Bench<'_, R>,
    disk: &mut D,
    room: Room,
    job: &Job,
) -> Option<()> {
    let resident = room.resident.max(1);
    let made = Session::new(
        bench.rt.alloc(),
        IntKit,
        disk,
        room.blocks,
        resident,
        1 << 16,
        1,
    );
    match made {
        Ok(session) => time_by(bench, session, room, job),
        Err(_) => None,
    }
}
