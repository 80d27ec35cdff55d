//! Lines, one after another.

ghost use Rattle.std.specs.Prelude.{◌≡◌, ℕ, All, Bool, IfOk};
ghost use Rattle.commit_session.specs.Seen.{IsOver};
ghost use Rattle.model_runs.specs.Counts.{HasTrueCounts};
ghost use Rattle.model_operations.specs.Meanings.{int_meanings, same_operation};
ghost use Rattle.model_runs.specs.Run.{effects, state_after};
ghost use Rattle.model_runs.specs.{Built.is_of_watch as of_watch, State.RunState};
ghost use Rattle.outside_io.specs.Files.{Files};
ghost use Rattle.run_lines.specs.Carried.{CarriesOutLines, IsCounted};
ghost use Rattle.run_lines.specs.Moments.{HasFaults};
ghost use Rattle.run_lines.specs.Stops.{CarriesOutCommand, CarriesOutLine};
ghost use Rattle.run_lines.specs.{Commands.IsBuiltLine, States.Holds};

use crate::edits::{copy, create, duplicate, fill, sub};
use crate::events::refuse;
use crate::files::{GrabLine, grab};
use crate::loads::load;
use crate::nodes::{remove_node, set_node};
use crate::renders::{RenderLine, render};
use crate::steps::{commit, step};
use crate::stop::Stop;
use chain_contracts::TileChain;
use commit_session::{Direction, SessionState};
use model_operations::IntOp;
use model_runs::End;
use outside_io::{Shelf, Sink};
use script_read::{Command, Line};
use std::alloc::Global;
use std::thread::Threads;
use worker_pieces::Workers;

/// Returns whether a command begins or ends a watch.
pub fn is_of_watch(command: &Command) -> bool
    ensures { result ≡ of_watch command.now }
{
    matches!(command, Command::Watch { .. } | Command::EndWatch)
}

/// Carries out lines up to the first that is refused.
pub(crate) fn carry_out_lines<C: TileChain, F: Shelf, O: Sink, R: Threads + Sync>(
    alloc: Global,
    lines: &[Line],
    session: &mut SessionState<IntOp>,
    chain: &mut C,
    shelf: &mut F,
    out: &mut O,
    workers: Workers<'_, R>,
) -> Result<(), End>
    requires over { IsOver same_operation int_meanings session.old (C.held chain.old) }
    requires lines { All IsBuiltLine lines.now }
    ensures carried { (exposed : Bool) (capacity : ℕ) (state : RunState) (files : Files) →
        Holds exposed capacity state files session.old (C.held chain.old) (F.files shelf.old) →
        HasTrueCounts (state_after state (effects capacity state files lines.now)) →
        CarriesOutLines exposed capacity state files lines.now result
        (record { files = F.files shelf.old; text = O.written out.old; reads = F.read_faults shelf.old; writes = F.write_faults shelf.old; puts = O.faults out.old; chain = C.counts chain.old })
        (record { files = F.files shelf.new; text = O.written out.new; reads = F.read_faults shelf.new; writes = F.write_faults shelf.new; puts = O.faults out.new; chain = C.counts chain.new }) }
    ensures counts { (exposed : Bool) (capacity : ℕ) (state : RunState) (files : Files) →
        Holds exposed capacity state files session.old (C.held chain.old) (F.files shelf.old) →
        HasTrueCounts (state_after state (effects capacity state files lines.now)) →
        IfOk result (λ _. IsCounted (state_after state (effects capacity state files lines.now)) session.new.applied session.new.reused) }
    ensures faults { HasFaults result
        (record { files = F.files shelf.old; text = O.written out.old; reads = F.read_faults shelf.old; writes = F.write_faults shelf.old; puts = O.faults out.old; chain = C.counts chain.old })
        (record { files = F.files shelf.new; text = O.written out.new; reads = F.read_faults shelf.new; writes = F.write_faults shelf.new; puts = O.faults out.new; chain = C.counts chain.new }) }
    ensures over { IsOver same_operation int_meanings session.new (C.held chain.new) }
    ensures loans { C.loans chain.new ≡ C.loans chain.old }
    ensures valid { C.is_valid chain.old → C.is_valid chain.new }
{
    for line in lines {
        carry_out_line(alloc, line, session, chain, shelf, out, workers)?;
    }
    Ok(())
}

/// Carries out a line, and puts its text where it is refused.
fn carry_out_line<C: TileChain, F: Shelf, O: Sink, R: Threads + Sync>(
    alloc: Global,
    line: &Line,
    session: &mut SessionState<IntOp>,
    chain: &mut C,
    shelf: &mut F,
    out: &mut O,
    workers: Workers<'_, R>,
) -> Result<(), End>
    requires over { IsOver same_operation int_meanings session.old (C.held chain.old) }
    requires line { IsBuiltLine line.now }
    ensures { CarriesOutLine line.now result
        (record { parts = session.old; held = C.held chain.old; loans = C.loans chain.old; valid = C.is_valid chain.old; moment = record { files = F.files shelf.old; text = O.written out.old; reads = F.read_faults shelf.old; writes = F.write_faults shelf.old; puts = O.faults out.old; chain = C.counts chain.old } })
        (record { parts = session.new; held = C.held chain.new; loans = C.loans chain.new; valid = C.is_valid chain.new; moment = record { files = F.files shelf.new; text = O.written out.new; reads = F.read_faults shelf.new; writes = F.write_faults shelf.new; puts = O.faults out.new; chain = C.counts chain.new } }) }
{
    match carry_out_command(alloc, line, session, chain, shelf, out, workers) {
        Ok(()) => Ok(()),
        Err(Stop::Refused(cause)) => refuse(alloc, line.number, cause, out),
        Err(Stop::Ended(end)) => Err(end),
    }
}

/// Carries out the command of a line, but for the text of its refusal.
fn carry_out_command<C: TileChain, F: Shelf, O: Sink, R: Threads + Sync>(
    alloc: Global,
    line: &Line,
    session: &mut SessionState<IntOp>,
    chain: &mut C,
    shelf: &mut F,
    out: &mut O,
    workers: Workers<'_, R>,
) -> Result<(), Stop>
    requires over { IsOver same_operation int_meanings session.old (C.held chain.old) }
    requires line { IsBuiltLine line.now }
    ensures { CarriesOutCommand line.now result
        (record { parts = session.old; held = C.held chain.old; loans = C.loans chain.old; valid = C.is_valid chain.old; moment = record { files = F.files shelf.old; text = O.written out.old; reads = F.read_faults shelf.old; writes = F.write_faults shelf.old; puts = O.faults out.old; chain = C.counts chain.old } })
        (record { parts = session.new; held = C.held chain.new; loans = C.loans chain.new; valid = C.is_valid chain.new; moment = record { files = F.files shelf.new; text = O.written out.new; reads = F.read_faults shelf.new; writes = F.write_faults shelf.new; puts = O.faults out.new; chain = C.counts chain.new } }) }
{
    let number = line.number;
    match line.command {
        Command::Buffer { name, format, rect } => {
            create(name, format, rect, session, chain, workers)
        }
        Command::Sub { name, parent, rect } => sub(name, parent, rect, session, chain, workers),
        Command::Dup { name, from } => duplicate(name, from, session, chain, workers),
        Command::Load { name, rect, file } => {
            load(alloc, name, rect, &file, session, chain, shelf, workers)
        }
        Command::Fill {
            name,
            rect,
            ref samples,
        } => fill(name, rect, samples, session, chain, workers),
        Command::Copy {
            from,
            to,
            rect,
            dx,
            dy,
        } => copy(from, to, rect, dx, dy, session, chain, workers),
        Command::Node {
            name,
            ref op,
            ref inputs,
        } => set_node(name, op, inputs, session),
        Command::Drop { name } => remove_node(name, session),
        Command::Commit => commit(session, chain),
        Command::Undo => step(Direction::Undo, session, chain),
        Command::Redo => step(Direction::Redo, session, chain),
        Command::Render {
            name,
            level,
            rect,
            file,
        } => {
            let asked = RenderLine {
                number,
                name,
                level,
                rect,
                file,
            };
            render(alloc, asked, session, chain, shelf, out, workers)
        }
        Command::Grab {
            name,
            level,
            abyss,
            rect,
            file,
        } => {
            let asked = GrabLine {
                number,
                name,
                level,
                abyss,
                rect,
                file,
            };
            grab(alloc, asked, session, chain, shelf, out)
        }
        // Scripts with watches are refused before a line is carried out.
        Command::Watch { .. } | Command::EndWatch => unreachable!(),
    }
}
