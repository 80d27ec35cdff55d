//! Lines that write a file of a buffer.

ghost use Rattle.std.specs.Prelude.{[], ◌∷◌, length};
ghost use Rattle.commit_session.specs.Seen.{IsOver};
ghost use Rattle.model_operations.specs.Meanings.{int_meanings, same_operation};
ghost use Rattle.model_runs.specs.Effects.{grabs, writes};
ghost use Rattle.model_runs.specs.Ending.{Leaves};
ghost use Rattle.run_lines.specs.Causes.{HasCause, HasSinkCause};
ghost use Rattle.run_lines.specs.Leaving.{SinkLeaves};
ghost use Rattle.run_lines.specs.Stops.{CarriesCommand};
ghost use Rattle.model_runs.specs.Events.{Puts, events_alone};
ghost use Rattle.model_runs.specs.Texts.{grab_text as text_of_grab};
ghost use Rattle.script_fields.specs.Limits.{IsLevelRect};

use crate::events::{put_text, write_file};
use crate::stop::Stop;
use chain_contracts::TileChain;
use commit_session::SessionState;
use model_operations::IntOp;
use model_runs::{End, grab_text};
use outside_io::{Shelf, Sink};
use pixel_formats::Abyss;
use plane_rect::{Name, Rect};
use script_read::FileName;
use std::alloc::Global;

/// What a line asks for that writes a file of a level of a buffer.
#[derive(Clone, Copy, Debug)]
pub(crate) struct GrabLine {
    pub number: u32,
    pub name: Name,
    pub level: u32,
    pub abyss: Abyss,
    pub rect: Rect,
    pub file: FileName,
}

/// Writes a file of a level of a buffer.
pub(crate) fn grab<C: TileChain, F: Shelf, O: Sink>(
    alloc: Global,
    line: GrabLine,
    session: &mut SessionState<IntOp>,
    chain: &mut C,
    shelf: &mut F,
    out: &mut O,
) -> Result<(), Stop>
    requires over { IsOver same_operation int_meanings session.old (C.held chain.old) }
    requires limits { IsLevelRect line.level line.rect }
    ensures { CarriesCommand line.number (λ capacity state files. grabs line.number state line.name line.level line.abyss line.rect line.file) result
        (record { parts = session.old; held = C.held chain.old; loans = C.loans chain.old; valid = C.is_valid chain.old; moment = record { files = F.files shelf.old; text = O.written out.old; reads = F.read_faults shelf.old; writes = F.write_faults shelf.old; puts = O.faults out.old; chain = C.counts chain.old } })
        (record { parts = session.new; held = C.held chain.new; loans = C.loans chain.new; valid = C.is_valid chain.new; moment = record { files = F.files shelf.new; text = O.written out.new; reads = F.read_faults shelf.new; writes = F.write_faults shelf.new; puts = O.faults out.new; chain = C.counts chain.new } }) }
{
    let patch = session.grab(chain, line.name, line.level, line.abyss, line.rect)?;
    write_grab(
        alloc,
        line.number,
        patch.raw_bytes(),
        &line.file,
        shelf,
        out,
    )?;
    Ok(())
}

/// Writes the file of a grab line, and puts its text.
fn write_grab<F: Shelf, O: Sink>(
    alloc: Global,
    line: u32,
    bytes: &[u8],
    file: &FileName,
    shelf: &mut F,
    out: &mut O,
) -> Result<(), End>
    ensures leaves { Leaves (events_alone (writes file.now bytes.now (text_of_grab line (length bytes.now)))) result
        (record { files = F.files shelf.old; text = O.written out.old }) (record { files = F.files shelf.new; text = O.written out.new }) }
    ensures cause { HasCause result
        (record { reads = F.read_faults shelf.old; writes = F.write_faults shelf.old; puts = O.faults out.old })
        (record { reads = F.read_faults shelf.new; writes = F.write_faults shelf.new; puts = O.faults out.new }) }
{
    write_file(bytes, file, shelf)?;
    report_grab(alloc, line, bytes.len(), out)
}

/// Puts the text of a grab line whose file of so many bytes is written.
fn report_grab<O: Sink>(alloc: Global, line: u32, bytes: usize, out: &mut O) -> Result<(), End>
    ensures leaves { SinkLeaves O.written (events_alone (Puts (text_of_grab line bytes) ∷ [])) result out.old out.new }
    ensures cause { HasSinkCause O.faults result out.old out.new }
{
    let text = grab_text(alloc, line, bytes)?;
    put_text(&text, out)
}
