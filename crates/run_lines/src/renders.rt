//! Lines that write a file of a node.

ghost use Rattle.std.specs.Prelude.{IfSome, Option, length};
ghost use Rattle.commit_session.specs.Seen.{IsOver};
ghost use Rattle.model_images.specs.Image.{Image};
ghost use Rattle.model_operations.specs.Meanings.{int_meanings, same_operation};
ghost use Rattle.model_runs.specs.Effects.{renders_named, writes};
ghost use Rattle.run_lines.specs.Causes.{HasCause};
ghost use Rattle.run_lines.specs.{PictureBytes.LeavesBytes, Stops.CarriesCommand};
ghost use Rattle.model_runs.specs.{Events.events_alone, Texts.render_text as text_of_render};
ghost use Rattle.script_fields.specs.Limits.{IsLevelRect};
ghost use Rattle.strip_patches.specs.Shown.{Shows, picture_box, picture_format};

use crate::events::put_text;
use crate::rasters::{picture_bytes, write_picture};
use crate::stop::Stop;
use chain_contracts::TileChain;
use commit_session::SessionState;
use int_ops::{IntKit, IntPurse};
use model_operations::IntOp;
use model_runs::{End, render_text};
use outside_io::{Shelf, Sink};
use plane_rect::{Name, Rect};
use script_read::FileName;
use std::alloc::Global;
use std::thread::Threads;
use strip_patches::{Picture, PictureForm};
use worker_pieces::Workers;

/// How many permits a render has: as many as any may spend.
const RENDER_PERMITS: u64 = 1 << 32;

/// What a line asks for that writes a file of a level of a node.
#[derive(Clone, Copy, Debug)]
pub(crate) struct RenderLine {
    pub number: u32,
    pub name: Name,
    pub level: u32,
    pub rect: Rect,
    pub file: FileName,
}

/// Writes a file of a level of a node.
pub(crate) fn render<C: TileChain, F: Shelf, O: Sink, R: Threads + Sync>(
    alloc: Global,
    line: RenderLine,
    session: &mut SessionState<IntOp>,
    chain: &mut C,
    shelf: &mut F,
    out: &mut O,
    workers: Workers<'_, R>,
) -> Result<(), Stop>
    requires over { IsOver same_operation int_meanings session.old (C.held chain.old) }
    requires limits { IsLevelRect line.level line.rect }
    ensures { CarriesCommand line.number (λ capacity state files. renders_named capacity line.number state line.name line.level line.rect line.file) result
        (record { parts = session.old; held = C.held chain.old; loans = C.loans chain.old; valid = C.is_valid chain.old; moment = record { files = F.files shelf.old; text = O.written out.old; reads = F.read_faults shelf.old; writes = F.write_faults shelf.old; puts = O.faults out.old; chain = C.counts chain.old } })
        (record { parts = session.new; held = C.held chain.new; loans = C.loans chain.new; valid = C.is_valid chain.new; moment = record { files = F.files shelf.new; text = O.written out.new; reads = F.read_faults shelf.new; writes = F.write_faults shelf.new; puts = O.faults out.new; chain = C.counts chain.new } }) }
{
    let mut purse = IntPurse::new(RENDER_PERMITS);
    let picture = session.render(
        &IntKit,
        chain,
        &mut purse,
        line.name,
        line.level,
        line.rect,
        PictureForm::Tiles,
        workers,
    )?;
    write_render(
        alloc,
        line.number,
        session.number(),
        picture,
        &line.file,
        shelf,
        out,
    )?;
    Ok(())
}

/// Writes the file of a render line, and puts its text.
fn write_render<F: Shelf, O: Sink>(
    alloc: Global,
    line: u32,
    commit: u64,
    picture: Picture,
    file: &FileName,
    shelf: &mut F,
    out: &mut O,
) -> Result<(), End>
    ensures leaves { (known : Option Image) → IfSome known (λ image. Shows image (picture_box picture) picture) →
        LeavesBytes known (picture_box picture) (picture_format picture)
        (λ bytes. events_alone (writes file.now bytes (text_of_render line commit (length bytes)))) result
        (record { files = F.files shelf.old; text = O.written out.old }) (record { files = F.files shelf.new; text = O.written out.new }) }
    ensures cause { HasCause result
        (record { reads = F.read_faults shelf.old; writes = F.write_faults shelf.old; puts = O.faults out.old })
        (record { reads = F.read_faults shelf.new; writes = F.write_faults shelf.new; puts = O.faults out.new }) }
{
    let text = render_text(alloc, line, commit, picture_bytes(&picture))?;
    write_picture(alloc, picture, file, shelf)?;
    put_text(&text, out)
}
