//! Lines that load a file into a buffer.
//!
//! A raster is read and put by bands of rows, so that no more than a band of it is in memory at once. The last band comes
//! first: its read tells whether the file is too short or too long, before a byte is put.

ghost use Rattle.std.specs.Prelude.{◌≡◌, ℕ, ◌+◌, ◌-◌, ◌*◌, ◌==◌, ◌<◌, ◌≤◌, ◌^◌, IfOk, IfSome, IsSomeAnd, IsTrue, List, Option, length};
ghost use Rattle.std.specs.Result.{OnOk};
ghost use Rattle.chain_owners.specs.Counts.{Counts};
ghost use Rattle.commit_session.specs.{Parts.working_facts, Seen.IsOver};
ghost use Rattle.model_buffers.specs.declared.edit.BufferEdit.TheVariants.{Put};
ghost use Rattle.model_graphs.specs.Facts.{fact_of};
ghost use Rattle.model_images.specs.FromRaw.{byte_count};
ghost use Rattle.model_operations.specs.Meanings.{int_meanings, same_operation};
ghost use Rattle.model_runs.specs.Effects.{loads};
ghost use Rattle.outside_io.specs.Files.{file as bytes_of};
ghost use Rattle.plane_rect.specs.Rectangle.{end_row as row_after, in_limits, plane_side};
ghost use Rattle.run_lines.specs.Moments.{HasFaults};
ghost use Rattle.run_lines.specs.Bands.{BeginsBand, IsReached, bytes_of_rows, rows_between as rows_of};
ghost use Rattle.run_lines.specs.Edited.{IsEdited, done};
ghost use Rattle.run_lines.specs.Rasters.{IsPart, IsTarget, Reads};
ghost use Rattle.run_lines.specs.Stops.{CarriesCommand, end_of};

use crate::stop::Stop;
use alloc_basics::NoMemory;
use chain_contracts::TileChain;
use commit_session::{SessionRefused, SessionState};
use model_buffers::{BufferEdit, RawBytes};
use model_operations::IntOp;
use model_runs::{Cause, End};
use outside_io::{Shelf, ShelfAnswer};
use pixel_formats::Format;
use plane_rect::{Name, Rect, TILE_SIDE};
use script_read::FileName;
use std::alloc::Global;
use std::thread::Threads;
use worker_pieces::Workers;

/// How many bytes a band has at most that several workers cut: a batch of tiles is worth splitting from 2 MiB on.
const SHARED_BAND_BYTES: u64 = 4 << 20;

/// Where a raster is put: a rectangle of a buffer, whose format it has.
#[derive(Clone, Copy)]
struct Target {
    name: Name,
    rect: Rect,
    format: Format,
}

/// Loads a file into a rectangle of a buffer.
pub(crate) fn load<C: TileChain, F: Shelf, R: Threads + Sync>(
    alloc: Global,
    name: Name,
    rect: Rect,
    file: &FileName,
    session: &mut SessionState<IntOp>,
    chain: &mut C,
    shelf: &mut F,
    workers: Workers<'_, R>,
) -> Result<(), Stop>
    requires over { IsOver same_operation int_meanings session.old (C.held chain.old) }
    requires limits { IsTrue (in_limits rect) }
    ensures { (line : ℕ) (text : Option (List ℕ)) (puts : ℕ) →
        CarriesCommand line (λ capacity state files. loads line state name rect (bytes_of files file.now)) result
        (record { parts = session.old; held = C.held chain.old; loans = C.loans chain.old; valid = C.is_valid chain.old; moment = record { files = F.files shelf.old; text = text; reads = F.read_faults shelf.old; writes = F.write_faults shelf.old; puts = puts; chain = C.counts chain.old } })
        (record { parts = session.new; held = C.held chain.new; loans = C.loans chain.new; valid = C.is_valid chain.new; moment = record { files = F.files shelf.new; text = text; reads = F.read_faults shelf.new; writes = F.write_faults shelf.new; puts = puts; chain = C.counts chain.new } }) }
{
    let Some(fact) = session.extent(name) else {
        return Err(Stop::Refused(Cause::UnknownBuffer));
    };
    if !fact.bounds.contains(&rect) {
        return Err(Stop::Refused(Cause::OutOfBounds));
    }
    let target = Target {
        name,
        rect,
        format: fact.format,
    };
    load_bands(alloc, &target, file, session, chain, shelf, workers)
}

/// Loads a file into a rectangle that its buffer has.
fn load_bands<C: TileChain, F: Shelf, R: Threads + Sync>(
    alloc: Global,
    target: &Target,
    file: &FileName,
    session: &mut SessionState<IntOp>,
    chain: &mut C,
    shelf: &mut F,
    workers: Workers<'_, R>,
) -> Result<(), Stop>
    requires over { IsOver same_operation int_meanings session.old (C.held chain.old) }
    requires limits { IsTrue (in_limits target.now.rect) }
    requires target { IsSomeAnd (fact_of (working_facts session.old) target.now.name) (IsTarget target.now.rect target.now.format) }
    ensures { (line : ℕ) (text : Option (List ℕ)) (puts : ℕ) →
        CarriesCommand line (λ capacity state files. loads line state target.now.name target.now.rect (bytes_of files file.now)) result
        (record { parts = session.old; held = C.held chain.old; loans = C.loans chain.old; valid = C.is_valid chain.old; moment = record { files = F.files shelf.old; text = text; reads = F.read_faults shelf.old; writes = F.write_faults shelf.old; puts = puts; chain = C.counts chain.old } })
        (record { parts = session.new; held = C.held chain.new; loans = C.loans chain.new; valid = C.is_valid chain.new; moment = record { files = F.files shelf.new; text = text; reads = F.read_faults shelf.new; writes = F.write_faults shelf.new; puts = puts; chain = C.counts chain.new } }) }
{
    let tile_rows = band_tile_rows(target, workers);
    let mut bytes = Vec::new(alloc);
    let mut end = target.rect.end_row();
    loop {
        let row = band_row(&target.rect, end, tile_rows);
        read_band(target, row, end, file, &mut bytes, shelf, workers)?;
        let band = rows_between(&target.rect, row, end);
        bytes = put_band(alloc, target.name, band, bytes, session, chain, workers)?;
        if row <= target.rect.first_row() {
            return Ok(());
        }
        end = row;
    }
}

/// Returns how many rows of tiles a band has at most: one, whose bytes mostly stay in the processor's caches until its tiles
/// are cut, or as many as are worth splitting among several workers, and at least one.
fn band_tile_rows<R: Threads + Sync>(target: &Target, workers: Workers<'_, R>) -> u32 {
    if !workers.are_several() {
        return 1;
    }
    let row_bytes = u64::from(target.rect.w).saturating_mul(u64::from(target.format.pixel_bytes()));
    let tile_row_bytes = row_bytes.saturating_mul(u64::from(TILE_SIDE));
    ((SHARED_BAND_BYTES / tile_row_bytes.max(1)) as u32).max(1)
}

/// Returns the row at which the last band of a rectangle's rows up to an end begins: the band has at most so many rows of
/// tiles, and at least one, and begins where a row of tiles does, or the rectangle.
fn band_row(rect: &Rect, end: u32, tile_rows: u32) -> u32
    requires { rect.now.first_row ≤ end }
    ensures { BeginsBand rect.now end result }
{
    let last = end.saturating_sub(1) / TILE_SIDE;
    let first = last.saturating_sub(tile_rows.saturating_sub(1)) * TILE_SIDE;
    first.max(rect.first_row())
}

/// Returns the columns of a rectangle in rows from a first up to an end.
fn rows_between(rect: &Rect, first: u32, end: u32) -> Rect
    requires { end ≤ plane_side }
    ensures { result ≡ rows_of rect.now first end }
{
    Rect::spanning(rect.first_column(), first, rect.end_column(), end)
}

/// Reads the bytes of a band's rows. Those of the last band are to be the last of the file.
fn read_band<F: Shelf, R: Threads + Sync>(
    target: &Target,
    row: u32,
    end: u32,
    file: &FileName,
    bytes: &mut Vec<u8>,
    shelf: &mut F,
    workers: Workers<'_, R>,
) -> Result<(), Stop>
    requires limits { IsTrue (in_limits target.now.rect) }
    requires reached { IsReached target.now.rect end }
    requires begins { BeginsBand target.now.rect end row }
    ensures read { IfSome (F.files shelf.old) (λ files.
        Reads (bytes_of files file.now) (bytes_of_rows target.now.rect target.now.format (row - target.now.rect.first_row))
        (bytes_of_rows target.now.rect target.now.format (end - row)) (end == row_after target.now.rect) (byte_count target.now.rect target.now.format)
        result bytes.new.items) }
    ensures length { IfOk result (λ _. length bytes.new.items ≡ bytes_of_rows target.now.rect target.now.format (end - row)) }
    ensures files { F.files shelf.new ≡ F.files shelf.old }
    ensures faults { (text : Option (List ℕ)) (puts : ℕ) (chain : Counts) → HasFaults (end_of result)
        (record { files = F.files shelf.old; text = text; reads = F.read_faults shelf.old; writes = F.write_faults shelf.old; puts = puts; chain = chain })
        (record { files = F.files shelf.new; text = text; reads = F.read_faults shelf.new; writes = F.write_faults shelf.new; puts = puts; chain = chain }) }
{
    let rect = &target.rect;
    let start = byte_len(target, row - rect.first_row());
    let count = byte_len(target, end - row);
    read_part(
        file,
        start,
        count as usize,
        end == rect.end_row(),
        bytes,
        shelf,
        workers,
    )
}

/// Returns how many bytes so many rows have.
fn byte_len(target: &Target, rows: u32) -> u64
    requires limits { IsTrue (in_limits target.now.rect) }
    requires rows { rows ≤ target.now.rect.height }
    ensures value { result ≡ bytes_of_rows target.now.rect target.now.format rows }
    ensures few { result < 2 ^ 40 }
{
    u64::from(target.rect.w) * u64::from(rows) * u64::from(target.format.pixel_bytes())
}

/// Reads so many bytes of a file from a position on, into a vector that was used before. Where they are the last
/// that are wanted, the file must end there: the vector has room for one byte more, which a file that is too long fills.
fn read_part<F: Shelf, R: Threads + Sync>(
    file: &FileName,
    start: u64,
    count: usize,
    is_last: bool,
    bytes: &mut Vec<u8>,
    shelf: &mut F,
    workers: Workers<'_, R>,
) -> Result<(), Stop>
    requires { count < 2 ^ 40 }
    ensures read { IfSome (F.files shelf.old) (λ files. (wanted : ℕ) → IsPart start count is_last wanted →
        Reads (bytes_of files file.now) start count is_last wanted result bytes.new.items) }
    ensures length { IfOk result (λ _. length bytes.new.items ≡ count) }
    ensures files { F.files shelf.new ≡ F.files shelf.old }
    ensures faults { (text : Option (List ℕ)) (puts : ℕ) (chain : Counts) → HasFaults (end_of result)
        (record { files = F.files shelf.old; text = text; reads = F.read_faults shelf.old; writes = F.write_faults shelf.old; puts = puts; chain = chain })
        (record { files = F.files shelf.new; text = text; reads = F.read_faults shelf.new; writes = F.write_faults shelf.new; puts = puts; chain = chain }) }
{
    make_room(bytes, count + usize::from(is_last))?;
    match shelf.read_part(file.as_str(), start, &mut bytes[..], workers) {
        Ok(found) if found == count => {
            bytes.truncate(count);
            Ok(())
        }
        Ok(_) | Err(ShelfAnswer::TooLong { .. }) => Err(Stop::Refused(Cause::WrongSize)),
        Err(ShelfAnswer::Absent) => Err(Stop::Refused(Cause::Absent)),
        Err(ShelfAnswer::Failed) => Err(Stop::Ended(End::ReadFault)),
        Err(ShelfAnswer::NoMemory) => Err(Stop::Ended(End::NoMemory)),
    }
}

/// Makes a vector have so many bytes, whichever they are.
///
/// # Errors
///
/// `NoMemory` if memory runs out.
fn make_room(bytes: &mut Vec<u8>, count: usize) -> Result<(), NoMemory>
    ensures { IfOk result (λ _. length bytes.new.items ≡ count) }
{
    bytes.resize(count, 0)?;
    Ok(())
}

/// Puts the bytes of a band, and returns their vector.
fn put_band<C: TileChain, R: Threads + Sync>(
    alloc: Global,
    name: Name,
    band: Rect,
    bytes: Vec<u8>,
    session: &mut SessionState<IntOp>,
    chain: &mut C,
    workers: Workers<'_, R>,
) -> Result<Vec<u8>, SessionRefused>
    requires over { IsOver same_operation int_meanings session.old (C.held chain.old) }
    ensures edited { IsEdited (Put name band bytes.items) (done result)
        (record { parts = session.old; held = C.held chain.old; counts = C.counts chain.old })
        (record { parts = session.new; held = C.held chain.new; counts = C.counts chain.new }) }
    ensures layout { OnOk result (session.new.versions.working.layout ≡ session.old.versions.working.layout) }
    ensures over { IsOver same_operation int_meanings session.new (C.held chain.new) }
    ensures loans { C.loans chain.new ≡ C.loans chain.old }
    ensures valid { C.is_valid chain.old → C.is_valid chain.new }
{
    let edit = BufferEdit::Put {
        name,
        rect: band,
        bytes: RawBytes::new(bytes),
    };
    session.edit(chain, &edit, workers)?;
    Ok(bytes_in(alloc, edit))
}

/// Returns the vector of the bytes that an edit puts, and an empty one of any other edit.
fn bytes_in(alloc: Global, edit: BufferEdit) -> Vec<u8> {
    match edit {
        BufferEdit::Put { bytes, .. } => bytes.into_vec(),
        _ => Vec::new(alloc),
    }
}
