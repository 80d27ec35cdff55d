//! Refused edits, each cause before those that come later.

use crate::calls::{fill_refused, name, one_buffer};
use crate::check::check;
use buffer_layouts::EditRefused;
use buffer_view::{BufferRefused, Buffers};
use pixel_formats::Format;
use plane_rect::Name;
use std::alloc::Global;
use std::process::Abort;
use std::thread::Threads;
use test_nodes::rect;
use tile_chain::TileChain;
use worker_pieces::Workers;

/// The words of as many buffers as a table may have are made of a letter and of these.
const DIGITS: [u8; 8] = *b"01234567";

/// Checks why an edit is refused.
fn check_edit(rt: &impl Abort, answer: Result<(), BufferRefused>, wanted: EditRefused) {
    check(rt, "edit", answer, Err(BufferRefused::Edit(wanted)));
}

/// Adds a buffer for each of 64 names.
fn fill_table(rt: &impl Abort, buffers: &mut Buffers) {
    for high in &DIGITS {
        for low in &DIGITS {
            let name = Name::parse(&[b'n', *high, *low]).expect(rt, "a name");
            let created = buffers.create(name, Format::Y8, rect([0, 0, 1, 1]));
            created.expect(rt, "a buffer");
        }
    }
}

/// Adds buffers to a table of 64: a taken name is reported before the number, and an unknown parent before
/// the name.
pub fn add_too_many(rt: &impl Abort, alloc: Global) {
    let mut buffers = Buffers::new(alloc);
    fill_table(rt, &mut buffers);
    let extent = rect([0, 0, 1, 1]);
    let answer = buffers.create(name(rt, "n00"), Format::Y8, extent);
    check_edit(rt, answer, EditRefused::NameTaken);
    let answer = buffers.create(name(rt, "m"), Format::Y8, extent);
    check_edit(rt, answer, EditRefused::TooManyBuffers);
    let answer = buffers.sub(name(rt, "n00"), name(rt, "m"), extent);
    check_edit(rt, answer, EditRefused::UnknownBuffer);
    check(rt, "buffers", buffers.facts().len(), 64);
}

/// Writes to a buffer where that is refused.
pub fn write_refused<C: TileChain>(
    rt: &(impl Abort + Threads + Sync),
    chain: &mut C,
    alloc: Global,
) {
    let mut buffers = one_buffer(rt, chain, alloc, "a", [0, 0, 4, 1]);
    let unknown = BufferRefused::Edit(EditRefused::UnknownBuffer);
    fill_refused(rt, &mut buffers, chain, "b", [0, 0, 9, 1], &[], unknown);
    let outside = BufferRefused::Edit(EditRefused::OutOfBounds);
    fill_refused(rt, &mut buffers, chain, "a", [0, 0, 9, 1], &[], outside);
    let formats = BufferRefused::Edit(EditRefused::Formats);
    fill_refused(rt, &mut buffers, chain, "a", [0, 0, 4, 1], &[256], formats);
    let (extent, workers) = (rect([0, 0, 4, 1]), Workers::new(rt, 2));
    let answer = buffers.put_raw(chain, name(rt, "a"), extent, &[1, 2, 3], workers);
    let size = EditRefused::WrongSize {
        found: 3,
        wanted: 4,
    };
    check_edit(rt, answer, size);
    let answer = buffers.copy(chain, name(rt, "a"), name(rt, "a"), extent, 1, 0);
    check_edit(rt, answer, EditRefused::OutOfBounds);
    buffers.release(chain);
}
