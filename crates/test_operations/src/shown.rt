//! Operations on small images.

use int_ops::{IntKit, IntOp, IntPurse};
use op_contracts::{Window, WindowTiles};
use patch_abyss::Patch;
use pixel_formats::Format;
use plane_rect::TileAt;
use std::alloc::Global;
use std::process::Abort;
use test_kit::applied_part;
use test_nodes::rect;

/// A rectangle by x, y, width and height.
pub type Fields = [i64; 4];

/// Returns the operation that words are, with names of its inputs.
pub fn op_of(rt: &impl Abort, alloc: Global, words: &str) -> IntOp {
    test_nodes::operation(alloc, words).expect(rt, "an operation")
}

/// Returns the window that shows a whole image by all of its tiles.
pub fn window(
    rt: &impl Abort,
    alloc: Global,
    bounds: Fields,
    format: Format,
    raw: &[u8],
) -> Window {
    let bounds = rect(bounds);
    let patch = Patch::from_raw(alloc, bounds, format, raw).expect(rt, "an image");
    let mut entries = Vec::new(alloc);
    for at in bounds.tiles() {
        let tile = patch.tile(alloc, at).expect(rt, "memory");
        entries.push((at, tile)).expect(rt, "memory");
    }
    Window::new(bounds, format, bounds, WindowTiles::new(entries))
}

/// Returns the bytes that decimal numbers are.
pub fn bytes_of(rt: &impl Abort, alloc: Global, text: &str) -> Vec<u8> {
    let mut bytes = Vec::new(alloc);
    for word in text.split_whitespace() {
        let byte = word.parse::<u8>().expect(rt, "a byte");
        bytes.push(byte).expect(rt, "memory");
    }
    bytes
}

/// Returns the window of a row of pixels from the origin on.
pub fn row_of(rt: &impl Abort, alloc: Global, format: Format, text: &str) -> Window {
    let raw = bytes_of(rt, alloc, text);
    let pixels = raw.len() / format.pixel_bytes() as usize;
    window(rt, alloc, [0, 0, pixels as i64, 1], format, &raw)
}

/// Returns a part of what an operation gives of windows, in the tile where it begins, if it takes them.
pub fn applied(
    rt: &impl Abort,
    alloc: Global,
    op: &IntOp,
    windows: &[Window],
    out: Fields,
) -> Option<Patch> {
    let out = rect(out);
    let tile = TileAt::of_position(out.first_column(), out.first_row());
    let mut purse = IntPurse::new(1);
    applied_part(&IntKit, alloc, &mut purse, op, windows, tile, out).expect(rt, "memory")
}

/// Checks the raw bytes that the operation of a row gives over a rectangle, and tells the row and both where they aren't
/// these.
pub fn check(
    rt: &impl Abort,
    alloc: Global,
    row: usize,
    op: &IntOp,
    windows: &[Window],
    out: Fields,
    raw: &[u8],
) {
    let patch = applied(rt, alloc, op, windows, out).expect(rt, "a part of a result");
    let found = patch.raw_bytes();
    assert!(rt; found == raw, "row {row}: found {found:?}, wanted {raw:?}");
}
