//! Calls on roots of gray pixels, on rectangles of four numbers.

ghost use Rattle.std.specs.Prelude.{◌≡◌};
ghost use Rattle.plane_rect.specs.Rectangle.{InLimits, Includes};
ghost use Rattle.test_buffers.specs.Gray.{IsGray};

use crate::check::check;
use alloc_basics::NoMemory;
use chain_owners::SwapRefused;
use patch_abyss::Patch;
use pixel_formats::Format;
use plane_rect::Rect;
use root_tiles::{Root, new_roots_are_blank, other_roots_are_unchanged};
use std::alloc::Global;
use std::process::Abort;
use test_nodes::rect;
use tile_chain::TileChain;

/// Returns the rectangle of four fields, which is to be in the root's box.
pub fn rect_inside(rt: &impl Abort, root: &Root, fields: [i64; 4]) -> Rect
    ensures inside { Includes root.now.box result }
    ensures limits { InLimits result }
{
    let rect = rect(fields);
    assert!(rt; root.bounds().contains(&rect));
    rect
}

/// Returns a root of zeros.
pub fn new_root<C: TileChain>(chain: &C, alloc: Global, fields: [i64; 4]) -> Root
    ensures { IsGray result (C.held chain.now) }
{
    new_roots_are_blank();
    Root::new(alloc, Format::Y8, rect(fields))
}

/// Writes bytes over a rectangle of the box.
pub fn put<C: TileChain>(
    rt: &impl Abort,
    root: &mut Root,
    chain: &mut C,
    fields: [i64; 4],
    bytes: &[u8],
) -> Result<(), SwapRefused>
    requires { IsGray root.old (C.held chain.old) }
    ensures { IsGray root.new (C.held chain.new) }
{
    let rect = rect_inside(rt, root, fields);
    assert!(rt; bytes.len() as u64 == rect.area());
    root.put_raw_alone(chain, rect, bytes)
}

/// Writes one byte everywhere in a rectangle of the box.
pub fn fill<C: TileChain>(
    rt: &impl Abort,
    root: &mut Root,
    chain: &mut C,
    fields: [i64; 4],
    byte: u8,
) -> Result<(), SwapRefused>
    requires { IsGray root.old (C.held chain.old) }
    ensures { IsGray root.new (C.held chain.new) }
{
    let rect = rect_inside(rt, root, fields);
    root.fill(chain, rect, &[u32::from(byte)])
}

/// Returns a part of the box.
pub fn part<C: TileChain>(
    rt: &impl Abort,
    root: &Root,
    chain: &mut C,
    fields: [i64; 4],
) -> Result<Patch, SwapRefused>
    requires { IsGray root.now (C.held chain.old) }
    ensures { IsGray root.now (C.held chain.new) }
{
    let rect = rect_inside(rt, root, fields);
    root.part(chain, rect)
}

/// Checks that each row of a part of the box is the part of this row alone.
pub fn check_rows<C: TileChain>(rt: &impl Abort, root: &Root, chain: &mut C, fields: [i64; 4])
    requires { IsGray root.now (C.held chain.old) }
    ensures { IsGray root.now (C.held chain.new) }
{
    let rect = rect(fields);
    let whole = part(rt, root, chain, fields).expect(rt, "a part");
    for row in rect.first_row()..rect.end_row() {
        let line = Rect::spanning(rect.first_column(), row, rect.end_column(), row + 1);
        check_line(rt, root, chain, &whole, line);
    }
}

/// Checks that a line of a part is the part of this line alone.
fn check_line<C: TileChain>(rt: &impl Abort, root: &Root, chain: &mut C, whole: &Patch, line: Rect)
    requires { IsGray root.now (C.held chain.old) }
    ensures { IsGray root.now (C.held chain.new) }
{
    assert!(rt; root.bounds().contains(&line));
    assert!(rt; line.in_limits());
    let part = root.part(chain, line).expect(rt, "a line");
    let cut = whole.part(root.allocator(), line).expect(rt, "memory");
    check(rt, line, cut.raw_bytes(), part.raw_bytes());
}

/// Shares a root, and gives the other one up.
pub fn share_and_release<C: TileChain>(root: &Root, chain: &mut C) -> Result<(), NoMemory>
    requires { IsGray root.now (C.held chain.old) }
    ensures { IsGray root.now (C.held chain.new) }
{
    other_roots_are_unchanged();
    let shared = root.share(chain)?;
    shared.release(chain);
    Ok(())
}
