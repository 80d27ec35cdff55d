//! Lists of calls on a root, each with what is wanted of it.

ghost use Rattle.test_buffers.specs.Gray.{IsGray};

use crate::check::check;
use crate::roots::calls::{check_rows, fill, new_root, put, share_and_release};
use crate::roots::views::{Fields, First, Part, first_tile, read_part};
use root_tiles::Root;
use std::alloc::Global;
use std::process::Abort;
use tile_chain::TileChain;

/// A call on a root of gray pixels.
#[derive(Clone, Copy)]
pub enum Step {
    /// Writes bytes over a rectangle of the box.
    Put(Fields, &'static [u8]),

    /// Writes one byte everywhere in a rectangle of the box.
    Fill(Fields, u8),

    /// Shares the root, and gives the other one up.
    Share,

    /// Checks the first bytes of a tile at the origin, and that its next byte is 0.
    First(First, &'static [u8]),

    /// Checks the bytes of a part.
    Part(Part, &'static [u8]),

    /// Checks that each row of a part of the box is the part of this row alone.
    Rows(Fields),
}

/// The box of a root of zeros, and steps on it.
pub type Example = (Fields, &'static [Step]);

/// Checks the first bytes of a tile, and that the next one is 0.
fn check_bytes(rt: &impl Abort, row: usize, bytes: &[u8], wanted: &[u8]) {
    check(rt, row, bytes.get(..wanted.len()), Some(wanted));
    check(rt, row, bytes.get(wanted.len()), Some(&0));
}

/// Makes one step.
fn make_step<C: TileChain>(rt: &impl Abort, root: &mut Root, chain: &mut C, row: usize, step: Step)
    requires { IsGray root.old (C.held chain.old) }
    ensures { IsGray root.new (C.held chain.new) }
{
    match step {
        Step::Put(fields, bytes) => put(rt, root, chain, fields, bytes).expect(rt, "a write"),
        Step::Fill(fields, byte) => fill(rt, root, chain, fields, byte).expect(rt, "a write"),
        Step::Share => share_and_release(root, chain).expect(rt, "memory"),
        Step::First(of, wanted) => {
            let tile = first_tile(rt, root, chain, of).expect(rt, "a tile");
            check_bytes(rt, row, tile.bytes(), wanted);
        }
        Step::Part(of, wanted) => {
            let part = read_part(rt, root, chain, of).expect(rt, "a part");
            check(rt, row, part.raw_bytes(), wanted);
        }
        Step::Rows(fields) => check_rows(rt, root, chain, fields),
    }
}

/// Makes the steps of an example, and gives its root up.
pub fn make<C: TileChain>(rt: &impl Abort, chain: &mut C, alloc: Global, (bounds, steps): Example) {
    let mut root = new_root(chain, alloc, bounds);
    for (row, step) in steps.iter().enumerate() {
        make_step(rt, &mut root, chain, row, *step);
    }
    root.release(chain);
}
