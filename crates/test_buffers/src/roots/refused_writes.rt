//! Writes that the disk refuses.

ghost use Rattle.test_buffers.specs.Gray.{IsGray};

use crate::check::check;
use crate::roots::calls::{fill, new_root, part, put};
use root_tiles::Root;
use std::alloc::Global;
use std::process::Abort;
use tile_chain::TileChain;

/// Returns so many bytes, which are all 7.
fn sevens(rt: &impl Abort, alloc: Global, count: usize) -> Vec<u8> {
    vec![in alloc; 7; count].expect(rt, "memory")
}

/// Checks that the left column of four rows of tiles is what was written first.
fn check_column<C: TileChain>(rt: &impl Abort, root: &Root, chain: &mut C)
    requires { IsGray root.now (C.held chain.old) }
    ensures { IsGray root.now (C.held chain.new) }
{
    let column = part(rt, root, chain, [0, 0, 1, 256]).expect(rt, "a part");
    check(rt, "column", column.raw_bytes(), [9; 256].as_slice());
}

/// Writes over four rows of tiles that were written before, and returns whether that was refused. All that was written
/// before is unchanged if it was.
pub fn write_or_refuse<C: TileChain>(rt: &impl Abort, chain: &mut C, alloc: Global) -> bool {
    let fields = [0, 0, 64, 256];
    let mut root = new_root(chain, alloc, fields);
    fill(rt, &mut root, chain, fields, 9).expect(rt, "a write");
    let bytes = sevens(rt, alloc, 64 * 256);
    let refused = put(rt, &mut root, chain, fields, &bytes).is_err();
    if refused {
        check_column(rt, &root, chain);
    }
    root.release(chain);
    refused
}
