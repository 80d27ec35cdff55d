//! Small examples, whose results are worked out by hand.

use crate::steps::Step::{self, Add, Disown, Flush, Own, Read, Replace};
use tile_chain::SwapRefused;

/// The refusal of a page by a disk without free blocks.
const FULL: SwapRefused = SwapRefused::SwapFull {
    needed: 1,
    longest: 0,
};

/// Gives two names other pages, and one of them two owners, and checks what is read.
pub const TWO_NAMES: [Step; 13] = [
    Add(1, None),
    Add(2, None),
    Read(0, Ok(1)),
    Read(1, Ok(2)),
    Own(0, 2),
    Disown(0, 1),
    Replace(0, 3),
    Read(1, Ok(2)),
    Read(0, Ok(3)),
    Disown(0, 0),
    Read(0, Ok(0)),
    Flush,
    Read(1, Ok(2)),
];

/// Adds names until the disk, which has one block and fails at first, is full, and goes on after one
/// of them went: one page is on the disk, and one in memory.
pub const UNTIL_FULL: [Step; 9] = [
    Add(1, None),
    Add(2, Some(SwapRefused::SwapFault)),
    Read(0, Ok(1)),
    Add(2, None),
    Add(3, Some(FULL)),
    Read(1, Ok(2)),
    Disown(0, 0),
    Add(3, None),
    Read(2, Ok(3)),
];

/// Reads two pages by turns, of which one is in memory, over a disk whose third write fails. Each was
/// written when it first left memory, and the next write comes only after one was replaced.
pub const BY_TURNS: [Step; 9] = [
    Add(1, None),
    Add(2, None),
    Read(0, Ok(1)),
    Read(1, Ok(2)),
    Read(0, Ok(1)),
    Replace(0, 3),
    Read(1, Err(SwapRefused::SwapFault)),
    Read(1, Ok(2)),
    Read(0, Ok(3)),
];

/// Names four pages over a disk of two blocks, of which two are in memory. The one that came back from the
/// disk gives its block up when another one needs it: two are then on the disk, and two in memory.
pub const BLOCK_GIVEN_UP: [Step; 10] = [
    Add(1, None),
    Add(2, None),
    Add(3, None),
    Read(0, Ok(1)),
    Add(4, None),
    Read(1, Err(FULL)),
    Disown(2, 0),
    Read(1, Ok(2)),
    Read(0, Ok(1)),
    Read(3, Ok(4)),
];
