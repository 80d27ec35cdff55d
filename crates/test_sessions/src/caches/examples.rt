//! Small examples of either cache, whose lists are worked out by hand.

use crate::caches::steps::Step::{self, Keep, Look, Order, Void};
use tile_chain::SwapRefused;

/// Keeps two pairs, looks for the older one, and keeps a third: of at most two the one that wasn't looked
/// for falls off. A void of a tile leaves the pairs of the others.
pub const THREE_OF_TWO: [Step; 10] = [
    Keep(("n", 0, 0), 1, Ok(true)),
    Keep(("n", 1, 0), 2, Ok(true)),
    Look(("n", 0, 0), Ok(Some(1))),
    Keep(("n", 0, 1), 3, Ok(true)),
    Order(&[("n", 0, 1), ("n", 0, 0)]),
    Look(("n", 1, 0), Ok(None)),
    Order(&[("n", 0, 1), ("n", 0, 0)]),
    Void("n", [5, 5, 1, 1]),
    Order(&[("n", 0, 1)]),
    Look(("n", 0, 1), Ok(Some(3))),
];

/// Looks for pairs that are there, and for one of another node and one of another tile: each look that finds
/// something moves it to the front, and no other changes the order.
pub const LOOKS: [Step; 14] = [
    Keep(("n", -1, 0), 1, Ok(true)),
    Keep(("n", 0, -1), 2, Ok(true)),
    Keep(("m", 0, 0), 3, Ok(true)),
    Order(&[("m", 0, 0), ("n", 0, -1), ("n", -1, 0)]),
    Look(("n", -1, 0), Ok(Some(1))),
    Look(("m", 0, 0), Ok(Some(3))),
    Look(("n", 0, -1), Ok(Some(2))),
    Order(&[("n", 0, -1), ("m", 0, 0), ("n", -1, 0)]),
    Look(("n", 0, 0), Ok(None)),
    Look(("m", -1, 0), Ok(None)),
    Order(&[("n", 0, -1), ("m", 0, 0), ("n", -1, 0)]),
    Keep(("n", -1, 0), 9, Ok(false)),
    Look(("n", -1, 0), Ok(Some(1))),
    Order(&[("n", -1, 0), ("n", 0, -1), ("m", 0, 0)]),
];

/// Voids rectangles of fewer tiles than there are pairs, of more, and of none: the pairs of the node whose
/// tiles meet the rectangle go, and the others keep their order.
pub const VOIDS: [Step; 18] = [
    Keep(("n", 0, 0), 1, Ok(true)),
    Keep(("n", 1, 0), 2, Ok(true)),
    Keep(("n", -1, 0), 3, Ok(true)),
    Keep(("m", 0, 0), 4, Ok(true)),
    Keep(("m", 1, 0), 5, Ok(true)),
    Keep(("n", 0, 1), 6, Ok(true)),
    Void("n", [0, 0, 0, 0]),
    Void("k", [-640, -640, 1280, 1280]),
    Order(&[
        ("n", 0, 1),
        ("m", 1, 0),
        ("m", 0, 0),
        ("n", -1, 0),
        ("n", 1, 0),
        ("n", 0, 0),
    ]),
    Void("n", [63, 63, 2, 1]),
    Order(&[("n", 0, 1), ("m", 1, 0), ("m", 0, 0), ("n", -1, 0)]),
    Void("m", [64, -640, 640, 1280]),
    Order(&[("n", 0, 1), ("m", 0, 0), ("n", -1, 0)]),
    Void("n", [-640, -640, 1280, 640]),
    Order(&[("n", 0, 1), ("m", 0, 0), ("n", -1, 0)]),
    Void("n", [-640, 63, 1280, 640]),
    Order(&[("m", 0, 0)]),
    Look(("m", 0, 0), Ok(Some(4))),
];

/// Keeps two pairs over a disk whose first write and first read fail, of whose tiles one is in memory: a
/// refused call leaves the list as it was, and is made again.
pub const FAULTS: [Step; 10] = [
    Keep(("n", 0, 0), 1, Ok(true)),
    Keep(("n", 1, 0), 2, Err(SwapRefused::SwapFault)),
    Order(&[("n", 0, 0)]),
    Keep(("n", 1, 0), 2, Ok(true)),
    Order(&[("n", 1, 0), ("n", 0, 0)]),
    Look(("n", 0, 0), Err(SwapRefused::SwapFault)),
    Order(&[("n", 1, 0), ("n", 0, 0)]),
    Look(("n", 0, 0), Ok(Some(1))),
    Look(("n", 1, 0), Ok(Some(2))),
    Order(&[("n", 1, 0), ("n", 0, 0)]),
];

/// Keeps four pairs of which one stays, over a disk of one block: what falls off gives its room up.
pub const FOUR_OF_ONE: [Step; 7] = [
    Keep(("n", 0, 0), 1, Ok(true)),
    Keep(("n", 1, 0), 2, Ok(true)),
    Keep(("m", 0, 0), 3, Ok(true)),
    Keep(("m", 1, 0), 4, Ok(true)),
    Order(&[("m", 1, 0)]),
    Look(("m", 0, 0), Ok(None)),
    Look(("m", 1, 0), Ok(Some(4))),
];

/// The refusal of a tile by a disk without free blocks.
const FULL: SwapRefused = SwapRefused::SwapFull {
    needed: 1,
    longest: 0,
};

/// Keeps pairs of which all stay, until the disk of one block is full: the list is then as it was.
pub const UNTIL_FULL: [Step; 5] = [
    Keep(("n", 0, 0), 1, Ok(true)),
    Keep(("n", 1, 0), 2, Ok(true)),
    Keep(("n", 2, 0), 3, Err(FULL)),
    Order(&[("n", 1, 0), ("n", 0, 0)]),
    Look(("n", 1, 0), Ok(Some(2))),
];

/// Keeps two pairs in memory.
pub const TWO_KEPT: [Step; 3] = [
    Keep(("n", 0, 0), 1, Ok(true)),
    Keep(("n", 1, 0), 2, Ok(true)),
    Order(&[("n", 1, 0), ("n", 0, 0)]),
];
