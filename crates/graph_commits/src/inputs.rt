//! The inputs of a node while its damage is found.

use plane_rect::Rect;
use std::alloc::Global;

/// The positions of a node's inputs in the new state, and their boxes there. It is filled again for each
/// node, so that not each of them takes memory.
#[derive(Drop)]
pub(crate) struct Inputs {
    pub(crate) positions: Vec<usize>,
    pub(crate) boxes: Vec<Rect>,
}

impl Inputs {
    /// Returns no inputs, without memory.
    pub(crate) fn new(alloc: Global) -> Inputs {
        Inputs {
            positions: Vec::new(alloc),
            boxes: Vec::new(alloc),
        }
    }
}
