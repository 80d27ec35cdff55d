//! Runs of blocks of a swap disk.

/// Blocks beside one another.
#[derive(Clone, Copy, Debug, PartialEq, Eq)]
pub struct Run {
    /// The number of the first block.
    pub first: u32,
    /// How many blocks there are.
    pub count: u32,
}
