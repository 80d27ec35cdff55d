//! Roots, and what buffers show of them, as plain data.

use pixel_formats::Format;
use plane_rect::{Name, Rect};

/// A root buffer: its name, its bounding box and its format.
#[derive(Clone, Copy, Debug, PartialEq, Eq)]
pub struct RootShape {
    pub name: Name,
    pub bounds: Rect,
    pub format: Format,
}

/// What a buffer shows: a part of a root, which the root's bounding box contains.
#[derive(Clone, Copy, Debug, PartialEq, Eq)]
pub struct RootView {
    /// The number of the root among the roots, in the order in which they were added.
    pub root: usize,
    /// The bounding box of the root.
    pub bounds: Rect,
    /// The format of the root, and so of the buffer.
    pub format: Format,
    /// The bounding box of the buffer.
    pub extent: Rect,
}

/// What a copy reads and writes: a rectangle of a source, which the caller knows, and the same moved in a
/// target.
#[derive(Clone, Copy, Debug, PartialEq, Eq)]
pub struct CopyParts {
    pub source: RootView,
    pub target: RootView,
    /// The moved rectangle, which the target's extent contains.
    pub moved: Rect,
}
