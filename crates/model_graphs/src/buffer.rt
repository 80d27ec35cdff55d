//! Buffers as graphs read them, as plain data.

use pixel_formats::Format;
use plane_rect::{Name, Rect};

/// What a graph knows of a buffer: its name, the root buffer that it is a view on, its bounding box
/// and its format.
#[derive(Clone, Copy, Debug, PartialEq, Eq)]
pub struct BufferFact {
    pub name: Name,
    pub root: Name,
    pub bounds: Rect,
    pub format: Format,
}

/// A rectangle of a root buffer that was written.
#[derive(Clone, Copy, Debug, PartialEq, Eq)]
pub struct Edited {
    pub root: Name,
    pub rect: Rect,
}
