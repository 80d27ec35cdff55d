//! The edits of tables, as data.

use alloc_basics::ItemList;
use pixel_formats::{Format, PixelSamples};
use plane_rect::{Name, Rect};

/// The raw bytes of a rectangle, row by row from the top, each row from the left. A clause sees their list.
pub type RawBytes = ItemList<u8>;

/// An edit of a table of buffers. Coordinates and sizes are in pixels.
#[derive(Drop)]
pub enum BufferEdit {
    /// A new buffer of zeros, on a root of its own.
    Create {
        name: Name,
        format: Format,
        extent: Rect,
    },
    /// A new name for the part of a buffer that a rectangle contains, on the buffer's root.
    Sub {
        name: Name,
        parent: Name,
        rect: Rect,
    },
    /// A new buffer with the samples of another, on a root of its own.
    Duplicate {
        name: Name,
        from: Name,
    },
    /// One pixel at each position of a buffer's rectangle.
    Fill {
        name: Name,
        rect: Rect,
        samples: PixelSamples,
    },
    /// Raw bytes over a buffer's rectangle.
    Put {
        name: Name,
        rect: Rect,
        bytes: RawBytes,
    },
    /// The samples of a rectangle of one buffer, written `dx` to the right and `dy` down to another or the same.
    Copy {
        from: Name,
        to: Name,
        rect: Rect,
        dx: i64,
        dy: i64,
    },
}
