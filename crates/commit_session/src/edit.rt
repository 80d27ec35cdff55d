//! Edits of sessions, as data.

ghost use Rattle.std.specs.Prelude.{◌≡◌};
ghost use Rattle.commit_session.specs.Edits.{step_of, step_of_part};

use model_buffers::{BufferEdit, RawBytes};
use model_graphs::NodeEdit;
use pixel_formats::{Format, PixelSamples};
use plane_rect::{Name, Rect};

/// An edit of a session: of the buffers that are edited, or of the nodes. Coordinates and sizes are in pixels.
#[derive(Drop)]
pub enum Edit<Op> {
    /// A new buffer of zeros, on a root of its own.
    Create {
        name: Name,
        format: Format,
        extent: Rect,
    },
    /// A new name for the part of a buffer that a rectangle contains, on the buffer's root.
    Sub {
        name: Name,
        parent: Name,
        rect: Rect,
    },
    /// A new buffer with the samples of another, on a root of its own.
    Dup {
        name: Name,
        from: Name,
    },
    /// Raw bytes over a buffer's rectangle.
    Load {
        name: Name,
        rect: Rect,
        bytes: RawBytes,
    },
    /// One pixel at each position of a buffer's rectangle.
    Fill {
        name: Name,
        rect: Rect,
        samples: PixelSamples,
    },
    /// The samples of a rectangle of one buffer, written `dx` to the right and `dy` down to another or the same.
    Copy {
        from: Name,
        to: Name,
        rect: Rect,
        dx: i64,
        dy: i64,
    },
    /// An edit of the nodes, which the next commit makes.
    Node(NodeEdit<Op>),
}

/// What an edit is made of: the buffers, or the nodes.
#[derive(Drop)]
pub(crate) enum EditPart<Op> {
    Buffer(BufferEdit),
    Node(NodeEdit<Op>),
}

impl<Op> Edit<Op> {
    /// Returns the edit as one of buffers or of nodes. Takes no memory.
    pub(crate) fn part(self) -> EditPart<Op>
        ensures { step_of_part result ≡ step_of self }
    {
        match self {
            Edit::Create {
                name,
                format,
                extent,
            } => EditPart::Buffer(BufferEdit::Create {
                name,
                format,
                extent,
            }),
            Edit::Sub { name, parent, rect } => EditPart::Buffer(BufferEdit::Sub {
                name,
                parent,
                rect,
            }),
            Edit::Dup { name, from } => EditPart::Buffer(BufferEdit::Duplicate { name, from }),
            Edit::Load { name, rect, bytes } => {
                EditPart::Buffer(BufferEdit::Put { name, rect, bytes })
            }
            Edit::Fill {
                name,
                rect,
                samples,
            } => EditPart::Buffer(BufferEdit::Fill {
                name,
                rect,
                samples,
            }),
            Edit::Copy {
                from,
                to,
                rect,
                dx,
                dy,
            } => EditPart::Buffer(BufferEdit::Copy {
                from,
                to,
                rect,
                dx,
                dy,
            }),
            Edit::Node(edit) => EditPart::Node(edit),
        }
    }
}
