//! The commands of scripts.

use crate::keyword::Keyword;
use crate::operation_word::OperationWord;
use crate::variants::same_variant;
use model_operations::IntOp;
use pixel_formats::{Abyss, Format, PixelSamples};
use plane_rect::{Name, NameList, Rect};
use script_fields::FileName;

/// A command, and the number of its line in the script, counted from 1.
#[derive(Drop)]
pub struct Line {
    pub number: u32,
    pub command: Command,
}

/// What a line of a script asks for. Coordinates and sizes are in pixels, samples are from 0 to the
/// format's largest, and a level halves the image so many times.
#[derive(Drop)]
pub enum Command {
    /// A new buffer over a rectangle, all zeros.
    Buffer {
        name: Name,
        format: Format,
        rect: Rect,
    },
    /// A new name for a part of a buffer, which shares its samples.
    Sub {
        name: Name,
        parent: Name,
        rect: Rect,
    },
    /// A new buffer with the samples of another.
    Dup {
        name: Name,
        from: Name,
    },
    /// A buffer's rectangle gets the samples of a file of raw bytes.
    Load {
        name: Name,
        rect: Rect,
        file: FileName,
    },
    /// A buffer's rectangle gets one pixel at each position.
    Fill {
        name: Name,
        rect: Rect,
        samples: PixelSamples,
    },
    /// A buffer's rectangle is copied to other positions of it or of another buffer, `dx` pixels to
    /// the right and `dy` down.
    Copy {
        from: Name,
        to: Name,
        rect: Rect,
        dx: i64,
        dy: i64,
    },
    /// A node of the graph is made, or made anew.
    Node {
        name: Name,
        op: OpWords,
        inputs: NameList,
    },
    /// A node is removed.
    Drop {
        name: Name,
    },
    /// The buffers and nodes as they are become the graph's state.
    Commit,
    /// The state before the last commit comes back.
    Undo,
    /// The state that was undone comes back.
    Redo,
    /// A rectangle of a node at a level is written to a file of raw bytes.
    Render {
        name: Name,
        level: u32,
        rect: Rect,
        file: FileName,
    },
    /// A rectangle of a buffer at a level is written to a file, with a policy for the positions outside.
    Grab {
        name: Name,
        level: u32,
        abyss: Abyss,
        rect: Rect,
        file: FileName,
    },
    /// From here on viewers render a rectangle of a node, each so many frames, to files whose names begin with
    /// `prefix`.
    Watch {
        name: Name,
        rect: Rect,
        viewers: u32,
        frames: u32,
        prefix: FileName,
    },
    /// The watch ends.
    EndWatch,
}

impl Command {
    ghost use Rattle.std.specs.Prelude.{◌≡◌};
    ghost use Rattle.script_read.specs.Spelling.{keyword};

    /// Returns its first word.
    pub(crate) fn keyword(&self) -> Keyword
        ensures { result ≡ keyword self.now }
    {
        same_variant!(self, Command => Keyword:
            Buffer, Sub, Dup, Load, Fill, Copy, Node, Drop, Commit, Undo, Redo, Render, Grab, Watch,
            EndWatch)
    }
}

/// What a node does, as the language writes it.
#[derive(Drop)]
pub enum OpWords {
    /// The samples of a buffer.
    Source { buffer: Name },
    /// An operation on the images of the inputs.
    Compute { op: IntOp },
}

impl OpWords {
    ghost use Rattle.std.specs.Prelude.{◌≡◌};
    ghost use Rattle.script_read.specs.Spelling.{word_of};

    /// Returns the third word of its node.
    pub(crate) fn word(&self) -> OperationWord
        ensures { result ≡ word_of self.now }
    {
        match self {
            OpWords::Source { .. } => OperationWord::Source,
            OpWords::Compute { op } => OperationWord::of(op),
        }
    }
}
