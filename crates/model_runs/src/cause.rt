//! Why a line of a script is refused.

use script_fields::ScriptCause;
use std::fmt;

/// Why a line of a script is refused, or the script as a whole, which is line 0. Displayed as it is
/// printed.
#[derive(Clone, Copy, Debug, PartialEq, Eq)]
pub enum Cause {
    /// The script's text is refused before any line is carried out.
    Grammar(ScriptCause),
    /// There is no file of that name.
    Absent,
    /// The script has more bytes than a script may have.
    TooLong,
    /// No buffer has the name.
    UnknownBuffer,
    /// A buffer has the new name already.
    NameTaken,
    /// A rectangle has positions outside its buffer, or outside the plane once it is moved.
    OutOfBounds,
    /// A file has not as many bytes as the rectangle has.
    WrongSize,
    /// Samples are no pixel of the format, two formats differ, or an operation does not take its
    /// inputs' formats.
    Formats,
    /// There are as many buffers as there may be.
    TooManyBuffers,
    /// An input of a node, its buffer, or a node to be removed is not there.
    UnknownInput,
    /// A node has not as many inputs as its operation.
    Arity,
    /// The box of a node is no rectangle in limits.
    Bounds,
    /// A node to be removed is an input of another.
    InUse,
    /// There are as many nodes as there may be.
    TooManyNodes,
    /// No commit is left to undo.
    NothingToUndo,
    /// No undo is left to redo.
    NothingToRedo,
    /// There are as many committed states as there may be.
    TooManyCommits,
    /// No node of the last committed state has the name.
    UnknownNode,
    /// A row of tiles needs more tiles of nodes than the cache holds.
    Strip,
}

impl fmt::Display for Cause {
    ghost use Rattle.std.specs.Prelude.{Some};
    ghost use Rattle.model_runs.specs.Texts.{cause_word};

    ghost output = { λ cause. Some (cause_word cause) };

    fn fmt<W: fmt::Write>(&self, f: &mut fmt::Formatter<W>) -> fmt::Result {
        f.write_str(match self {
            Cause::Grammar(cause) => cause.word(),
            Cause::Absent => "Absent",
            Cause::TooLong => "TooLong",
            Cause::UnknownBuffer => "UnknownBuffer",
            Cause::NameTaken => "NameTaken",
            Cause::OutOfBounds => "OutOfBounds",
            Cause::WrongSize => "WrongSize",
            Cause::Formats => "Formats",
            Cause::TooManyBuffers => "TooManyBuffers",
            Cause::UnknownInput => "UnknownInput",
            Cause::Arity => "Arity",
            Cause::Bounds => "Bounds",
            Cause::InUse => "InUse",
            Cause::TooManyNodes => "TooManyNodes",
            Cause::NothingToUndo => "NothingToUndo",
            Cause::NothingToRedo => "NothingToRedo",
            Cause::TooManyCommits => "TooManyCommits",
            Cause::UnknownNode => "UnknownNode",
            Cause::Strip => "Strip",
        })
    }
}
