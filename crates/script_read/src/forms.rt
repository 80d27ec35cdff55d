//! The forms of lines: which words a command has, and what each of them has to be.

ghost use Rattle.std.specs.Prelude.{◌≡◌};
ghost use Rattle.script_read.specs.Forms.{command_kinds, node_kinds};

use crate::keyword::Keyword;
use crate::operation_word::OperationWord;
use pixel_formats::limits::{
    MAX_CHECKER_SIZE, MAX_FACTOR, MAX_FRAMES, MAX_LEVEL, MAX_MOVE, MAX_RADIUS, MAX_SAMPLE,
    MAX_VIEWERS,
};
use script_fields::Kind::{
    self, AreaPolicy, Direction, File, Format, Integer, Name, Natural, Operation, Policy, Prefix,
};
use script_fields::{ScriptCause, word_at};

/// A column, a row, a width or a height, in pixels.
const PIXELS: Kind = Integer {
    low: -(1 << 31),
    high: (1 << 31) - 1,
};

/// How far something is moved along an axis, in pixels.
const MOVE: Kind = Integer {
    low: -MAX_MOVE,
    high: MAX_MOVE,
};

/// A sample of any format.
const SAMPLE: Kind = Natural {
    low: 0,
    high: MAX_SAMPLE,
};

/// What a gain multiplies by.
const FACTOR: Kind = Natural {
    low: 0,
    high: MAX_FACTOR,
};

/// What a gain divides by.
const DIVISOR: Kind = Natural {
    low: 1,
    high: MAX_FACTOR,
};

const LEVEL: Kind = Natural {
    low: 0,
    high: MAX_LEVEL,
};

const RADIUS: Kind = Natural {
    low: 1,
    high: MAX_RADIUS,
};

const CHECKER_SIZE: Kind = Natural {
    low: 1,
    high: MAX_CHECKER_SIZE,
};

const VIEWERS: Kind = Natural {
    low: 1,
    high: MAX_VIEWERS,
};

const FRAMES: Kind = Natural {
    low: 1,
    high: MAX_FRAMES,
};

/// The most words of a line after the first.
pub(crate) const MAX_WORDS: usize = 11;

/// The words of a fill, of which one sample at least is there.
static FILL: [Kind; 9] = [
    Name, PIXELS, PIXELS, PIXELS, PIXELS, SAMPLE, SAMPLE, SAMPLE, SAMPLE,
];

/// The words of a node of one color, of which one sample at least is there.
static COLOR: [Kind; 11] = [
    Name, Operation, Format, PIXELS, PIXELS, PIXELS, PIXELS, SAMPLE, SAMPLE, SAMPLE, SAMPLE,
];

/// The words of a node of a checker.
static CHECKER: [Kind; 10] = [
    Name,
    Operation,
    Format,
    PIXELS,
    PIXELS,
    PIXELS,
    PIXELS,
    CHECKER_SIZE,
    SAMPLE,
    SAMPLE,
];

/// The form of a line: its command, or of a node its operation.
#[derive(Clone, Copy, Debug)]
pub(crate) enum Form {
    Command(Keyword),
    Node(OperationWord),
}

impl Form {
    ghost use Rattle.std.specs.Prelude.{◌≡◌, ◌<◌, length};
    ghost use Rattle.script_fields.specs.Fields.{texts};
    ghost use Rattle.script_read.specs.Forms.{form_of, kinds_of};

    /// Returns the form of words, by the first and the third of them.
    ///
    /// # Errors
    ///
    /// `UnknownCommand` exactly where one of them names nothing, and `Words` exactly where a node has
    /// no third.
    pub fn parse(words: &[&[u8]]) -> Result<Form, ScriptCause>
        requires { 0 < length words.now }
        ensures { result ≡ form_of (texts words.now) }
    {
        let unknown = ScriptCause::UnknownCommand;
        let keyword = Keyword::parse(word_at(words, 0)).ok_or(unknown)?;
        if keyword != Keyword::Node {
            return Ok(Form::Command(keyword));
        }
        if words.len() < 3 {
            return Err(ScriptCause::Words);
        }
        let operation = OperationWord::parse(word_at(words, 2)).ok_or(unknown)?;
        Ok(Form::Node(operation))
    }

    /// Returns what the words after the first have to be, of which there are so many. As many kinds
    /// are returned exactly where that is a number of words that the line may have.
    pub fn kinds(self, count: usize) -> &'static [Kind]
        ensures { result.now ≡ kinds_of self count }
    {
        match self {
            Form::Command(keyword) => command_kinds(keyword, count),
            Form::Node(operation) => node_kinds(operation, count),
        }
    }
}

/// Returns what the words of a command have to be, of which there are so many after the first. Those
/// of a node are told by its operation.
pub(crate) fn command_kinds(keyword: Keyword, count: usize) -> &'static [Kind]
    ensures { result.now ≡ command_kinds keyword count }
{
    match keyword {
        Keyword::Buffer => &[Name, Format, PIXELS, PIXELS, PIXELS, PIXELS],
        Keyword::Sub => &[Name, Name, PIXELS, PIXELS, PIXELS, PIXELS],
        Keyword::Dup => &[Name, Name],
        Keyword::Load => &[Name, PIXELS, PIXELS, PIXELS, PIXELS, File],
        Keyword::Fill => &FILL[..count.max(6).min(9)],
        Keyword::Copy => &[Name, Name, PIXELS, PIXELS, PIXELS, PIXELS, MOVE, MOVE],
        Keyword::Node | Keyword::Drop => &[Name],
        Keyword::Render => &[Name, LEVEL, PIXELS, PIXELS, PIXELS, PIXELS, File],
        Keyword::Grab => &[Name, LEVEL, Policy, PIXELS, PIXELS, PIXELS, PIXELS, File],
        Keyword::Watch => &[
            Name, PIXELS, PIXELS, PIXELS, PIXELS, VIEWERS, FRAMES, Prefix,
        ],
        Keyword::Commit | Keyword::Undo | Keyword::Redo | Keyword::EndWatch => &[],
    }
}

/// Returns what the words of a node with an operation have to be, of which there are so many after
/// the first.
pub(crate) fn node_kinds(operation: OperationWord, count: usize) -> &'static [Kind]
    ensures { result.now ≡ node_kinds operation count }
{
    match operation {
        OperationWord::Source => &[Name, Operation, Name],
        OperationWord::Color => &COLOR[..count.max(8).min(11)],
        OperationWord::Checker => &CHECKER,
        OperationWord::Convert => &[Name, Operation, Format, Name],
        OperationWord::Invert => &[Name, Operation, Name],
        OperationWord::Threshold => &[Name, Operation, SAMPLE, Name],
        OperationWord::Gain => &[Name, Operation, FACTOR, DIVISOR, Name],
        OperationWord::Translate => &[Name, Operation, MOVE, MOVE, Name],
        OperationWord::Crop => &[Name, Operation, PIXELS, PIXELS, PIXELS, PIXELS, Name],
        OperationWord::Flip => &[Name, Operation, Direction, Name],
        OperationWord::BoxMean | OperationWord::Dilate | OperationWord::Erode => {
            &[Name, Operation, RADIUS, AreaPolicy, Name]
        }
        OperationWord::Add | OperationWord::Over | OperationWord::Mask => {
            &[Name, Operation, Name, Name]
        }
    }
}
