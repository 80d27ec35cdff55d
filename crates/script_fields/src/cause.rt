//! Why a line of a script is refused.

ghost use Rattle.std.specs.Prelude.{◌≡◌};
ghost use Rattle.script_fields.specs.declared.cause.LineAnswer.TheVariants as answers;
ghost use Rattle.script_fields.specs.declared.cause.ScriptAnswer.TheVariants as script_answers;

use alloc_basics::OutOfMemory;
use std::fmt;
use thiserror::Error;

/// Why a line of a script is refused. Of several causes the first in this order is reported.
#[derive(Clone, Copy, Debug, PartialEq, Eq, PartialOrd, Ord)]
pub enum ScriptCause {
    /// A byte is neither a tab nor one from the space to the tilde.
    NotAscii,
    /// The line has more than 1,024 bytes.
    LineTooLong,
    /// The line is the 10,001st.
    TooManyLines,
    /// The first word is no command, or the third of a node is no operation.
    UnknownCommand,
    /// The command or the operation has another number of words.
    Words,
    /// A number is written otherwise, or is out of its range.
    Number,
    /// A name, a name of a file, a format, a policy or a direction is none.
    Name,
    /// Four numbers are no rectangle that the command may have.
    Rect,
    /// A watch begins inside another or isn't ended, or is ended where none is open.
    Order,
}

/// The name of each cause, in the order of the variants.
const WORDS: [&str; 9] = [
    "NotAscii",
    "LineTooLong",
    "TooManyLines",
    "UnknownCommand",
    "Words",
    "Number",
    "Name",
    "Rect",
    "Order",
];

impl ScriptCause {
    ghost use Rattle.std.specs.Prelude.{◌≡◌};
    ghost use Rattle.script_fields.specs.Causes.{cause_word};

    /// Returns the name of the cause, as it is printed.
    pub fn word(self) -> &'static str
        ensures { result.now ≡ cause_word self }
    {
        WORDS[self as usize]
    }
}

impl fmt::Display for ScriptCause {
    ghost use Rattle.std.specs.Prelude.{Some};
    ghost use Rattle.script_fields.specs.Causes.{cause_word};

    ghost output = { λ cause. Some (cause_word cause) };

    fn fmt<W: fmt::Write>(&self, f: &mut fmt::Formatter<W>) -> fmt::Result {
        f.write_str(self.word())
    }
}

impl std::error::Error for ScriptCause {}

/// Why a text isn't read as a script.
#[derive(Clone, Copy, Debug, PartialEq, Eq, Error)]
pub enum ScriptAnswer {
    /// The line of this number, counted from 1, is the first that has a cause, and this is the
    /// lowest of its causes.
    #[error("line {line}: {cause}")]
    Refused { line: u32, cause: ScriptCause },
    /// Memory ran out.
    #[error("no memory was left")]
    NoMemory,
}

/// Why a line isn't read.
#[derive(Clone, Copy, Debug, PartialEq, Eq)]
pub enum LineAnswer {
    Refused(ScriptCause),
    NoMemory,
}

impl LineAnswer {
    ghost use Rattle.script_fields.specs.Answers.{at_line};

    /// Returns this answer with the number of its line, counted from 1.
    pub fn at(self, line: u32) -> ScriptAnswer
        ensures { result ≡ at_line line self }
    {
        match self {
            LineAnswer::Refused(cause) => ScriptAnswer::Refused { line, cause },
            LineAnswer::NoMemory => ScriptAnswer::NoMemory,
        }
    }
}

impl From<ScriptCause> for LineAnswer {
    ghost from_gives = { λ cause answer. answer ≡ answers.Refused cause };

    fn from(cause: ScriptCause) -> LineAnswer {
        LineAnswer::Refused(cause)
    }
}

impl<E: OutOfMemory> From<E> for LineAnswer {
    ghost from_gives = { λ _ answer. answer ≡ answers.NoMemory };

    fn from(_error: E) -> LineAnswer {
        LineAnswer::NoMemory
    }
}

impl<E: OutOfMemory> From<E> for ScriptAnswer {
    ghost from_gives = { λ _ answer. answer ≡ script_answers.NoMemory };

    fn from(_error: E) -> ScriptAnswer {
        ScriptAnswer::NoMemory
    }
}
