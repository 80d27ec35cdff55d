//! The fields of commands, printed. If memory runs out, some of the words may have been appended.

ghost use Rattle.std.specs.Prelude.{◌≡◌, ◌∷◌, ◌++◌, decimal, map, IsTrue, OnOk};
ghost use Rattle.std.specs.Fmt.{signed_decimal};
ghost use Rattle.script_words.specs.Words.{spaced};
ghost use Rattle.plane_rect.specs.Rectangle.{IsRectangle};
ghost use Rattle.script_fields.specs.Spelling.{AreNames, PutsFields, field_words};

use alloc_basics::NoMemory;
use pixel_formats::{Abyss, Format};
use plane_rect::{Name, Rect};
use script_words::{FileName, push_integer, push_natural, push_word};

/// A field of a command: what one word is, or a rectangle's four as they are printed.
#[derive(Clone, Copy, Debug, PartialEq)]
pub enum Field {
    Name(Name),
    File(FileName),
    Format(Format),
    Policy(Abyss),
    Natural(u32),
    Integer(i64),
    Sideways(bool),
    /// The word of a node's operation, which is printed apart.
    Operation,
    Rect(Rect),
}

impl Field {
    ghost use Rattle.std.specs.Prelude.{◌≡◌, ◌++◌, OnOk};
    ghost use Rattle.script_words.specs.Words.{spaced};
    ghost use Rattle.script_fields.specs.Spelling.{IsValid, field_words};

    /// Appends its words to a text, each after a space.
    fn put(&self, text: &mut Vec<u8>) -> Result<(), NoMemory>
        ensures text { OnOk result (text.new.items ≡ text.old.items ++ spaced (field_words self.now)) }
        ensures valid { OnOk result (IsValid self.now) }
    {
        match self {
            Field::Name(name) => push_word(text, name.as_bytes()),
            Field::File(file) => push_word(text, file.as_bytes()),
            Field::Format(format) => push_word(text, format.word().as_bytes()),
            Field::Policy(policy) => push_word(text, policy.word().as_bytes()),
            Field::Natural(value) => push_natural(text, *value),
            Field::Integer(value) => push_integer(text, *value),
            Field::Sideways(true) => push_word(text, b"h"),
            Field::Sideways(false) => push_word(text, b"v"),
            Field::Operation => Ok(()),
            Field::Rect(rect) => put_rect(text, rect),
        }
    }
}

/// Appends the four numbers of a rectangle to a text, each after a space.
fn put_rect(text: &mut Vec<u8>, rect: &Rect) -> Result<(), NoMemory>
    ensures text { OnOk result (text.new.items ≡ text.old.items ++ spaced (field_words (Field.Rect rect.now))) }
    ensures valid { OnOk result (IsRectangle rect.now) }
{
    push_integer(text, i64::from(rect.x))?;
    push_integer(text, i64::from(rect.y))?;
    push_integer(text, i64::from(rect.w))?;
    push_integer(text, i64::from(rect.h))?;
    Ok(())
}

/// Appends the words of fields to a text, each after a space.
///
/// # Errors
///
/// `NoMemory` if memory runs out. The text then has some of the words at its end.
pub fn put_fields(text: &mut Vec<u8>, fields: &[Field]) -> Result<(), NoMemory>
    ensures { PutsFields fields.now result text.old.items text.new.items }
{
    for field in fields {
        field.put(text)?;
    }
    Ok(())
}

/// Appends names to a text, each after a space.
///
/// # Errors
///
/// As [`put_fields`].
pub fn put_names(text: &mut Vec<u8>, names: &[Name]) -> Result<(), NoMemory>
    ensures text { OnOk result (text.new.items ≡ text.old.items ++ spaced names.now) }
    ensures valid { OnOk result (AreNames names.now) }
{
    for name in names {
        push_word(text, name.as_bytes())?;
    }
    Ok(())
}

/// Appends samples to a text, each after a space.
///
/// # Errors
///
/// As [`put_fields`].
pub fn put_samples(text: &mut Vec<u8>, samples: &[u32]) -> Result<(), NoMemory>
    ensures { OnOk result (text.new.items ≡ text.old.items ++ spaced (map decimal samples.now)) }
{
    for sample in samples {
        push_natural(text, *sample)?;
    }
    Ok(())
}
