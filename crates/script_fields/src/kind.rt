//! What the words of a command have to be, and the fields that they are.

ghost use Rattle.std.specs.Prelude.{◌≡◌, ◌<◌, length};
ghost use Rattle.script_fields.specs.Answers.{AnswersList};
ghost use Rattle.script_fields.specs.Fields.{area_policy_named, direction_named, fields_of_words, format_named, numbers_fit, prefix_named, texts, word_at};

use crate::cause::{LineAnswer, ScriptCause};
use crate::field::Field;
use pixel_formats::limits::MAX_PREFIX_BYTES;
use pixel_formats::{Abyss, Format};
use plane_rect::Name;
use script_words::{FileName, integer_in, natural_in};

/// What a word of a command has to be. Ranges include their ends.
#[derive(Clone, Copy, Debug)]
pub enum Kind {
    /// The name of a buffer or a node.
    Name,
    /// The name of a file.
    File,
    /// What the names of a watch's files begin with.
    Prefix,
    Format,
    /// A policy for the positions outside of an image.
    Policy,
    /// A policy that an area operation may have.
    AreaPolicy,
    /// `h` or `v`.
    Direction,
    /// The word of a node's operation, by which its line is known: any word.
    Operation,
    Natural { low: u32, high: u32 },
    Integer { low: i64, high: i64 },
}

impl Kind {
    ghost use Rattle.std.specs.Prelude.{◌≡◌};
    ghost use Rattle.script_fields.specs.Fields.{fits_as_number, found, is_number};

    /// Returns the field that a word is, and None exactly where it isn't of this kind.
    pub fn parse(self, word: &[u8]) -> Option<Field>
        ensures { result ≡ found self word.now }
    {
        match self {
            Kind::Name => Some(Field::Name(Name::parse(word)?)),
            Kind::File => Some(Field::File(FileName::parse(word)?)),
            Kind::Prefix => Some(Field::File(prefix_named(word)?)),
            Kind::Format => Some(Field::Format(format_named(word)?)),
            Kind::Policy => Some(Field::Policy(Abyss::parse(word)?)),
            Kind::AreaPolicy => Some(Field::Policy(area_policy_named(word)?)),
            Kind::Direction => Some(Field::Sideways(direction_named(word)?)),
            Kind::Operation => Some(Field::Operation),
            Kind::Natural { low, high } => Some(Field::Natural(natural_in(low, high, word)?)),
            Kind::Integer { low, high } => Some(Field::Integer(integer_in(low, high, word)?)),
        }
    }

    /// Returns whether it is a number.
    fn is_number(self) -> bool
        ensures { result ≡ is_number self }
    {
        matches!(self, Kind::Natural { .. } | Kind::Integer { .. })
    }

    /// Returns whether a word is a number of this kind, where this is a kind of numbers.
    fn fits_as_number(self, word: &[u8]) -> bool
        ensures { result ≡ fits_as_number self word.now }
    {
        !self.is_number() || self.parse(word).is_some()
    }
}

/// Returns the prefix of the names of a watch's files that a word is.
fn prefix_named(word: &[u8]) -> Option<FileName>
    ensures { result ≡ prefix_named word.now }
{
    if word.len() <= MAX_PREFIX_BYTES {
        FileName::parse(word)
    } else {
        None
    }
}

/// Returns the format that a word names.
fn format_named(word: &[u8]) -> Option<Format>
    ensures { result ≡ format_named word.now }
{
    Format::parse(word)
}

/// Returns the policy that a word names, of those that an area operation may have.
fn area_policy_named(word: &[u8]) -> Option<Abyss>
    ensures { result ≡ area_policy_named word.now }
{
    match Abyss::parse(word)? {
        Abyss::Loop => None,
        policy => Some(policy),
    }
}

/// Returns whether the direction that a word names is sideways: true for `h`, which swaps left and
/// right, and false for `v`, which swaps top and bottom.
fn direction_named(word: &[u8]) -> Option<bool>
    ensures { result ≡ direction_named word.now }
{
    if word == b"h".as_slice() {
        Some(true)
    } else if word == b"v".as_slice() {
        Some(false)
    } else {
        None
    }
}

/// Returns the word at an index.
pub fn word_at<'t>(words: &[&'t [u8]], index: usize) -> &'t [u8]
    requires { index < length words.now }
    ensures { result.now ≡ word_at (texts words.now) index }
{
    words[index]
}

/// Returns whether each word that has to be a number is one, in its range.
pub fn numbers_fit(kinds: &[Kind], words: &[&[u8]]) -> bool
    ensures { result ≡ numbers_fit kinds.now (texts words.now) }
{
    let mut kinds = kinds;
    for word in words {
        let Some((kind, others)) = kinds.split_first() else {
            return true;
        };
        if !kind.fits_as_number(word) {
            return false;
        }
        kinds = others;
    }
    true
}

/// Replaces `fields` by those that words are, in their order, up to the last word or the last kind.
/// The vector keeps its memory, so that one serves for many lines.
///
/// # Errors
///
/// `Name` where a word isn't of its kind, and `NoMemory` if memory runs out. Then `fields` has some
/// of the first fields.
pub fn read_fields(
    kinds: &[Kind],
    words: &[&[u8]],
    fields: &mut Vec<Field>,
) -> Result<(), LineAnswer>
    ensures { AnswersList result fields.new.items (fields_of_words kinds.now (texts words.now)) }
{
    fields.clear();
    let mut kinds = kinds;
    for word in words {
        let Some((kind, others)) = kinds.split_first() else {
            return Ok(());
        };
        fields.push(kind.parse(word).ok_or(ScriptCause::Name)?)?;
        kinds = others;
    }
    Ok(())
}
