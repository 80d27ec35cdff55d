//! Words as they are printed, each after a space.

ghost use Rattle.std.specs.Prelude.{◌≡◌, ◌∷◌, ◌++◌, decimal, OnErr, OnOk};
ghost use Rattle.std.specs.Fmt.{signed_decimal};

use alloc_basics::NoMemory;
use itoa::Buffer;

/// Appends a space and a word to a text. Takes time in proportion to the word, amortized over the
/// appends to the text.
///
/// # Errors
///
/// `NoMemory` if memory runs out. The text is then unchanged.
pub fn push_word(text: &mut Vec<u8>, word: &[u8]) -> Result<(), NoMemory>
    ensures ok { OnOk result (text.new.items ≡ text.old.items ++ 32 ∷ word.now) }
    ensures err { OnErr result (text.new.items ≡ text.old.items) }
{
    text.reserve(1 + word.len())?;
    text.push(b' ')?;
    text.extend_from_slice(word)?;
    Ok(())
}

/// Appends a space and the digits of a number to a text, without zeros at their beginning.
///
/// # Errors
///
/// As [`push_word`].
pub fn push_natural(text: &mut Vec<u8>, value: u32) -> Result<(), NoMemory>
    ensures ok { OnOk result (text.new.items ≡ text.old.items ++ 32 ∷ decimal value) }
    ensures err { OnErr result (text.new.items ≡ text.old.items) }
{
    push_word(text, Buffer::new().format(value).as_bytes())
}

/// Appends a space and the digits of an integer to a text, after a `-` if it is below 0.
///
/// # Errors
///
/// As [`push_word`].
pub fn push_integer(text: &mut Vec<u8>, value: i64) -> Result<(), NoMemory>
    ensures ok { OnOk result (text.new.items ≡ text.old.items ++ 32 ∷ signed_decimal value) }
    ensures err { OnErr result (text.new.items ≡ text.old.items) }
{
    push_word(text, Buffer::new().format(value).as_bytes())
}
