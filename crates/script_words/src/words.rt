//! The words of a line.

ghost use Rattle.std.specs.Prelude.{◌≡◌, map, OnOk};
ghost use Rattle.script_words.specs.Words.{is_blank, words_of};

use alloc_basics::NoMemory;

/// Replaces `words` by the words of a line, in their order. Spaces and tabs separate them, and none
/// is empty. The vector keeps its memory, so that one serves for many lines. Takes time in
/// proportion to the line.
///
/// # Errors
///
/// `NoMemory` if memory runs out. Then `words` has some of the first words of the line.
pub fn split_words<'t>(line: &'t [u8], words: &mut Vec<&'t [u8]>) -> Result<(), NoMemory>
    ensures { OnOk result (map (λ word. word.now) words.new.items ≡ words_of line.now) }
{
    words.clear();
    for part in line.split(|byte| is_blank(*byte)) {
        if !part.is_empty() {
            words.push(part)?;
        }
    }
    Ok(())
}

/// Returns whether a byte is a space or a tab.
fn is_blank(byte: u8) -> bool
    ensures { result ≡ is_blank byte }
{
    byte == b' ' || byte == b'\t'
}
