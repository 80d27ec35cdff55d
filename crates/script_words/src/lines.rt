//! The lines of a text.

ghost use Rattle.std.specs.Prelude.{◌≡◌, ◌==◌, ◌<◌, ◌∷◌, [], IfNone, IfSome, length, position};
ghost use Rattle.std.specs.Str.Lines.{strip_carriage_return};
ghost use Rattle.script_words.specs.Lines.{is_text, is_text_byte, lines_of};

/// Returns the first line of a text and the text after it, and None where the text is empty. The
/// line comes without its end: a line feed, and a carriage return just before it. Takes time in
/// proportion to the line.
pub fn next_line(text: &[u8]) -> Option<(&[u8], &[u8])>
    ensures none { IfNone result (text.now ≡ []) }
    ensures lines { IfSome result (λ step. lines_of text.now ≡ step.0.now ∷ lines_of step.1.now) }
    ensures shorter { IfSome result (λ step. length step.1.now < length text.now) }
{
    if text.is_empty() {
        return None;
    }
    match first_feed(text) {
        Some(feed) => {
            let (line, end) = text.split_at(feed);
            Some((without_carriage_return(line), &end[1..]))
        }
        None => Some((text, &[])),
    }
}

/// Returns the index of the first line feed.
fn first_feed(text: &[u8]) -> Option<usize>
    ensures { result ≡ position (λ byte. byte == 10) text.now }
{
    text.iter().position(|byte| *byte == b'\n')
}

/// Returns the bytes without a carriage return at their end.
fn without_carriage_return(line: &[u8]) -> &[u8]
    ensures { result.now ≡ strip_carriage_return line.now }
{
    match line.split_last() {
        Some((b'\r', prefix)) => prefix,
        _ => line,
    }
}

/// Returns whether each byte of a line is a tab, or one from the space to the tilde. Takes time in
/// proportion to the line.
pub fn is_text(line: &[u8]) -> bool
    ensures { result ≡ is_text line.now }
{
    line.iter().all(|byte| is_text_byte(*byte))
}

/// Returns whether a byte is a tab, or one from the space to the tilde.
fn is_text_byte(byte: u8) -> bool
    ensures { result ≡ is_text_byte byte }
{
    matches!(byte, b' '..=b'~' | b'\t')
}
