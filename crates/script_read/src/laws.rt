//! Laws of what a text is refused for.

ghost use Rattle.std.specs.Prelude.{◌≡◌, ◌⊎◌, ℕ, List, None, Ok, Err};
ghost use Rattle.script_words.specs.Lines.{lines_of};
ghost use Rattle.script_fields.specs.declared.cause.ScriptCause.{ScriptCause};
ghost use Rattle.script_read.specs.TextCauses.{IsAccepted, IsFirst, IsLeftOpen};
ghost use Rattle.script_read.specs.{Script.script_of, declared.command.Line.Line};

/// States what a text is refused for, each cause by itself: its first line that has a cause is reported, with
/// the lowest of its causes; where no line has one, a watch that is open at the end is, of its own line. Of a
/// script no line has a cause, and no watch is open at the end.
pub fn refusals_have_the_lowest_cause()
    ensures refused { (text : List ℕ) (line : ℕ) (cause : ScriptCause) → script_of text ≡ Err (line, cause) →
        IsFirst 1 None (lines_of text) line cause ⊎ IsLeftOpen 1 None (lines_of text) line cause }
    ensures read { (text : List ℕ) (lines : List Line) → script_of text ≡ Ok lines → IsAccepted 1 None (lines_of text) }
{}
