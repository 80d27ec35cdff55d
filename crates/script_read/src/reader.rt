//! Reads scripts, line by line.

ghost use Rattle.std.specs.Prelude.{◌≡◌, ◌+◌, ◌≤◌, ◌<◌, IfOk, IfSome, IsTrue, length};
ghost use Rattle.script_words.specs.Lines.{is_text};
ghost use Rattle.script_fields.specs.{Answers.Answers, Fields.texts};
ghost use Rattle.script_read.specs.Answers.{Reads};
ghost use Rattle.script_read.specs.Script.{begins_comment, command_by, command_in, command_of_words, is_silent, number_or, open_after, open_past, script_of, spoken, step_of};
ghost use Rattle.script_read.specs.{IsScript.IsScript, Limits.IsInLimits};
ghost use Rattle.pixel_formats.specs.Limits.{max_lines};

use crate::command::{Command, Line};
use crate::commands::command_of;
use crate::forms::Form;
use pixel_formats::limits::{MAX_LINE_BYTES, MAX_LINES};
use script_fields::{Field, Kind, LineAnswer, ScriptAnswer, ScriptCause, numbers_fit, read_fields};
use script_words::{is_text, next_line, split_words};
use std::alloc::Global;

/// What is read of a line.
#[derive(Drop)]
pub(crate) struct ReadLine {
    /// Its command, if it has one.
    pub command: Option<Command>,
    /// The number of the line whose watch is open after it.
    pub watching: Option<u32>,
}

/// Returns the commands of a script, each with the number of its line. Takes time in proportion to
/// the text.
///
/// # Errors
///
/// `Refused` exactly where the text is no script: with the first line that has a cause, and the
/// lowest of its causes. `NoMemory` if memory runs out.
pub fn read_script(alloc: Global, text: &[u8]) -> Result<Vec<Line>, ScriptAnswer>
    ensures reads { Reads result (script_of text.now) }
    ensures script { IfOk result (λ lines. IsScript lines.items) }
{
    let mut lines = Vec::new(alloc);
    let mut words = Vec::new(alloc);
    let mut fields = Vec::new(alloc);
    let mut watching = None;
    let mut number = 1;
    let mut rest = text;
    while let Some((line, remaining)) = next_line(rest) {
        let ReadLine {
            command,
            watching: after,
        } = match step_of(alloc, number, watching, line, &mut words, &mut fields) {
            Ok(step) => step,
            Err(answer) => return Err(answer.at(number)),
        };
        if let Some(command) = command {
            lines.push(Line { number, command })?;
        }
        watching = after;
        number += 1;
        rest = remaining;
    }
    match watching {
        None => Ok(lines),
        Some(line) => Err(ScriptAnswer::Refused {
            line,
            cause: ScriptCause::Order,
        }),
    }
}

/// Reads a line, which is split into `words` and `fields`, where the watch of an earlier line may be open.
#[tactic(auto, unfolding(crate::specs::Script::step_of))]
fn step_of<'t>(
    alloc: Global,
    number: u32,
    watching: Option<u32>,
    line: &'t [u8],
    words: &mut Vec<&'t [u8]>,
    fields: &mut Vec<Field>,
) -> Result<ReadLine, LineAnswer>
    ensures value { Answers result (step_of number watching line.now) }
    ensures number { IfOk result (λ step. number ≤ max_lines) }
    ensures watch { IfOk result (λ step. open_past number watching step.command ≡ Ok step.watching) }
    ensures limits { IfOk result (λ step. IfSome step.command IsInLimits) }
{
    let command = command_in(alloc, number, line, words, fields)?;
    let watching = match &command {
        Some(command) => open_after(number, watching, command)?,
        None => watching,
    };
    Ok(ReadLine { command, watching })
}

/// Returns the number of the line whose watch is open after a command.
///
/// # Errors
///
/// `Order` exactly where a watch begins inside another, or is ended where none is open.
pub(crate) fn open_after(
    number: u32,
    watching: Option<u32>,
    command: &Command,
) -> Result<Option<u32>, ScriptCause>
    ensures { result ≡ open_after number watching command.now }
{
    match (command, watching) {
        (Command::Watch { .. }, None) => Ok(Some(number)),
        (Command::EndWatch, Some(_)) => Ok(None),
        (Command::Watch { .. } | Command::EndWatch, _) => Err(ScriptCause::Order),
        _ => Ok(watching),
    }
}

/// Reads the command of a line, which is split into `words` and `fields`, where it has one.
#[tactic(auto, unfolding(crate::specs::Script::command_in))]
fn command_in<'t>(
    alloc: Global,
    number: u32,
    line: &'t [u8],
    words: &mut Vec<&'t [u8]>,
    fields: &mut Vec<Field>,
) -> Result<Option<Command>, LineAnswer>
    ensures value { Answers result (command_in number line.now) }
    ensures number { IfOk result (λ command. number ≤ max_lines) }
    ensures limits { IfOk result (λ command. IfSome command IsInLimits) }
{
    if !is_text(line) {
        return Err(LineAnswer::Refused(ScriptCause::NotAscii));
    }
    if line.len() > MAX_LINE_BYTES {
        return Err(LineAnswer::Refused(ScriptCause::LineTooLong));
    }
    if number > MAX_LINES {
        return Err(LineAnswer::Refused(ScriptCause::TooManyLines));
    }
    split_words(line, words)?;
    spoken(alloc, words, fields)
}

/// Reads the command of words, where they are neither none nor those of a comment.
#[tactic(auto, unfolding(crate::specs::Script::spoken))]
fn spoken(
    alloc: Global,
    words: &[&[u8]],
    fields: &mut Vec<Field>,
) -> Result<Option<Command>, LineAnswer>
    ensures value { Answers result (spoken (texts words.now)) }
    ensures limits { IfOk result (λ command. IfSome command IsInLimits) }
{
    if is_silent(words) {
        return Ok(None);
    }
    let command = command_of_words(alloc, words, fields)?;
    Ok(Some(command))
}

/// Returns whether there are no words, or those of a comment.
fn is_silent(words: &[&[u8]]) -> bool
    ensures value { result ≡ is_silent (texts words.now) }
    ensures none { length words.now ≡ 0 → IsTrue result }
{
    match words.first() {
        Some(word) => begins_comment(word),
        None => true,
    }
}

/// Returns whether a word begins with `#`.
fn begins_comment(word: &[u8]) -> bool
    ensures { result ≡ begins_comment word.now }
{
    word.first() == Some(&b'#')
}

/// Reads the command of words, whose fields are put into `fields`.
#[tactic(auto, unfolding(crate::specs::Script::command_of_words))]
fn command_of_words(
    alloc: Global,
    words: &[&[u8]],
    fields: &mut Vec<Field>,
) -> Result<Command, LineAnswer>
    requires { 0 < length words.now }
    ensures { Answers result (command_of_words (texts words.now)) }
{
    let form = Form::parse(words)?;
    command_by(alloc, form, &words[1..], fields)
}

/// Reads the command of the words after the first, of a line of this form.
#[tactic(auto, unfolding(crate::specs::Script::command_by))]
fn command_by(
    alloc: Global,
    form: Form,
    words: &[&[u8]],
    fields: &mut Vec<Field>,
) -> Result<Command, LineAnswer>
    ensures { Answers result (command_by form (texts words.now)) }
{
    let kinds = form.kinds(words.len());
    if kinds.len() != words.len() {
        return Err(LineAnswer::Refused(ScriptCause::Words));
    }
    if let Err(answer) = read_fields(kinds, words, fields) {
        return Err(number_or(kinds, words, answer));
    }
    command_of(alloc, form, fields)
}

/// Returns why words aren't read as fields: `Number` where one of them isn't the number that it has
/// to be, and else another answer.
fn number_or(kinds: &[Kind], words: &[&[u8]], answer: LineAnswer) -> LineAnswer
    ensures { result ≡ number_or kinds.now (texts words.now) answer }
{
    if numbers_fit(kinds, words) {
        answer
    } else {
        LineAnswer::Refused(ScriptCause::Number)
    }
}
