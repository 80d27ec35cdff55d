//! Prints scripts, command by command.

ghost use Rattle.std.specs.Prelude.{◌≡◌, ◌++◌, IfOk, OnOk, Ok, map, decimal, replicate};
ghost use Rattle.script_words.specs.Words.{joined, spaced};
ghost use Rattle.script_fields.specs.Spelling.{AreValid, PutsFields};
ghost use Rattle.script_read.specs.Spelling.{HasValidFields, arguments, fields_of, list_words, operation_arguments, operation_words, output_fields, printed, samples_in, command_words};
ghost use Rattle.script_read.specs.{IsScript.IsScript, Script.script_of};

use crate::command::{Command, Line, OpWords};
use crate::fields::{by_command, by_fields, by_operation, by_output};
use alloc_basics::NoMemory;
use model_operations::IntOp;
use script_fields::{Field, put_fields, put_names, put_samples};
use script_words::push_word;
use std::alloc::Global;

/// Returns the text of a script: each command on the line of its number, with empty lines between.
/// Takes time in proportion to the text, which has a byte at least for each number up to that of
/// the last line.
///
/// # Errors
///
/// `NoMemory` if memory runs out.
pub fn print_script(alloc: Global, lines: &[Line]) -> Result<Vec<u8>, NoMemory>
    requires { IsScript lines.now }
    ensures text { IfOk result (λ text. text.items ≡ printed lines.now) }
    ensures reads { IfOk result (λ text. script_of text.items ≡ Ok lines.now) }
{
    let mut text = Vec::new(alloc);
    let mut next = 1;
    for line in lines {
        put_feeds(&mut text, line.number - next)?;
        put_command(&mut text, &line.command)?;
        text.push(b'\n')?;
        next = line.number + 1;
    }
    Ok(text)
}

/// Appends so many line feeds to a text.
fn put_feeds(text: &mut Vec<u8>, count: u32) -> Result<(), NoMemory>
    ensures { OnOk result (text.new.items ≡ text.old.items ++ replicate count 10) }
{
    for _feed in 0..count {
        text.push(b'\n')?;
    }
    Ok(())
}

/// Appends the words of a command to a text, with single spaces between them.
#[tactic(auto, using(crate::proofs::PrintLaws::command_put))]
fn put_command(text: &mut Vec<u8>, command: &Command) -> Result<(), NoMemory>
    ensures text { OnOk result (text.new.items ≡ text.old.items ++ joined (command_words command.now)) }
    ensures valid { OnOk result (HasValidFields command.now) }
{
    text.extend_from_slice(command.keyword().word().as_bytes())?;
    put_fields_of(text, command)?;
    put_lists_of(text, command)
}

/// Appends the fields of a command to a text, up to those that are lists, each word after a space.
fn put_fields_of(text: &mut Vec<u8>, command: &Command) -> Result<(), NoMemory>
    ensures { PutsFields (fields_of command.now) result text.old.items text.new.items }
{
    by_command!(command, fields => put_fields(text, &fields),
        _ => put_output_fields(text, command))
}

/// Appends the fields of a command that writes files to a text, each word after a space. Others
/// append nothing.
fn put_output_fields(text: &mut Vec<u8>, command: &Command) -> Result<(), NoMemory>
    ensures { PutsFields (output_fields command.now) result text.old.items text.new.items }
{
    by_output!(command, fields => put_fields(text, &fields), _ => Ok(()))
}

/// Appends the words after the fields of a command to a text, each after a space: samples, or an
/// operation and its inputs.
fn put_lists_of(text: &mut Vec<u8>, command: &Command) -> Result<(), NoMemory>
    ensures text { OnOk result (text.new.items ≡ text.old.items ++ spaced (list_words command.now)) }
    ensures valid { OnOk result (AreValid (fields_of command.now) → HasValidFields command.now) }
{
    match command {
        Command::Fill { samples, .. } => put_samples(text, samples.as_slice()),
        Command::Node { op, inputs, .. } => {
            put_operation(text, op)?;
            put_names(text, inputs.as_slice())
        }
        _ => Ok(()),
    }
}

/// Appends the words of an operation and its arguments to a text, each after a space.
#[tactic(auto, using(script_fields::proofs::PrintLaws::spaced_put))]
fn put_operation(text: &mut Vec<u8>, op: &OpWords) -> Result<(), NoMemory>
    ensures text { OnOk result (text.new.items ≡ text.old.items ++ spaced (operation_words op.now)) }
    ensures valid { OnOk result (AreValid (arguments op.now)) }
{
    push_word(text, op.word().word().as_bytes())?;
    put_arguments(text, op)?;
    put_samples_in(text, op)
}

/// Appends the buffer of a source, or the arguments of an operation but samples, to a text, each word after a space.
fn put_arguments(text: &mut Vec<u8>, op: &OpWords) -> Result<(), NoMemory>
    ensures { PutsFields (arguments op.now) result text.old.items text.new.items }
{
    match op {
        OpWords::Source { buffer } => put_fields(text, &[Field::Name(*buffer)]),
        OpWords::Compute { op } => put_operation_arguments(text, op),
    }
}

/// Appends the arguments of an operation to a text, but samples, each word after a space.
fn put_operation_arguments(text: &mut Vec<u8>, op: &IntOp) -> Result<(), NoMemory>
    ensures { PutsFields (operation_arguments op.now) result text.old.items text.new.items }
{
    by_operation!(op, fields => put_fields(text, &fields), _ => Ok(()))
}

/// Appends the samples of an operation to a text, each after a space.
fn put_samples_in(text: &mut Vec<u8>, op: &OpWords) -> Result<(), NoMemory>
    ensures { OnOk result (text.new.items ≡ text.old.items ++ spaced (map decimal (samples_in op.now))) }
{
    match op {
        OpWords::Compute {
            op: IntOp::Color { samples, .. },
        } => put_samples(text, samples.as_slice()),
        _ => Ok(()),
    }
}
