//! Which lines are a script's.

ghost use Rattle.std.specs.Prelude.{◌≡◌, ◌↔◌, ◌≤◌, IsTrue};
ghost use Rattle.script_fields.specs.Limits.{AreOf};
ghost use Rattle.script_read.specs.IsScript.{IsScript};
ghost use Rattle.script_read.specs.Limits.{HasArguments, HasFields, HasLists, HasPixel, HasRectangle, IsInLimits, input_count};
ghost use Rattle.script_read.specs.Spelling.{fields_of, operation_arguments, output_fields};

use crate::command::{Command, Line, OpWords};
use crate::fields::{by_command, by_fields, by_operation, by_output};
use crate::forms::{MAX_WORDS, command_kinds, node_kinds};
use crate::operation_word::OperationWord;
use crate::reader::open_after;
use model_operations::IntOp;
use pixel_formats::limits::{MAX_LINES, are_pixel};
use script_fields::{Field, Kind, are_of, kinds_from, may_watch};

/// Returns whether lines are a script's: their numbers rise from 1 or more up to at most 10,000,
/// the fields of their commands are in their limits, and each watch is ended before another begins.
/// Takes time in proportion to the lines.
pub fn is_script(lines: &[Line]) -> bool
    ensures { IsTrue result ↔ IsScript lines.now }
{
    let mut next = 1;
    let mut watching = None;
    for line in lines {
        if line.number < next || line.number > MAX_LINES || !is_in_limits(&line.command) {
            return false;
        }
        watching = match open_after(line.number, watching, &line.command) {
            Ok(after) => after,
            Err(_) => return false,
        };
        next = line.number + 1;
    }
    watching.is_none()
}

/// Returns whether the fields of a command and the arguments of a node are of their kinds, samples
/// and inputs are as many as they have to be, and a rectangle is one that the command may have.
fn is_in_limits(command: &Command) -> bool
    ensures { IsTrue result ↔ IsInLimits command.now }
{
    has_fields(command) && has_lists(command) && has_rectangle(command)
}

/// Returns whether the fields of a command are of its kinds, and so in their ranges.
fn has_fields(command: &Command) -> bool
    ensures { IsTrue result ↔ HasFields command.now }
{
    are_fields(command, command_kinds(command.keyword(), MAX_WORDS))
}

/// Returns whether the fields of a command are of some kinds.
fn are_fields(command: &Command, kinds: &[Kind]) -> bool
    ensures { IsTrue result ↔ AreOf kinds.now (fields_of command.now) }
{
    by_command!(command, fields => are_of(kinds, &fields), _ => are_output_fields(command, kinds))
}

/// Returns whether the fields of a command that writes files are of some kinds. Others have none.
fn are_output_fields(command: &Command, kinds: &[Kind]) -> bool
    ensures { IsTrue result ↔ AreOf kinds.now (output_fields command.now) }
{
    by_output!(command, fields => are_of(kinds, &fields), _ => true)
}

/// Returns whether the arguments of what a node does are of its kinds after its name and its
/// operation.
fn has_arguments(op: &OpWords) -> bool
    ensures { IsTrue result ↔ HasArguments op.now }
{
    match op {
        OpWords::Source { .. } => true,
        OpWords::Compute { op } => {
            let kinds = node_kinds(OperationWord::of(op), MAX_WORDS);
            are_arguments(op, kinds_from(kinds, 2))
        }
    }
}

/// Returns whether the arguments of an operation are of some kinds.
fn are_arguments(op: &IntOp, kinds: &[Kind]) -> bool
    ensures { IsTrue result ↔ AreOf kinds.now (operation_arguments op.now) }
{
    by_operation!(op, fields => are_of(kinds, &fields), _ => true)
}

/// Returns whether the samples of a command are those of a pixel, and a node has its arguments and
/// its inputs.
fn has_lists(command: &Command) -> bool
    ensures { IsTrue result ↔ HasLists command.now }
{
    match command {
        Command::Fill { samples, .. } => are_pixel(samples.as_slice()),
        Command::Node { op, inputs, .. } => {
            has_arguments(op) && has_pixel(op) && inputs.as_slice().len() == input_count(op)
        }
        _ => true,
    }
}

/// Returns whether the samples of an operation, if it has some, are those of a pixel.
fn has_pixel(op: &OpWords) -> bool
    ensures { IsTrue result ↔ HasPixel op.now }
{
    match op {
        OpWords::Compute {
            op: IntOp::Color { samples, .. },
        } => are_pixel(samples.as_slice()),
        _ => true,
    }
}

/// Returns whether the rectangle of a command may be read at its level, or watched by its viewers.
fn has_rectangle(command: &Command) -> bool
    requires { HasFields command.now }
    ensures { IsTrue result ↔ HasRectangle command.now }
{
    match command {
        Command::Render { level, rect, .. } | Command::Grab { level, rect, .. } => {
            rect.scaled(*level).is_some()
        }
        Command::Watch {
            rect,
            viewers,
            frames,
            ..
        } => may_watch(*viewers, *frames, rect),
        _ => true,
    }
}

/// Returns how many inputs a node has.
pub(crate) fn input_count(op: &OpWords) -> usize
    ensures { result ≡ input_count op.now }
{
    match op {
        OpWords::Source { .. }
        | OpWords::Compute {
            op: IntOp::Color { .. } | IntOp::Checker { .. },
        } => 0,
        OpWords::Compute {
            op: IntOp::Add | IntOp::Over | IntOp::Mask,
        } => 2,
        OpWords::Compute { .. } => 1,
    }
}
