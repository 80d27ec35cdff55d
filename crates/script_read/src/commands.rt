//! Makes commands of the fields of lines.

ghost use Rattle.std.specs.Prelude.{◌≡◌};
ghost use Rattle.script_fields.specs.Answers.{Answers};
ghost use Rattle.script_read.specs.Commands.{area, area_operation, command_of, command_with, node_with, operation_with};

use crate::arguments::{
    fields_from, file_at, format_at, integer_at, level_rect_at, name_at, natural_at, policy_at,
    rect_at, sideways_at, watched_rect_at,
};
use crate::command::{Command, OpWords};
use crate::forms::Form;
use crate::keyword::Keyword;
use crate::limits::input_count;
use crate::operation_word::OperationWord;
use model_operations::IntOp;
use pixel_formats::Abyss;
use script_fields::{Field, LineAnswer, ScriptCause, names_in, naturals_in};
use std::alloc::Global;

/// Returns the command of a form and fields.
///
/// # Errors
///
/// `Rect` exactly where four of the fields are no rectangle that the command may have, or the fields
/// aren't those of the form. `NoMemory` if memory runs out.
pub(crate) fn command_of(alloc: Global, form: Form, fields: &[Field]) -> Result<Command, LineAnswer>
    ensures { Answers result (command_of form fields.now) }
{
    match form {
        Form::Command(keyword) => command_with(alloc, keyword, fields),
        Form::Node(operation) => node_with(alloc, operation, fields),
    }
}

/// Returns the command of a first word and fields, but not nodes.
fn command_with(alloc: Global, keyword: Keyword, fields: &[Field]) -> Result<Command, LineAnswer>
    ensures { Answers result (command_with keyword fields.now) }
{
    match keyword {
        Keyword::Buffer => buffer(fields),
        Keyword::Sub => sub(fields),
        Keyword::Dup => dup(fields),
        Keyword::Load => load(fields),
        Keyword::Fill => fill(alloc, fields),
        Keyword::Copy => copy(fields),
        Keyword::Node => Err(LineAnswer::Refused(ScriptCause::Rect)),
        Keyword::Drop => drop_node(fields),
        Keyword::Commit => Ok(Command::Commit),
        Keyword::Undo => Ok(Command::Undo),
        Keyword::Redo => Ok(Command::Redo),
        Keyword::Render => render(fields),
        Keyword::Grab => grab(fields),
        Keyword::Watch => watch(fields),
        Keyword::EndWatch => Ok(Command::EndWatch),
    }
}

/// Returns `buffer B FORMAT X Y W H`.
fn buffer(fields: &[Field]) -> Result<Command, LineAnswer>
    ensures { Answers result (command_with Keyword.Buffer fields.now) }
{
    let name = name_at(fields, 0)?;
    let format = format_at(fields, 1)?;
    let rect = rect_at(fields, 2)?;
    Ok(Command::Buffer { name, format, rect })
}

/// Returns `sub B PARENT X Y W H`.
fn sub(fields: &[Field]) -> Result<Command, LineAnswer>
    ensures { Answers result (command_with Keyword.Sub fields.now) }
{
    let name = name_at(fields, 0)?;
    let parent = name_at(fields, 1)?;
    let rect = rect_at(fields, 2)?;
    Ok(Command::Sub { name, parent, rect })
}

/// Returns `dup B FROM`.
fn dup(fields: &[Field]) -> Result<Command, LineAnswer>
    ensures { Answers result (command_with Keyword.Dup fields.now) }
{
    let name = name_at(fields, 0)?;
    let from = name_at(fields, 1)?;
    Ok(Command::Dup { name, from })
}

/// Returns `load B X Y W H FILE`.
fn load(fields: &[Field]) -> Result<Command, LineAnswer>
    ensures { Answers result (command_with Keyword.Load fields.now) }
{
    let name = name_at(fields, 0)?;
    let rect = rect_at(fields, 1)?;
    let file = file_at(fields, 5)?;
    Ok(Command::Load { name, rect, file })
}

/// Returns `fill B X Y W H S..`, of 1 to 4 samples.
fn fill(alloc: Global, fields: &[Field]) -> Result<Command, LineAnswer>
    ensures { Answers result (command_with Keyword.Fill fields.now) }
{
    let name = name_at(fields, 0)?;
    let rect = rect_at(fields, 1)?;
    let samples = naturals_in(alloc, fields_from(fields, 5))?;
    Ok(Command::Fill {
        name,
        rect,
        samples,
    })
}

/// Returns `copy FROM TO X Y W H DX DY`.
fn copy(fields: &[Field]) -> Result<Command, LineAnswer>
    ensures { Answers result (command_with Keyword.Copy fields.now) }
{
    let from = name_at(fields, 0)?;
    let to = name_at(fields, 1)?;
    let rect = rect_at(fields, 2)?;
    let dx = integer_at(fields, 6)?;
    let dy = integer_at(fields, 7)?;
    Ok(Command::Copy {
        from,
        to,
        rect,
        dx,
        dy,
    })
}

/// Returns `drop N`.
fn drop_node(fields: &[Field]) -> Result<Command, LineAnswer>
    ensures { Answers result (command_with Keyword.Drop fields.now) }
{
    let name = name_at(fields, 0)?;
    Ok(Command::Drop { name })
}

/// Returns `render N LEVEL X Y W H FILE`.
fn render(fields: &[Field]) -> Result<Command, LineAnswer>
    ensures { Answers result (command_with Keyword.Render fields.now) }
{
    let name = name_at(fields, 0)?;
    let level = natural_at(fields, 1)?;
    let rect = level_rect_at(fields, 2, level)?;
    let file = file_at(fields, 6)?;
    Ok(Command::Render {
        name,
        level,
        rect,
        file,
    })
}

/// Returns `grab B LEVEL ABYSS X Y W H FILE`.
fn grab(fields: &[Field]) -> Result<Command, LineAnswer>
    ensures { Answers result (command_with Keyword.Grab fields.now) }
{
    let name = name_at(fields, 0)?;
    let level = natural_at(fields, 1)?;
    let abyss = policy_at(fields, 2)?;
    let rect = level_rect_at(fields, 3, level)?;
    let file = file_at(fields, 7)?;
    Ok(Command::Grab {
        name,
        level,
        abyss,
        rect,
        file,
    })
}

/// Returns `watch N X Y W H VIEWERS FRAMES PREFIX`.
fn watch(fields: &[Field]) -> Result<Command, LineAnswer>
    ensures { Answers result (command_with Keyword.Watch fields.now) }
{
    let name = name_at(fields, 0)?;
    let viewers = natural_at(fields, 5)?;
    let frames = natural_at(fields, 6)?;
    let rect = watched_rect_at(fields, 1, viewers, frames)?;
    let prefix = file_at(fields, 7)?;
    Ok(Command::Watch {
        name,
        rect,
        viewers,
        frames,
        prefix,
    })
}

/// Returns the node of an operation and fields: its name, the operation's word, its arguments and
/// its inputs.
fn node_with(
    alloc: Global,
    operation: OperationWord,
    fields: &[Field],
) -> Result<Command, LineAnswer>
    ensures { Answers result (node_with operation fields.now) }
{
    let name = name_at(fields, 0)?;
    let op = operation_with(alloc, operation, fields)?;
    let arguments = fields.len().saturating_sub(input_count(&op));
    let inputs = names_in(alloc, fields_from(fields, arguments))?;
    Ok(Command::Node { name, op, inputs })
}

/// Returns what a node of an operation and fields does.
fn operation_with(
    alloc: Global,
    operation: OperationWord,
    fields: &[Field],
) -> Result<OpWords, LineAnswer>
    ensures { Answers result (operation_with operation fields.now) }
{
    match operation {
        OperationWord::Source => source(fields),
        OperationWord::Color => color(alloc, fields),
        OperationWord::Checker => checker(fields),
        OperationWord::Convert => convert(fields),
        OperationWord::Invert => Ok(computed(IntOp::Invert)),
        OperationWord::Threshold => threshold(fields),
        OperationWord::Gain => gain(fields),
        OperationWord::Translate => translate(fields),
        OperationWord::Crop => crop(fields),
        OperationWord::Flip => flip(fields),
        OperationWord::BoxMean | OperationWord::Dilate | OperationWord::Erode => {
            area(operation, fields)
        }
        OperationWord::Add => Ok(computed(IntOp::Add)),
        OperationWord::Over => Ok(computed(IntOp::Over)),
        OperationWord::Mask => Ok(computed(IntOp::Mask)),
    }
}

/// Returns what a node of an operation on images does.
fn computed(op: IntOp) -> OpWords
    ensures { result ≡ OpWords.Compute op }
{
    OpWords::Compute { op }
}

/// Returns `node N source BUFFER`.
fn source(fields: &[Field]) -> Result<OpWords, LineAnswer>
    ensures { Answers result (operation_with OperationWord.Source fields.now) }
{
    let buffer = name_at(fields, 2)?;
    Ok(OpWords::Source { buffer })
}

/// Returns `node N color FORMAT X Y W H S..`, of 1 to 4 samples.
fn color(alloc: Global, fields: &[Field]) -> Result<OpWords, LineAnswer>
    ensures { Answers result (operation_with OperationWord.Color fields.now) }
{
    let format = format_at(fields, 2)?;
    let rect = rect_at(fields, 3)?;
    let samples = naturals_in(alloc, fields_from(fields, 7))?;
    Ok(computed(IntOp::Color {
        format,
        rect,
        samples,
    }))
}

/// Returns `node N checker FORMAT X Y W H SIZE V1 V2`.
fn checker(fields: &[Field]) -> Result<OpWords, LineAnswer>
    ensures { Answers result (operation_with OperationWord.Checker fields.now) }
{
    let format = format_at(fields, 2)?;
    let rect = rect_at(fields, 3)?;
    let size = natural_at(fields, 7)?;
    let v1 = natural_at(fields, 8)?;
    let v2 = natural_at(fields, 9)?;
    Ok(computed(IntOp::Checker {
        format,
        rect,
        size,
        v1,
        v2,
    }))
}

/// Returns `node N convert FORMAT IN`.
fn convert(fields: &[Field]) -> Result<OpWords, LineAnswer>
    ensures { Answers result (operation_with OperationWord.Convert fields.now) }
{
    let format = format_at(fields, 2)?;
    Ok(computed(IntOp::Convert { format }))
}

/// Returns `node N threshold T IN`.
fn threshold(fields: &[Field]) -> Result<OpWords, LineAnswer>
    ensures { Answers result (operation_with OperationWord.Threshold fields.now) }
{
    let at = natural_at(fields, 2)?;
    Ok(computed(IntOp::Threshold { at }))
}

/// Returns `node N gain NUM DEN IN`.
fn gain(fields: &[Field]) -> Result<OpWords, LineAnswer>
    ensures { Answers result (operation_with OperationWord.Gain fields.now) }
{
    let num = natural_at(fields, 2)?;
    let den = natural_at(fields, 3)?;
    Ok(computed(IntOp::Gain { num, den }))
}

/// Returns `node N translate DX DY IN`.
fn translate(fields: &[Field]) -> Result<OpWords, LineAnswer>
    ensures { Answers result (operation_with OperationWord.Translate fields.now) }
{
    let dx = integer_at(fields, 2)?;
    let dy = integer_at(fields, 3)?;
    Ok(computed(IntOp::Translate { dx, dy }))
}

/// Returns `node N crop X Y W H IN`.
fn crop(fields: &[Field]) -> Result<OpWords, LineAnswer>
    ensures { Answers result (operation_with OperationWord.Crop fields.now) }
{
    let rect = rect_at(fields, 2)?;
    Ok(computed(IntOp::Crop { rect }))
}

/// Returns `node N flip h IN` and `node N flip v IN`.
fn flip(fields: &[Field]) -> Result<OpWords, LineAnswer>
    ensures { Answers result (operation_with OperationWord.Flip fields.now) }
{
    let sideways = sideways_at(fields, 2)?;
    Ok(computed(IntOp::Flip { sideways }))
}

/// Returns `node N OP R ABYSS IN` of an area operation, by its word.
fn area(operation: OperationWord, fields: &[Field]) -> Result<OpWords, LineAnswer>
    ensures { Answers result (area operation fields.now) }
{
    let radius = natural_at(fields, 2)?;
    let abyss = policy_at(fields, 3)?;
    Ok(computed(area_operation(operation, radius, abyss)))
}

/// Returns the area operation of a word: a mean for `box`, a dilation for `dilate`, and else an
/// erosion.
fn area_operation(operation: OperationWord, radius: u32, abyss: Abyss) -> IntOp
    ensures { result ≡ area_operation operation radius abyss }
{
    match operation {
        OperationWord::BoxMean => IntOp::BoxMean { radius, abyss },
        OperationWord::Dilate => IntOp::Dilate { radius, abyss },
        _ => IntOp::Erode { radius, abyss },
    }
}
