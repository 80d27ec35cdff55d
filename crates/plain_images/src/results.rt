//! The images that operations give.

ghost use Rattle.std.specs.Prelude.{◌≡◌, ◌↔◌, [], ◌∷◌, Some, IfOk, IfSome, IsSome, IsTrue};
ghost use Rattle.model_operations.specs.Formats.{format_of, format_with};
ghost use Rattle.model_operations.specs.Inputs.{boxes_of, formats_of, input_count};
ghost use Rattle.model_operations.specs.{Arguments.in_range, Results.result_of, Values.value_at};
ghost use Rattle.plain_images.specs.Picture.{IsPicture, IsPosition};

use crate::formulas::{added, gained, inverted, thresholded};
use crate::picture::{Picture, Samples, draw};
use crate::pixels::{
    cap_at, checker_at, converted_at, flipped_at, masked_at, over_at, recolored, source_index,
};
use crate::windows::Window;
use alloc_basics::NoMemory;
use model_operations::IntOp;
use operation_regions::{box_of, format_of};
use pixel_formats::Format;
use plane_rect::Rect;
use std::alloc::Global;

/// The samples that an operation gives of images, in the format that it tells of theirs.
#[derive(Drop)]
struct Applied<'a> {
    op: &'a IntOp,
    inputs: &'a [Picture],
    format: Format,
}

impl Samples for Applied<'_> {
    ghost sample_format = { λ applied. applied.format };

    ghost value = { λ applied. value_at applied.op.now applied.inputs.now };

    ghost can_sample = { λ applied.
        format_of applied.op.now (formats_of applied.inputs.now) ≡ Some applied.format };

    fn format(&self) -> Format {
        self.format
    }

    fn sample(&self, column: u32, row: u32, channel: u32) -> u32 {
        match self.inputs {
            [] => generated(self.op, column, row, channel),
            [input] => changed(self.op, input, column, row, channel),
            [first, second, ..] => combined(self.op, first, second, column, row, channel),
        }
    }
}

/// Returns the image that an operation gives of images, and None exactly where it takes none of their
/// number and formats, or its arguments are out of their ranges.
///
/// # Errors
///
/// No memory was left.
pub fn result_of(alloc: Global, op: &IntOp, inputs: &[Picture]) -> Result<Option<Picture>, NoMemory>
    ensures taken { IfOk result (λ made.
        IsSome made ↔ IsSome (format_of op.now (formats_of inputs.now))) }
    ensures image { IfOk result (λ made.
        IfSome made (λ picture. picture ≡ result_of op.now inputs.now)) }
{
    let Some(format) = format_of(op, &formats_of(alloc, inputs)?) else {
        return Ok(None);
    };
    let rect = box_of(op, &boxes_of(alloc, inputs)?).unwrap_or(Rect::EMPTY);
    let picture = draw(alloc, rect, &Applied { op, inputs, format })?;
    Ok(Some(picture))
}

/// Returns the rectangles of images.
fn boxes_of(alloc: Global, pictures: &[Picture]) -> Result<Vec<Rect>, NoMemory>
    ensures { IfOk result (λ boxes. boxes.items ≡ boxes_of pictures.now) }
{
    Ok(
        pictures
            .iter()
            .map(|picture| picture.rect())
            .collect(alloc)?,
    )
}

/// Returns the formats of images.
fn formats_of(alloc: Global, pictures: &[Picture]) -> Result<Vec<Format>, NoMemory>
    ensures { IfOk result (λ formats. formats.items ≡ formats_of pictures.now) }
{
    Ok(
        pictures
            .iter()
            .map(|picture| picture.format())
            .collect(alloc)?,
    )
}

/// Returns the sample that an operation without inputs gives.
fn generated(op: &IntOp, column: u32, row: u32, channel: u32) -> u32
    requires count { input_count op.now ≡ 0 }
    requires arguments { IsTrue (in_range op.now) }
    ensures { result ≡ value_at op.now [] column row channel }
{
    match op {
        IntOp::Color { samples, .. } => {
            samples
                .as_slice()
                .get(channel as usize)
                .copied()
                .unwrap_or(0)
        }
        IntOp::Checker {
            format,
            size,
            v1,
            v2,
            ..
        } => checker_at(*format, *size, *v1, *v2, column, row, channel),
        _ => unreachable!(),
    }
}

/// Returns the sample that an operation of one input gives.
fn changed(op: &IntOp, input: &Picture, column: u32, row: u32, channel: u32) -> u32
    requires count { input_count op.now ≡ 1 }
    requires arguments { IsTrue (in_range op.now) }
    requires position { IsPosition column row }
    ensures value { result ≡ value_at op.now (input.now ∷ []) column row channel }
    ensures picture { IsPicture input.now }
{
    let format = input.format();
    let cap = cap_at(input, column, row);
    let color = input.at(column, row, channel);
    match op {
        IntOp::Convert { format: to } => converted_at(input, *to, column, row, channel),
        IntOp::Invert => recolored(format, channel, color, inverted(cap, color)),
        IntOp::Threshold { at } => {
            recolored(format, channel, color, thresholded(*at, cap, color))
        }
        IntOp::Gain { num, den } => {
            recolored(format, channel, color, gained(*num, *den, cap, color))
        }
        IntOp::Translate { dx, dy } => input.at(
            source_index(*dx, column),
            source_index(*dy, row),
            channel,
        ),
        IntOp::Crop { .. } => color,
        IntOp::Flip { sideways } => flipped_at(input, *sideways, column, row, channel),
        IntOp::BoxMean { radius, abyss } => {
            Window::new(input, *radius, *abyss, column, row, channel).mean()
        }
        IntOp::Dilate { radius, abyss } => {
            Window::new(input, *radius, *abyss, column, row, channel).max_sample()
        }
        IntOp::Erode { radius, abyss } => {
            Window::new(input, *radius, *abyss, column, row, channel).minimum()
        }
        IntOp::Color { .. } | IntOp::Checker { .. } | IntOp::Add | IntOp::Over | IntOp::Mask =>
            unreachable!(),
    }
}

/// Returns the sample that an operation of two inputs gives.
fn combined(
    op: &IntOp,
    first: &Picture,
    second: &Picture,
    column: u32,
    row: u32,
    channel: u32,
) -> u32
    requires count { input_count op.now ≡ 2 }
    requires formats { IsSome (format_with op.now first.now.format second.now.format) }
    ensures value { result ≡ value_at op.now (first.now ∷ second.now ∷ []) column row channel }
    ensures pictures { IsPicture first.now × IsPicture second.now }
{
    let format = first.format();
    let a = first.at(column, row, channel);
    let b = second.at(column, row, channel);
    match op {
        IntOp::Add => added(format.max(), a, b),
        IntOp::Over => over_at(first, second, column, row, channel),
        IntOp::Mask => masked_at(first, second, column, row, channel),
        _ => unreachable!(),
    }
}
