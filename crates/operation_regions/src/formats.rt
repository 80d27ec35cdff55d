//! The formats that operations take and give.

ghost use Rattle.std.specs.Prelude.{◌≡◌};
ghost use Rattle.std.specs.List.{list_all};
ghost use Rattle.model_operations.specs.Formats.{are_samples, format_if, format_of, format_with, is_mask_of, is_sample};
ghost use Rattle.model_operations.specs.Inputs.{input_count, input_format};
ghost use Rattle.model_operations.specs.Arguments.{in_range};
ghost use Rattle.pixel_formats.specs.Limits.{is_area, is_in, is_move};

use model_operations::IntOp;
use pixel_formats::limits::{MAX_CHECKER_SIZE, MAX_FACTOR, is_area, is_in, is_move};
use pixel_formats::{Format, PixelSamples};

/// Returns how many images an operation takes.
pub fn input_count(op: &IntOp) -> usize
    ensures { result ≡ input_count op.now }
{
    match op {
        IntOp::Color { .. } | IntOp::Checker { .. } => 0,
        IntOp::Convert { .. }
        | IntOp::Invert
        | IntOp::Threshold { .. }
        | IntOp::Gain { .. }
        | IntOp::Translate { .. }
        | IntOp::Crop { .. }
        | IntOp::Flip { .. }
        | IntOp::BoxMean { .. }
        | IntOp::Dilate { .. }
        | IntOp::Erode { .. } => 1,
        IntOp::Add | IntOp::Over | IntOp::Mask => 2,
    }
}

/// Returns the format of an operation's result on inputs of these formats, and None exactly where
/// their number or an argument is wrong, or where the operation does not take them.
pub fn format_of(op: &IntOp, formats: &[Format]) -> Option<Format>
    ensures { result ≡ format_of op.now formats.now }
{
    if formats.len() != input_count(op) || !in_range(op) {
        return None;
    }
    format_with(op, input_format(formats, 0), input_format(formats, 1))
}

/// Returns the format of an input, and Y8 where there is no such input.
fn input_format(formats: &[Format], input: usize) -> Format
    ensures { result ≡ input_format formats.now input }
{
    formats.get(input).copied().unwrap_or(Format::Y8)
}

/// Returns the format of an operation's result, of arguments in their ranges and inputs of these
/// formats.
fn format_with(op: &IntOp, a: Format, b: Format) -> Option<Format>
    ensures { result ≡ format_with op.now a b }
{
    match op {
        IntOp::Color {
            format,
            samples,
            ..
        } => format_if(are_samples(*format, samples), *format),
        IntOp::Checker { format, v1, v2, .. } => {
            format_if(is_sample(*format, *v1) && is_sample(*format, *v2), *format)
        }
        IntOp::Convert { format } => Some(*format),
        IntOp::Threshold { at } => format_if(is_sample(a, *at), a),
        IntOp::Add => format_if(a == b, a),
        IntOp::Over => format_if(a == b && a.has_alpha(), a),
        IntOp::Mask => format_if(is_mask_of(b, a), a),
        IntOp::Invert
        | IntOp::Gain { .. }
        | IntOp::Translate { .. }
        | IntOp::Crop { .. }
        | IntOp::Flip { .. }
        | IntOp::BoxMean { .. }
        | IntOp::Dilate { .. }
        | IntOp::Erode { .. } => Some(a),
    }
}

/// Returns the format, where something holds.
fn format_if(holds: bool, format: Format) -> Option<Format>
    ensures { result ≡ format_if holds format }
{
    if holds { Some(format) } else { None }
}

/// Returns whether there is a sample for each channel, and none is above the largest.
fn are_samples(format: Format, samples: &PixelSamples) -> bool
    ensures { result ≡ are_samples format samples.now }
{
    let samples = samples.as_slice();
    samples.len() == format.channels() as usize && all_are_samples(format, samples)
}

/// Returns whether none of these is above the largest sample.
fn all_are_samples(format: Format, samples: &[u32]) -> bool
    ensures { result ≡ list_all (is_sample format) samples.now }
{
    samples.iter().all(|sample| is_sample(format, *sample))
}

/// Returns whether a pixel of the format may have the sample.
fn is_sample(format: Format, sample: u32) -> bool
    ensures { result ≡ is_sample format sample }
{
    sample <= format.max()
}

/// Returns whether a format is Y of the depth of another.
fn is_mask_of(mask: Format, format: Format) -> bool
    ensures { result ≡ is_mask_of mask format }
{
    mask.channels() == 1 && mask.depth() == format.depth()
}

/// Returns whether each argument is in its range. Those of samples depend on the format.
fn in_range(op: &IntOp) -> bool
    ensures { result ≡ in_range op.now }
{
    match op {
        IntOp::Checker { size, .. } => is_in(1, MAX_CHECKER_SIZE, *size),
        IntOp::Gain { num, den } => *num <= MAX_FACTOR && is_in(1, MAX_FACTOR, *den),
        IntOp::Translate { dx, dy } => is_move(*dx) && is_move(*dy),
        IntOp::BoxMean { radius, abyss }
        | IntOp::Dilate { radius, abyss }
        | IntOp::Erode { radius, abyss } => is_area(*radius, *abyss),
        IntOp::Color { .. }
        | IntOp::Convert { .. }
        | IntOp::Invert
        | IntOp::Threshold { .. }
        | IntOp::Crop { .. }
        | IntOp::Flip { .. }
        | IntOp::Add
        | IntOp::Over
        | IntOp::Mask => true,
    }
}
