//! Whole-image evaluation of graphs.

ghost use Rattle.std.specs.Prelude.{◌≡◌, ◌↔◌, [], map, option_map, slice_index_or, IfOk, IfSome, IsSome};
ghost use Rattle.std.specs.Map.{lookup};
ghost use Rattle.std.specs.Str.{bytes_eq};
ghost use Rattle.model_graphs.specs.Evaluation.{buffer_image, images_after, step_image};
ghost use Rattle.model_images.specs.Paint.{no_image};
ghost use Rattle.model_operations.specs.Results.{result_of};
ghost use Rattle.plain_images.specs.Evaluation.{AreTaken, IsTaken, graph_step, inputs_among, named};

use crate::picture::{Picture, no_picture};
use crate::results::result_of;
use alloc_basics::NoMemory;
use model_operations::IntOp;
use plane_rect::Name;
use std::alloc::Global;

/// A buffer that a graph reads.
#[derive(Drop)]
pub struct Buffer {
    pub name: Name,
    pub picture: Picture,
}

/// What a node of a graph stands for.
#[derive(Drop)]
pub enum Step {
    /// The image of a buffer.
    FromBuffer(Name),
    /// An operation on the images of nodes, by their positions in the list.
    Apply(IntOp, Vec<usize>),
}

/// Returns the images of the steps, one after another in their order, and None exactly where an operation
/// doesn't take its inputs.
///
/// # Errors
///
/// No memory was left.
pub fn evaluate(
    alloc: Global,
    buffers: &[Buffer],
    steps: &[Step],
) -> Result<Option<Vec<Picture>>, NoMemory>
    ensures taken { IfOk result (λ made.
        IsSome made ↔ AreTaken (named buffers.now) [] (map graph_step steps.now)) }
    ensures images { IfOk result (λ made. IfSome made (λ images.
        images.items ≡ images_after result_of (named buffers.now) [] (map graph_step steps.now))) }
{
    let mut images = Vec::new(alloc);
    for step in steps {
        let Some(image) = step_picture(alloc, buffers, &images, step)? else {
            return Ok(None);
        };
        images.push(image)?;
    }
    Ok(Some(images))
}

/// Returns the image of a step after others.
fn step_picture(
    alloc: Global,
    buffers: &[Buffer],
    before: &[Picture],
    step: &Step,
) -> Result<Option<Picture>, NoMemory>
    ensures taken { IfOk result (λ made. IsSome made ↔ IsTaken before.now (graph_step step.now)) }
    ensures image { IfOk result (λ made. IfSome made (λ picture.
        picture ≡ step_image result_of (named buffers.now) before.now (graph_step step.now))) }
{
    match step {
        Step::FromBuffer(name) => Ok(Some(buffer_picture(alloc, buffers, *name)?)),
        Step::Apply(op, inputs) => result_of(alloc, op, &inputs_among(alloc, before, inputs)?),
    }
}

/// Returns the image of the first buffer of a name, and that of no position where there is none.
fn buffer_picture(alloc: Global, buffers: &[Buffer], name: Name) -> Result<Picture, NoMemory>
    ensures { IfOk result (λ picture. picture ≡ buffer_image (named buffers.now) name) }
{
    match buffer_of(buffers, name) {
        Some(buffer) => buffer.picture.copy(alloc),
        None => Ok(no_picture(alloc)),
    }
}

/// Returns the first buffer of a name.
fn buffer_of(buffers: &[Buffer], name: Name) -> Option<&Buffer>
    ensures { option_map (λ buffer. buffer.now.picture) result
        ≡ lookup (bytes_eq name) (named buffers.now) }
{
    buffers.iter().find(|buffer| name == buffer.name)
}

/// Returns the images at some positions of a list, and that of no position after its end.
fn inputs_among(
    alloc: Global,
    before: &[Picture],
    positions: &[usize],
) -> Result<Vec<Picture>, NoMemory>
    ensures { IfOk result (λ inputs. inputs.items ≡ inputs_among before.now positions.now) }
{
    let mut inputs = Vec::new(alloc);
    for position in positions {
        inputs.push(picture_among(alloc, before, *position)?)?;
    }
    Ok(inputs)
}

/// Returns the image at an index of a list, and that of no position after its end.
fn picture_among(alloc: Global, before: &[Picture], position: usize) -> Result<Picture, NoMemory>
    ensures { IfOk result (λ picture. picture ≡ slice_index_or before.now position no_image) }
{
    match before.get(position) {
        Some(picture) => picture.copy(alloc),
        None => Ok(no_picture(alloc)),
    }
}
