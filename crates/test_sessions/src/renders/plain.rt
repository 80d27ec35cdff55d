//! Images by the plain program.

use crate::renders::examples::{Example, Given, Samples};
use crate::values::{Fields, name};
use int_ops::IntOp;
use model_graphs::{Body, NodeEdit};
use pixel_formats::Abyss;
use plain_images::{Buffer, Picture, Step, evaluate, from_raw, level, raw_with};
use plane_rect::{Name, NameList};
use std::alloc::{AllocError, Global};
use std::process::Abort;
use test_nodes::{rect, sketched};

/// Returns so many bytes that look random.
pub fn bytes(rt: &impl Abort, alloc: Global, seed: u32, count: u64) -> Vec<u8> {
    let mut bytes = Vec::new(alloc);
    let mut state = seed;
    for _index in 0..count {
        state = state.wrapping_mul(1_664_525).wrapping_add(1_013_904_223);
        bytes.push((state >> 24) as u8).expect(rt, "memory");
    }
    bytes
}

/// Returns the image of a buffer of random bytes.
fn picture_of(rt: &impl Abort, alloc: Global, (_, format, fields, samples): &Given) -> Picture {
    let Samples::Random(seed) = samples else {
        panic!(rt; "a buffer of random bytes");
    };
    let rect = rect(*fields);
    let count = rect.area() * u64::from(format.pixel_bytes());
    let raw = bytes(rt, alloc, *seed, count);
    assert!(rt; raw.len() as u64 == count);
    from_raw(alloc, rect, *format, &raw).expect(rt, "memory")
}

/// Returns the positions of nodes by their names.
fn positions_of(rt: &impl Abort, alloc: Global, names: &[Name], inputs: &NameList) -> Vec<usize> {
    let mut positions = Vec::new(alloc);
    for input in inputs.as_slice() {
        let position = names.iter().position(|name| name == input);
        positions
            .push(position.expect(rt, "a node"))
            .expect(rt, "memory");
    }
    positions
}

/// Returns the steps by which nodes are evaluated, one after another.
fn steps_of(rt: &impl Abort, alloc: Global, edits: &[NodeEdit<IntOp>]) -> Vec<Step> {
    let (mut names, mut steps) = (Vec::new(alloc), Vec::new(alloc));
    for edit in edits {
        let NodeEdit::Set(node) = edit else {
            panic!(rt; "a node");
        };
        let step = match &node.body {
            Body::Source { buffer } => Step::FromBuffer(*buffer),
            Body::Compute { op, inputs } => Step::Apply(
                op.clone().expect(rt, "memory"),
                positions_of(rt, alloc, &names, inputs),
            ),
        };
        names.push(node.name).expect(rt, "memory");
        steps
            .push(step)
            .map_err(AllocError::from)
            .expect(rt, "memory");
    }
    steps
}

/// Returns the images of the nodes of an example that asks for them.
pub fn pictures_of(rt: &impl Abort, alloc: Global, example: &Example) -> Vec<Picture> {
    let mut buffers = Vec::new(alloc);
    if !example.is_plain {
        return Vec::new(alloc);
    }
    for given in example.given {
        let picture = picture_of(rt, alloc, given);
        let buffer = Buffer {
            name: name(rt, given.0),
            picture,
        };
        buffers
            .push(buffer)
            .map_err(AllocError::from)
            .expect(rt, "memory");
    }
    let sketch = sketched(alloc, example.nodes).expect(rt, "nodes");
    let steps = steps_of(rt, alloc, &sketch.edits);
    let images = evaluate(alloc, &buffers, &steps).expect(rt, "memory");
    images.expect(rt, "nodes that take their inputs")
}

/// Returns the raw bytes of a rectangle of a level of an image, zero outside of it.
pub fn level_bytes(
    rt: &impl Abort,
    alloc: Global,
    picture: &Picture,
    z: u32,
    fields: Fields,
) -> Vec<u8> {
    let picture = level(alloc, picture, z).expect(rt, "memory");
    raw_with(alloc, &picture, Abyss::None, &rect(fields)).expect(rt, "memory")
}
