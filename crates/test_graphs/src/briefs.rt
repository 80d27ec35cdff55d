//! Edits and graphs in few words.

use crate::trial::Trial;
use crate::values::{Fields, name};
use int_ops::{IntKit, IntOp};
use model_graphs::{Edited, NodeEdit};
use pixel_formats::{Abyss, Format, PixelSamples};
use std::alloc::{AllocError, Global};
use std::process::Abort;
use test_nodes::{buffer, node, rect, source};

/// An edit.
#[derive(Clone, Copy)]
pub(crate) enum Brief {
    /// A node of the image of a buffer.
    Source(&'static str, &'static str),
    /// A node of an operation on others.
    Compute(&'static str, Kind, &'static [&'static str]),
    /// The node of a name goes.
    Remove(&'static str),
}

/// An operation.
#[derive(Clone, Copy)]
pub(crate) enum Kind {
    /// A row of one color, so many columns wide.
    Color(i64),
    Crop(Fields),
    Invert,
    /// Left and right change places.
    Mirror,
    /// So many columns to the right and rows down.
    Move(i64, i64),
    /// Gray with alpha.
    WithAlpha,
    Add,
    /// The mean of the square of this radius, beyond whose input is nothing.
    Mean(u32),
    Over,
}

/// Returns an operation.
fn op_of(rt: &impl Abort, alloc: Global, kind: &Kind) -> IntOp {
    match *kind {
        Kind::Color(width) => IntOp::Color {
            format: Format::Y8,
            rect: rect([0, 0, width, 1]),
            samples: PixelSamples::new(vec![in alloc; 5].expect(rt, "memory")),
        },
        Kind::Crop(fields) => IntOp::Crop { rect: rect(fields) },
        Kind::Invert => IntOp::Invert,
        Kind::Mirror => IntOp::Flip { sideways: true },
        Kind::Move(dx, dy) => IntOp::Translate { dx, dy },
        Kind::WithAlpha => IntOp::Convert {
            format: Format::YA8,
        },
        Kind::Add => IntOp::Add,
        Kind::Mean(radius) => IntOp::BoxMean {
            radius,
            abyss: Abyss::None,
        },
        Kind::Over => IntOp::Over,
    }
}

/// Returns an edit.
fn edit_of(rt: &impl Abort, alloc: Global, brief: &Brief) -> NodeEdit<IntOp> {
    let set = match brief {
        Brief::Source(word, buffer) => source(word, buffer),
        Brief::Compute(word, kind, inputs) => node(alloc, word, op_of(rt, alloc, kind), inputs),
        Brief::Remove(word) => return NodeEdit::Remove(name(rt, word)),
    };
    NodeEdit::Set(set.expect(rt, "a node"))
}

/// Adds an edit to a list.
fn add(rt: &impl Abort, edits: &mut Vec<NodeEdit<IntOp>>, edit: NodeEdit<IntOp>) {
    edits
        .push(edit)
        .map_err(AllocError::from)
        .expect(rt, "memory");
}

/// Returns edits.
pub(crate) fn edits_of(rt: &impl Abort, alloc: Global, briefs: &[Brief]) -> Vec<NodeEdit<IntOp>> {
    let mut edits = Vec::new(alloc);
    for brief in briefs {
        add(rt, &mut edits, edit_of(rt, alloc, brief));
    }
    edits
}

/// Returns edits that set as many nodes of new names.
pub(crate) fn new_nodes(rt: &impl Abort, alloc: Global, count: u32) -> Vec<NodeEdit<IntOp>> {
    let mut edits = Vec::new(alloc);
    for number in 0..count {
        let word = format!(in alloc; "k{number}").expect(rt, "memory");
        let set = node(alloc, &word, op_of(rt, alloc, &Kind::Color(1)), &[]);
        add(rt, &mut edits, NodeEdit::Set(set.expect(rt, "a node")));
    }
    edits
}

/// Returns a graph without a node, over a buffer `a` of gray bytes.
pub(crate) fn trial_over(rt: &impl Abort, alloc: Global, extent: Fields) -> Trial<IntKit> {
    let buffer = buffer("a", Format::Y8, extent).expect(rt, "a buffer");
    let buffers = vec![in alloc; buffer].expect(rt, "memory");
    Trial::new(alloc, IntKit, buffers)
}

/// Adds a buffer of gray bytes with alpha.
pub(crate) fn add_buffer(rt: &impl Abort, trial: &mut Trial<IntKit>, word: &str) {
    let added = buffer(word, Format::YA8, [0, 0, 8, 8]).expect(rt, "a buffer");
    trial
        .buffers
        .push(added)
        .map_err(AllocError::from)
        .expect(rt, "memory");
}

/// Commits that a rectangle of the root `a` was written.
pub(crate) fn write(rt: &impl Abort, trial: &mut Trial<IntKit>, fields: Fields) {
    let root = name(rt, "a");
    let rect = rect(fields);
    trial.commit(rt, &[], &[Edited { root, rect }]);
}
