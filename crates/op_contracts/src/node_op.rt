//! The operations of nodes, by themselves or through a mask, as any kit carries them out.

ghost use Rattle.std.specs.Prelude.{◌≡◌, ◌<◌, ◌==◌, All, IfOk, IfSome, IsSome, length, Some};
ghost use Rattle.plane_rect.specs.Rectangle.{Includes};
ghost use Rattle.model_images.specs.Paint.{cut};
ghost use Rattle.model_graphs.specs.Filters.{format_through, is_mask_of};
ghost use Rattle.model_graphs.specs.{Meanings.result_box, Windows.IsWholeWindow};
ghost use Rattle.op_contracts.specs.Applying.{CopiesInput, HaveRequired, IsInOneTile, bounds_of, result_of_windows, window_bounds, window_formats};
ghost use Rattle.op_contracts.specs.NodeOps.{filter_of};

use crate::kit::OpKit;
use crate::mixture::mixed_part;
use crate::window::Window;
use alloc_basics::NoMemory;
use patch_abyss::Patch;
use pixel_formats::Format;
use plane_rect::{Name, Rect};
use std::alloc::Global;
use std::marker::Model;

/// About how many nanoseconds it takes to mix a tile by a mask: mostly to write it into new memory.
const MIX_NANOSECONDS: u64 = 10_000;

/// The operation of a node: by itself, or through a mask, which mixes what it gives with its first input. The mask is then
/// the last of the node's inputs, and the lists of formats, boxes and windows that a call is handed have a member for it
/// too. The calls answer as those of a kit, and take the time of the kit's; a clause sees it as the operation, by itself or
/// through a mask.
#[derive(Drop)]
pub struct NodeOp<'a, Op> {
    op: &'a Op,
    is_masked: bool,
}

impl<'a, Op> Model for NodeOp<'a, Op> {
    ghost use Rattle.std.specs.Prelude.{if◌then◌else◌};
    ghost use Rattle.model_graphs.specs.Filter.{Filter, Plain, Through};

    ghost Value = { Filter Op };

    ghost view = { λ node_op. if node_op.is_masked then Through node_op.op.now else Plain node_op.op.now };
}

impl<'a, Op> NodeOp<'a, Op> {
    /// Returns the operation of a node, through the mask of a name where it has one.
    pub fn new(op: &'a Op, through: &Option<Name>) -> NodeOp<'a, Op>
        ensures { result ≡ filter_of op.now through.now }
    {
        let is_masked = through.is_some();
        NodeOp { op, is_masked }
    }

    /// Returns whether it takes so many inputs, with the mask. An operation that isn't steady takes none through a mask, so that
    /// no list with a mask suits it.
    pub fn takes<K: OpKit<Op = Op>>(&self, kit: &K, count: usize) -> bool
        ensures { result ≡ (count == Op.nodes.input_count self.now) }
    {
        let own = kit.arity(self.op) as usize;
        if !self.is_masked {
            return count == own;
        }
        if !kit.steady(self.op) {
            return count == 0;
        }
        count > 0 && count - 1 == own
    }

    /// Returns the format of the result, and None exactly where the inputs' formats or a number of the operation don't suit.
    /// Through a mask the result has the first input's format, and the mask's is gray without alpha and as deep.
    pub fn check<K: OpKit<Op = Op>>(&self, kit: &K, formats: &[Format]) -> Option<Format>
        requires { length formats.now ≡ Op.nodes.input_count self.now }
        ensures { result ≡ Op.nodes.format self.now formats.now }
    {
        if !self.is_masked {
            return kit.check(self.op, formats);
        }
        let own = formats.len().checked_sub(1)?;
        let format = kit.check(self.op, &formats[..own])?;
        format_through(formats[0], formats[own], format)
    }

    /// Returns the bounding box of the result, and None exactly where it is no rectangle in limits.
    pub fn bounds<K: OpKit<Op = Op>>(&self, kit: &K, boxes: &[Rect]) -> Option<Rect>
        requires { length boxes.now ≡ Op.nodes.input_count self.now }
        ensures { result ≡ bounds_of Op.nodes self.now boxes.now }
    {
        if !self.is_masked {
            return kit.bounds(self.op, boxes);
        }
        let own = boxes.len().checked_sub(1)?;
        kit.bounds(self.op, &boxes[..own])
    }

    /// Returns the positions of an input that a rectangle of the result requires: of the mask those of the rectangle itself.
    /// They are in the input's box.
    pub fn required<K: OpKit<Op = Op>>(
        &self,
        kit: &K,
        boxes: &[Rect],
        input: usize,
        out: Rect,
    ) -> Rect
        requires inputs { length boxes.now ≡ Op.nodes.input_count self.now }
        requires input { input < Op.nodes.input_count self.now }
        requires bounds { IsSome (bounds_of Op.nodes self.now boxes.now) }
        ensures { result ≡ Op.nodes.required self.now boxes.now input out }
    {
        if !self.is_masked {
            return kit.required(self.op, boxes, input, out);
        }
        let count = boxes.len() - 1;
        let own = &boxes[..count];
        if input < count {
            return kit.required(self.op, own, input, out);
        }
        let bounds = kit.bounds(self.op, own).unwrap();
        out.meet(&bounds).meet(&boxes[input])
    }

    /// Returns the positions of the result that a change of a rectangle of an input invalidates: a change of the mask those
    /// that changed. They are in the result's box.
    pub fn invalidated<K: OpKit<Op = Op>>(
        &self,
        kit: &K,
        boxes: &[Rect],
        input: usize,
        changed: Rect,
    ) -> Rect
        requires inputs { length boxes.now ≡ Op.nodes.input_count self.now }
        requires input { input < Op.nodes.input_count self.now }
        requires bounds { IsSome (bounds_of Op.nodes self.now boxes.now) }
        ensures { result ≡ Op.nodes.invalidated self.now boxes.now input changed }
    {
        if !self.is_masked {
            return kit.invalidated(self.op, boxes, input, changed);
        }
        let count = boxes.len() - 1;
        let own = &boxes[..count];
        if input < count {
            return kit.invalidated(self.op, own, input, changed);
        }
        let bounds = kit.bounds(self.op, own).unwrap();
        changed.meet(&boxes[input]).meet(&bounds)
    }

    /// Returns the number of an input that it copies over a part of its result: the result has that input's pixels there. None
    /// where it copies none, or the kit doesn't know; through a mask always.
    pub fn copied_input<K: OpKit<Op = Op>>(
        &self,
        kit: &K,
        boxes: &[Rect],
        out: Rect,
    ) -> Option<usize>
        requires inputs { length boxes.now ≡ Op.nodes.input_count self.now }
        requires part { Includes (result_box Op.nodes self.now boxes.now) out }
        ensures { IfSome result (CopiesInput Op.nodes self.now boxes.now out) }
    {
        if self.is_masked {
            return None;
        }
        kit.copied_input(self.op, boxes, out)
    }

    /// Returns about how many nanoseconds it takes to apply it to what windows show, as the kit says it of its own
    /// inputs, and to mix a tile: it changes no result. Takes time in proportion to the number of windows.
    pub fn nanoseconds<K: OpKit<Op = Op>>(&self, kit: &K, windows: &[Window]) -> u64 {
        if !self.is_masked {
            return kit.nanoseconds(self.op, windows);
        }
        let own = windows.len().saturating_sub(1);
        kit.nanoseconds(self.op, &windows[..own])
            .saturating_add(MIX_NANOSECONDS)
    }

    /// Returns a part of the result that it gives of the images that windows show. The part is in one tile. It spends the
    /// permit, also at an error.
    ///
    /// # Errors
    ///
    /// `NoMemory` if memory runs out.
    pub fn apply<K: OpKit<Op = Op>>(
        &self,
        kit: &K,
        alloc: Global,
        permit: K::Permit,
        boxes: &[Rect],
        windows: &[Window],
        out: Rect,
    ) -> Result<Patch, NoMemory>
        requires inputs { length windows.now ≡ Op.nodes.input_count self.now }
        requires boxes { boxes.now ≡ window_bounds windows.now }
        requires format { IsSome (Op.nodes.format self.now (window_formats windows.now)) }
        requires bounds { IsSome (bounds_of Op.nodes self.now boxes.now) }
        requires part { Includes (result_box Op.nodes self.now boxes.now) out }
        requires tile { IsInOneTile out }
        requires whole { All IsWholeWindow windows.now }
        requires required { HaveRequired Op.nodes self.now boxes.now windows.now out }
        ensures { IfOk result (λ patch. patch ≡ cut (result_of_windows Op.nodes self.now windows.now) out) }
    {
        if !self.is_masked {
            return kit.apply(alloc, permit, self.op, boxes, windows, out);
        }
        let own = windows.len() - 1;
        let made = kit.apply(alloc, permit, self.op, &boxes[..own], &windows[..own], out)?;
        mixed_part(alloc, &windows[0], &made, &windows[own])
    }
}

/// Returns the format that an operation gives by itself, where it is the first input's and a mask's suits it.
fn format_through(first: Format, mask: Format, format: Format) -> Option<Format>
    ensures { result ≡ format_through first mask (Some format) }
{
    if format == first && is_mask_of(mask, first) {
        Some(format)
    } else {
        None
    }
}

/// Returns whether a format is that of a mask for images of another: gray without alpha, and as deep.
fn is_mask_of(mask: Format, format: Format) -> bool
    ensures { result ≡ is_mask_of mask format }
{
    mask.channels() == 1 && mask.depth() == format.depth()
}
