//! The kit of the operation, with its purse.

ghost use Rattle.std.specs.Prelude.{◌≡◌, ◌<◌, All, IfOk, IsSome, length, true};
ghost use Rattle.plane_rect.specs.Rectangle.{Includes};
ghost use Rattle.model_images.specs.Paint.{cut};
ghost use Rattle.model_graphs.specs.{Meanings.result_box, Permits.Takes, Windows.IsWholeWindow};
ghost use Rattle.op_contracts.specs.Applying.{HaveRequired, IsInOneTile, bounds_of, result_of_windows, window_bounds, window_formats};
ghost use Rattle.test_kit.specs.Cutting.{cut_format, cut_invalidated, cut_required, cutting, same_cut};

use crate::cutting::CutTo;
use alloc_basics::NoMemory;
use op_contracts::{OpKit, Window};
use patch_abyss::Patch;
use pixel_formats::Format;
use plane_rect::Rect;
use std::alloc::Global;

/// Carries out `CutTo`.
#[derive(Drop)]
pub struct CutKit;

/// Permits to cut tiles.
#[derive(Drop)]
pub struct CutPurse {
    left: u64,
}

/// A permit to cut one tile.
#[derive(Drop)]
pub struct CutPermit {
    _spent: (),
}

impl CutPurse {
    /// Returns a purse of so many permits.
    pub fn new(permits: u64) -> CutPurse
        ensures { result.left ≡ permits }
    {
        CutPurse { left: permits }
    }
}

impl OpKit for CutKit {
    type Op = CutTo;

    type Purse = CutPurse;

    type Permit = CutPermit;

    ghost permits = { λ purse. purse.left };

    fn arity(&self, op: &CutTo) -> u32
        ensures { result ≡ 1 }
    {
        1
    }

    fn check(&self, op: &CutTo, formats: &[Format]) -> Option<Format>
        requires { length formats.now ≡ 1 }
        ensures { result ≡ cut_format op.now formats.now }
    {
        Some(formats[0])
    }

    fn bounds(&self, op: &CutTo, boxes: &[Rect]) -> Option<Rect>
        requires { length boxes.now ≡ 1 }
        ensures { result ≡ bounds_of cutting op.now boxes.now }
    {
        let bounds = op.rect.meet(&boxes[0]);
        if bounds.in_limits() {
            Some(bounds)
        } else {
            None
        }
    }

    fn required(&self, op: &CutTo, boxes: &[Rect], input: usize, out: Rect) -> Rect
        requires inputs { length boxes.now ≡ 1 }
        requires input { input < 1 }
        requires bounds { IsSome (bounds_of cutting op.now boxes.now) }
        ensures { result ≡ cut_required op.now boxes.now input out }
    {
        out.meet(&boxes[input])
    }

    fn invalidated(&self, op: &CutTo, boxes: &[Rect], input: usize, changed: Rect) -> Rect
        requires inputs { length boxes.now ≡ 1 }
        requires input { input < 1 }
        requires bounds { IsSome (bounds_of cutting op.now boxes.now) }
        ensures { result ≡ cut_invalidated op.now boxes.now input changed }
    {
        changed.meet(&op.rect.meet(&boxes[input]))
    }

    fn left(&self, purse: &CutPurse) -> u64
        ensures { result ≡ purse.now.left }
    {
        purse.left
    }

    fn take(&self, purse: &mut CutPurse) -> Option<CutPermit>
        ensures { Takes purse.old.left purse.new.left result }
    {
        purse.left = purse.left.checked_sub(1)?;
        Some(CutPermit { _spent: () })
    }

    fn steady(&self, op: &CutTo) -> bool
        ensures { result ≡ true }
    {
        true
    }

    fn same(&self, a: &CutTo, b: &CutTo) -> bool
        ensures { result ≡ same_cut a.now b.now }
    {
        a.rect == b.rect
    }

    fn copy_op(&self, alloc: Global, op: &CutTo) -> Result<CutTo, NoMemory>
        ensures { IfOk result (λ copy. copy ≡ op.now) }
    {
        Ok(*op)
    }

    fn apply(
        &self,
        alloc: Global,
        permit: CutPermit,
        op: &CutTo,
        boxes: &[Rect],
        windows: &[Window],
        out: Rect,
    ) -> Result<Patch, NoMemory>
        requires inputs { length windows.now ≡ 1 }
        requires boxes { boxes.now ≡ window_bounds windows.now }
        requires format { IsSome (cut_format op.now (window_formats windows.now)) }
        requires bounds { IsSome (bounds_of cutting op.now boxes.now) }
        requires part { Includes (result_box cutting op.now boxes.now) out }
        requires tile { IsInOneTile out }
        requires whole { All IsWholeWindow windows.now }
        requires required { HaveRequired cutting op.now boxes.now windows.now out }
        ensures { IfOk result (λ patch. patch ≡ cut (result_of_windows cutting op.now windows.now) out) }
    {
        let CutPermit { _spent } = permit;
        prove!(out.area() <= 1 << 25);
        windows[0].part(alloc, out)
    }
}
