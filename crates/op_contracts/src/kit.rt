//! What carries out the operations of a type.

ghost use Rattle.std.specs.Prelude.{◌≡◌, ℕ, ◌<◌, ◌^◌, All, IfOk, IfSome, IsSome, length};
ghost use Rattle.plane_rect.specs.Rectangle.{Includes};
ghost use Rattle.model_images.specs.Paint.{cut};
ghost use Rattle.model_graphs.specs.{Meanings.result_box, Permits.Takes, Windows.IsWholeWindow};
ghost use Rattle.op_contracts.specs.Applying.{CopiesInput, HaveRequired, IsInOneTile, bounds_of, result_of_windows, window_bounds, window_formats};

use crate::window::Window;
use alloc_basics::NoMemory;
use model_graphs::OpMeaning;
use patch_abyss::Patch;
use pixel_formats::Format;
use plane_rect::Rect;
use std::alloc::Global;

/// How many pixels a tile has.
const TILE_PIXELS: u64 = 64 * 64;

/// How many bytes a pixel of the result is taken to have, near the mean of the formats of 8 and 16 bits.
const MADE_BYTES: u64 = 4;

/// How many bytes of its windows an operation goes through in a nanosecond, at least: an area operation takes some 0.1 ns for
/// each, and a pointwise one less.
const READ_BYTES_PER_NANOSECOND: u64 = 10;

/// How many bytes of a tile are written in a nanosecond, at least: mostly they are new memory, of which the system gives out
/// a page in some 2 us.
const MADE_BYTES_PER_NANOSECOND: u64 = 2;

/// Carries out the operations of a type. Each of its answers is what the type means, so two kits with
/// one type of operations answer the same. The lists of formats, boxes and windows that a call is handed
/// have a member for each input.
///
/// The same laws hold of each kit, since they are those of its `Op`: see [`OpMeaning`].
pub trait OpKit {
    /// The operations.
    type Op: OpMeaning + Drop;
    /// What permits are taken from.
    type Purse;
    /// What each application of an operation spends. It comes from a purse and from nowhere else.
    type Permit: Drop;

    /// How many permits are left in a purse.
    ghost permits: { Self.Purse → ℕ };

    /// Returns the number of an operation's inputs.
    fn arity(&self, op: &Self::Op) -> u32
        ensures { result ≡ Self.Op.meanings.input_count op.now };

    /// Returns the format of the result, and None exactly where the inputs' formats or a number of the
    /// operation don't suit.
    fn check(&self, op: &Self::Op, formats: &[Format]) -> Option<Format>
        requires { length formats.now ≡ Self.Op.meanings.input_count op.now }
        ensures { result ≡ Self.Op.meanings.format op.now formats.now };

    /// Returns the bounding box of the result, and None exactly where it is no rectangle in limits.
    fn bounds(&self, op: &Self::Op, boxes: &[Rect]) -> Option<Rect>
        requires { length boxes.now ≡ Self.Op.meanings.input_count op.now }
        ensures { result ≡ bounds_of Self.Op.meanings op.now boxes.now };

    /// Returns the positions of an input that a rectangle of the result requires. They are in the
    /// input's box.
    fn required(&self, op: &Self::Op, boxes: &[Rect], input: usize, out: Rect) -> Rect
        requires inputs { length boxes.now ≡ Self.Op.meanings.input_count op.now }
        requires input { input < Self.Op.meanings.input_count op.now }
        requires bounds { IsSome (bounds_of Self.Op.meanings op.now boxes.now) }
        ensures { result ≡ Self.Op.meanings.required op.now boxes.now input out };

    /// Returns the positions of the result that a change of a rectangle of an input invalidates. They
    /// are in the result's box.
    fn invalidated(&self, op: &Self::Op, boxes: &[Rect], input: usize, changed: Rect) -> Rect
        requires inputs { length boxes.now ≡ Self.Op.meanings.input_count op.now }
        requires input { input < Self.Op.meanings.input_count op.now }
        requires bounds { IsSome (bounds_of Self.Op.meanings op.now boxes.now) }
        ensures { result ≡ Self.Op.meanings.invalidated op.now boxes.now input changed };

    /// Returns the number of an input that an operation copies over a part of its result: the result has that input's
    /// pixels there. None where it copies none, or the kit doesn't know.
    fn copied_input(&self, op: &Self::Op, boxes: &[Rect], out: Rect) -> Option<usize>
        requires inputs { length boxes.now ≡ Self.Op.meanings.input_count op.now }
        requires part { Includes (result_box Self.Op.meanings op.now boxes.now) out }
        ensures { IfSome result (CopiesInput Self.Op.meanings op.now boxes.now out) }
    {
        None
    }

    /// Returns about how many nanoseconds it takes to apply an operation to what windows show, by which it is decided among
    /// how many workers a request is split: it changes no result. By what the tiles of the windows have in bytes, unless
    /// the kit says otherwise, as it should of an operation that is dear although it reads little. Takes time in
    /// proportion to the number of windows.
    fn nanoseconds(&self, _op: &Self::Op, windows: &[Window]) -> u64 {
        let mut read: u64 = 0;
        for window in windows {
            let tiles = window.tiles.as_slice().len() as u64;
            let tile_bytes = TILE_PIXELS * window.format.pixel_bytes() as u64;
            read = read.saturating_add(tiles.saturating_mul(tile_bytes));
        }
        read / READ_BYTES_PER_NANOSECOND + TILE_PIXELS * MADE_BYTES / MADE_BYTES_PER_NANOSECOND
    }

    /// Returns how many permits are left in a purse.
    fn left(&self, purse: &Self::Purse) -> u64
        ensures { result ≡ permits purse.now };

    /// Takes a permit from a purse, which has one fewer then; None exactly where none is left.
    fn take(&self, purse: &mut Self::Purse) -> Option<Self::Permit>
        ensures { Takes (permits purse.old) (permits purse.new) result };

    /// Returns whether an operation may stand through a mask, which mixes its result with its first input: its result has
    /// that input's pixels in place.
    fn steady(&self, op: &Self::Op) -> bool
        ensures { result ≡ Self.Op.steady op.now };

    /// Returns whether two operations are one, with the same arguments.
    fn same(&self, a: &Self::Op, b: &Self::Op) -> bool
        ensures { result ≡ Self.Op.same a.now b.now };

    /// Returns an equal operation.
    ///
    /// # Errors
    ///
    /// `NoMemory` if memory runs out.
    fn copy_op(&self, alloc: Global, op: &Self::Op) -> Result<Self::Op, NoMemory>
        ensures { IfOk result (λ copy. copy ≡ op.now) };

    /// Returns a part of the result that an operation gives of the images that windows show. The part
    /// is in one tile. It spends the permit, also at an error.
    ///
    /// # Errors
    ///
    /// `NoMemory` if memory runs out.
    fn apply(
        &self,
        alloc: Global,
        permit: Self::Permit,
        op: &Self::Op,
        boxes: &[Rect],
        windows: &[Window],
        out: Rect,
    ) -> Result<Patch, NoMemory>
        requires inputs { length windows.now ≡ Self.Op.meanings.input_count op.now }
        requires boxes { boxes.now ≡ window_bounds windows.now }
        requires format { IsSome (Self.Op.meanings.format op.now (window_formats windows.now)) }
        requires bounds { IsSome (bounds_of Self.Op.meanings op.now boxes.now) }
        requires part { Includes (result_box Self.Op.meanings op.now boxes.now) out }
        requires tile { IsInOneTile out }
        requires whole { All IsWholeWindow windows.now }
        requires required { HaveRequired Self.Op.meanings op.now boxes.now windows.now out }
        ensures { IfOk result (λ patch. patch ≡ cut (result_of_windows Self.Op.meanings op.now windows.now) out) };
}
