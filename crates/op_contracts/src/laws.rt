//! Laws by which callers speak of windows, of kits and of sources of tiles.

ghost use Rattle.std.specs.Prelude.{◌≡◌, ℕ, ◌++◌, All, IsSomeAnd, List, Option};
ghost use Rattle.chain_owners.specs.Owners.{Owns, Respects};
ghost use Rattle.chain_owners.specs.{Counts.Counts, Held.Held};
ghost use Rattle.plane_rect.specs.Rectangle.{InLimits, Includes, IsRectangle, Rectangle};
ghost use Rattle.model_images.specs.{Image.Image, Paint.cut};
ghost use Rattle.model_graphs.specs.Meanings.{boxes_of, formats_of, result_box, result_of};
ghost use Rattle.model_graphs.specs.Windows.{AreWindowsOf, IsWholeWindow, IsWindowOf, Window, window_image};
ghost use Rattle.chain_owners.specs.Cause.{HasSwapCause};
ghost use Rattle.chain_owners.specs.declared.swap_refused.SwapRefused.{SwapRefused as Refusal};
ghost use Rattle.chain_owners.specs.declared.swap_refused.SwapRefused.TheVariants.{NoMemory};
ghost use Rattle.op_contracts.specs.Applying.{HaveRequired, IsInOneTile, bounds_of, result_of_windows, window_bounds, window_formats};

use crate::source_tiles::SourceTiles;
use chain_owners::ChainMeaning;
use model_graphs::OpMeaning;

/// States that bounds that a kit gives are the result's box, and in limits; and that a box in limits is
/// given as it is.
pub fn bounds_of_results<Op: OpMeaning>()
    ensures boxes { (operation : Op) (boxes : List Rectangle) (bounds : Rectangle) →
        bounds_of Op.meanings operation boxes ≡ Option.Some bounds → result_box Op.meanings operation boxes ≡ bounds }
    ensures limits { (operation : Op) (boxes : List Rectangle) (bounds : Rectangle) →
        bounds_of Op.meanings operation boxes ≡ Option.Some bounds → InLimits bounds }
    ensures valid { (operation : Op) (boxes : List Rectangle) → IsSomeAnd (Op.meanings.box operation boxes) InLimits →
        bounds_of Op.meanings operation boxes ≡ Op.meanings.box operation boxes }
{}

/// States that windows of the inputs' images are what an application of an operation asks for: they have
/// the images' boxes and formats, are whole, and are needed at all that the part requires.
pub fn windows_may_be_applied<Op: OpMeaning>()
    ensures boxes { (operation : Op) (images : List Image) (windows : List Window) (part : Rectangle) →
        AreWindowsOf Op.meanings operation images windows part → window_bounds windows ≡ boxes_of images }
    ensures formats { (operation : Op) (images : List Image) (windows : List Window) (part : Rectangle) →
        AreWindowsOf Op.meanings operation images windows part → window_formats windows ≡ formats_of images }
    ensures whole { (operation : Op) (images : List Image) (windows : List Window) (part : Rectangle) →
        AreWindowsOf Op.meanings operation images windows part → All IsWholeWindow windows }
    ensures required { (operation : Op) (images : List Image) (windows : List Window) (part : Rectangle) →
        AreWindowsOf Op.meanings operation images windows part →
        HaveRequired Op.meanings operation (boxes_of images) windows part }
{}

/// States that a part that an operation is applied for is in limits, since it is in one tile.
pub fn parts_are_in_limits()
    ensures { (part : Rectangle) → IsRectangle part → IsInOneTile part → InLimits part }
{}

/// States that a part of what an operation gives of windows is that part of what it gives of the images
/// that they are of.
pub fn parts_of_results<Op: OpMeaning>()
    ensures { (operation : Op) (images : List Image) (windows : List Window) (part : Rectangle) →
        Includes (result_box Op.meanings operation (boxes_of images)) part →
        AreWindowsOf Op.meanings operation images windows part →
        cut (result_of_windows Op.meanings operation windows) part ≡ cut (result_of Op.meanings operation images) part }
{}

/// States that a whole window shows each part of its need as the image has it that it is of.
pub fn parts_of_windows()
    ensures { (image : Image) (window : Window) (part : Rectangle) → IsWindowOf image window → IsWholeWindow window →
        Includes window.need part → cut (window_image window) part ≡ cut image part }
{}

/// States that a call on a chain that respects its other owners leaves a source of tiles as it was, if it
/// wasn't handed to the call: what it is seen as is unchanged, and so is what it may ask of the chain.
pub fn sources_are_unchanged<H: ChainMeaning, S: SourceTiles<H>>()
    ensures images { (sources : S) (old new : Held) (before after : List ℕ) →
        Respects old new before after → Owns old (before ++ S.names sources) →
        S.images sources new ≡ S.images sources old }
    ensures over { (sources : S) (old new : Held) (before after : List ℕ) →
        Respects old new before after → Owns old (before ++ S.names sources) →
        S.is_over sources old → S.is_over sources new }
{}

/// States that over a chain without a store nothing but the end of memory is a reason to refuse.
pub fn no_store_no_swap_refusal()
    ensures { (old new : Counts) (names : ℕ) (refusal : Refusal) →
        new.faults ≡ 0 → old.used ≡ Option.None → HasSwapCause old new names refusal → refusal ≡ NoMemory }
{}
