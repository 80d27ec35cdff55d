//! What windows show, and what a result is of windows in place of images.

ghost use Rattle.std.specs.Prelude.{◌≡◌, ℕ, ◌<◌, List, length, map, slice_index_or};
ghost use Rattle.plane_rect.specs.Rectangle.{Includes, Rectangle};
ghost use Rattle.model_images.specs.{Image.Image, Paint.no_image};
ghost use Rattle.model_graphs.specs.Meanings.{boxes_of, result_box, result_of};
ghost use Rattle.model_graphs.specs.Windows.{AreWindowsOf, IsWholeWindow, IsWindowOf, Window, window_image};
ghost use Rattle.model_images.specs.Agreement.{AgreeOver};

use crate::meanings::OpMeaning;

/// States that a whole window shows the image that it is of, wherever it is needed.
pub fn windows_show_their_images()
    ensures shape { (image : Image) (window : Window) → IsWindowOf image window →
        ((window_image window).box ≡ image.box) × ((window_image window).format ≡ image.format) }
    ensures samples { (image : Image) (window : Window) → IsWindowOf image window → IsWholeWindow window →
        AgreeOver (window_image window) image window.need }
{}

/// States that over a part of a result, an operation gives of windows what it gives of their images, where each
/// window is needed at all that the part requires of its input.
pub fn windows_give_the_result<Op: OpMeaning>()
    ensures { (operation : Op) (images : List Image) (windows : List Window) (part : Rectangle) →
        Includes (result_box Op.meanings operation (boxes_of images)) part →
        AreWindowsOf Op.meanings operation images windows part →
        AgreeOver (result_of Op.meanings operation (map window_image windows)) (result_of Op.meanings operation images) part }
{}
