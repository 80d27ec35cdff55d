//! What all results have in common.

ghost use Rattle.std.specs.Prelude.{◌≡◌, ℕ, ◌<◌, ◌≤◌, List, [], ◌∷◌, Some};
ghost use Rattle.plane_rect.specs.Rectangle.{InLimits, Inside, Rectangle};
ghost use Rattle.pixel_formats.specs.Format.{channels, max_sample};
ghost use Rattle.pixel_formats.specs.declared.format.Format.{Format};
ghost use Rattle.model_images.specs.Image.{Image, IsImage, at};
ghost use Rattle.model_images.specs.Paint.{inverted_image};
ghost use Rattle.model_operations.specs.Boxes.{box_of, result_box};
ghost use Rattle.model_operations.specs.Inputs.{boxes_of, formats_of, input_image, input_count};
ghost use Rattle.model_operations.specs.Results.{IsInRange, result_format, result_of};
ghost use Rattle.model_operations.specs.{declared.operation.IntOp.IntOp, Formats.format_of, Meanings.int_meanings, Values.value_at};
ghost use Rattle.model_graphs.specs.Laws.{KeepsNothing};

/// States that a result is an image of the box and the format that the operation gives for its inputs, with the
/// operation's value at each position of the box.
#[tactic(auto, using(crate::proofs::ResultLaws::result_laws))]
pub fn result_is_generated()
    ensures whole { (op : IntOp) (images : List Image) → IsImage (result_of op images) }
    ensures bounds { (op : IntOp) (images : List Image) (box : Rectangle) →
        box_of op (boxes_of images) ≡ Some box → (result_of op images).box ≡ box }
    ensures format { (op : IntOp) (images : List Image) (format : Format) →
        format_of op (formats_of images) ≡ Some format → (result_of op images).format ≡ format }
    ensures value { (op : IntOp) (images : List Image) (u v c : ℕ) →
        Inside u v (result_box op (boxes_of images)) →
        c < channels (result_format op (formats_of images)) →
        at (result_of op images) u v c ≡ value_at op images u v c }
{}

/// States that an operation gives no box that is too large for an image.
pub fn box_in_limits()
    ensures { (op : IntOp) (boxes : List Rectangle) (box : Rectangle) →
        box_of op boxes ≡ Some box → InLimits box }
{}

/// States that the operation that inverts gives the inverse of an image.
pub fn inverse_of_image()
    ensures { (image : Image) → InLimits image.box →
        result_of IntOp.Invert (image ∷ []) ≡ inverted_image image }
{}

/// States that where no sample of the inputs is above the largest of its format, none of the result is, if the
/// operation takes such inputs.
pub fn result_in_range()
    ensures { (op : IntOp) (images : List Image) (format : Format) →
        format_of op (formats_of images) ≡ Some format →
        ((i : ℕ) → i < input_count op → IsInRange (input_image images i)) →
        (u v c : ℕ) → at (result_of op images) u v c ≤ max_sample format }
{}

/// States that a change without a pixel invalidates none.
pub fn nothing_invalidates_nothing()
    ensures { KeepsNothing int_meanings }
{}
