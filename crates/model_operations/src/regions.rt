//! Laws of regions, position by position.

ghost use Rattle.std.specs.Prelude.{◌≡◌, ℕ, ℤ, ◌<◌, ◌↔◌, List, [], ◌∷◌, Some, false, true};
ghost use Rattle.plane_rect.specs.Rectangle.{Includes, Inside, InsideGrown, Rectangle, is_empty};
ghost use Rattle.model_operations.specs.Boxes.{box_of, result_box};
ghost use Rattle.model_operations.specs.Inputs.{input_box, input_count};
ghost use Rattle.model_operations.specs.Moves.{source_index, mirrored, mirrored_part, moved_into, position, surrounded};
ghost use Rattle.model_operations.specs.Regions.{IsNearestTo, invalidated, is_pointwise, required};
ghost use Rattle.model_operations.specs.declared.operation.IntOp.{IntOp};

/// States that where each pixel of the result is of the pixels at its own position, a region reads and reaches
/// itself, as far as it is in the input's box and in the result's.
pub fn pointwise_regions()
    ensures required { (op : IntOp) (boxes : List Rectangle) (i : ℕ) (region : Rectangle) (u v : ℕ) →
        is_pointwise op ≡ true →
        Inside u v (required op boxes i region)
        ↔ (Inside u v region × Inside u v (result_box op boxes) × Inside u v (input_box boxes i)) }
    ensures invalidated { (op : IntOp) (boxes : List Rectangle) (i : ℕ) (region : Rectangle) (u v : ℕ) →
        is_pointwise op ≡ true →
        Inside u v (invalidated op boxes i region)
        ↔ (Inside u v region × Inside u v (input_box boxes i) × Inside u v (result_box op boxes)) }
{}

/// States that a surrounded rectangle has the positions that are near to one of its own. Moved into a box, a
/// rectangle has the nearest position of the box to each of its own.
pub fn area_regions()
    ensures surrounded { (by u v : ℕ) (r : Rectangle) →
        Inside u v (surrounded by r) ↔ InsideGrown by u v r }
    ensures moved_into { (box r : Rectangle) (u v : ℕ) → is_empty box ≡ false →
        Inside u v (moved_into box r) ↔ IsNearestTo box u v r }
{}

/// States that a part of a box, mirrored in it, has the positions of the box whose own mirror positions are in the
/// part.
pub fn mirrored_regions()
    ensures sideways { (box part : Rectangle) (u v : ℕ) → Includes box part → Inside u v box →
        Inside u v (mirrored_part true box part) ↔ Inside (mirrored box.first_column box.width u) v part }
    ensures upright { (box part : Rectangle) (u v : ℕ) → Includes box part → Inside u v box →
        Inside u v (mirrored_part false box part) ↔ Inside u (mirrored box.first_row box.height v) part }
{}

/// States that each position of a translated image shows the position of its input that was moved there.
pub fn translated_positions()
    ensures { (dx dy : ℤ) (box moved : Rectangle) →
        box_of (IntOp.Translate dx dy) (box ∷ []) ≡ Some moved →
        (u v : ℕ) → Inside u v moved → Inside (source_index dx u) (source_index dy v) box }
{}
