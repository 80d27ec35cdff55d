//! How many tiles images and their levels have.

ghost use Rattle.std.specs.Prelude.{ℕ, ◌≤◌};
ghost use Rattle.plane_rect.specs.Rectangle.{Includes, IsRectangle, Rectangle};
ghost use Rattle.model_images.specs.TileCounts.{level_tiles, tile_count};

/// States that a part of a rectangle meets at most as many tiles, and its levels do so too. A read of a lower
/// level may make at most as many.
pub fn fewer_tiles()
    ensures part { (r part : Rectangle) → IsRectangle r → IsRectangle part → Includes r part → tile_count part ≤ tile_count r }
    ensures levels { (r part : Rectangle) (z : ℕ) → IsRectangle r → IsRectangle part → Includes r part →
        level_tiles part z ≤ level_tiles r z }
    ensures lower { (r : Rectangle) (z most : ℕ) → z ≤ most → level_tiles r z ≤ level_tiles r most }
{}
