//! The laws of strips and of levels of parts.

ghost use Rattle.std.specs.Prelude.{◌≡◌, ℕ, ◌+◌, ◌<◌, ◌≤◌, ◌↔◌, List, Some, length, slice_get};
ghost use Rattle.plane_rect.specs.Rectangle.{Inside, IsRectangle, Rectangle, scaled};
ghost use Rattle.plane_rect.specs.Tile.{tile_of, strip_rectangles};
ghost use Rattle.model_graphs.specs.Facts.{AreImagesOf, Facts, shapes_of_facts};
ghost use Rattle.model_graphs.specs.{Evaluation.Buffers, Meanings.Meanings, Shapes.shape_of_image, declared.node.NodeFact.NodeFact};
ghost use Rattle.model_images.specs.Level.{level, level_box};
ghost use Rattle.model_images.specs.{Image.Image, Paint.cut};
ghost use Rattle.model_states.specs.Valid.{AreStated};
ghost use Rattle.node_tiles.specs.Stated.{shape_at};
ghost use Rattle.strip_patches.specs.{LevelStrips.halves, Nodes.image_at};

/// States that a level of what an image has of the rectangle that is averaged for a rectangle of the level
/// is what the image's level has of that one, whose positions are those of its halves. A level of a level
/// is the level of the sum.
pub fn levels_of_parts()
    ensures part { (image : Image) (z : ℕ) (r s : Rectangle) → z ≤ 8 → scaled z r ≡ Some s →
        IsRectangle image.box → IsRectangle r → IsRectangle s → level (cut image s) z ≡ cut (level image z) r }
    ensures rectangle { (z : ℕ) (r s : Rectangle) → z ≤ 8 → scaled z r ≡ Some s →
        IsRectangle r → IsRectangle s → level_box s z ≡ r }
    ensures positions { (z u v : ℕ) (r s : Rectangle) → z ≤ 8 → scaled z r ≡ Some s →
        Inside u v s ↔ Inside (halves u z) (halves v z) r }
    ensures sum { (image : Image) (a b : ℕ) → level (level image a) b ≡ level image (a + b) }
{}

/// States that the strips of a rectangle are its rows of tiles from the top, and that no two of them have
/// rows of which one row of a level up to 6 is averaged.
pub fn strips_are_rows_of_tiles()
    ensures positions { (s r : Rectangle) (k u v : ℕ) → IsRectangle s → slice_get (strip_rectangles s) k ≡ Some r →
        Inside u v r ↔ (Inside u v s × (tile_of v ≡ tile_of s.first_row + k)) }
    ensures all { (s : Rectangle) (u v : ℕ) → Inside u v s → tile_of v < tile_of s.first_row + length (strip_rectangles s) }
    ensures apart { (z m n : ℕ) → z ≤ 6 → halves m z ≡ halves n z → tile_of m ≡ tile_of n }
{}

/// States that the image of the node at a position has the shape that is stated of the node.
pub fn images_are_stated<Op>()
    ensures { (meanings : Meanings Op) (facts : Facts) (nodes : List (NodeFact Op)) (images : Buffers) (node : ℕ) →
        AreStated meanings (shapes_of_facts facts) nodes → AreImagesOf facts images → node < length nodes →
        shape_of_image (image_at meanings nodes images node) ≡ shape_at nodes node }
{}
