//! The laws of levels.

ghost use Rattle.std.specs.Prelude.{◌≡◌, ◌≢◌, ◌⊎◌, ◌↔◌, replicate, ℕ, ◌+◌, ◌/◌, ◌<◌, ◌≤◌};
ghost use Rattle.plane_rect.specs.Rectangle.{InLimits, Includes, IsRectangle, Inside, InsideHalved, Rectangle, empty, half, halved, origin};
ghost use Rattle.plane_rect.specs.Tile.{Tile, tile_at, tile_square};
ghost use Rattle.pixel_formats.specs.{Average.mean_of_four, Format.channels};
ghost use Rattle.model_images.specs.Agreement.{AgreeElsewhere, AgreeEverywhere, AgreeOutside, AgreeOver};
ghost use Rattle.model_images.specs.Image.{Image, IsImage, at};
ghost use Rattle.model_images.specs.Level.{below, doubled, halved_image, level, level_box, mean_at, source_of_level, tile_at_level};
ghost use Rattle.model_images.specs.Raw.{raw, tile_bytes};
ghost use Rattle.model_images.specs.{Paint.cut, FromRaw.byte_count};

/// States that level 0 is the image, and each next level halves the one before it.
pub fn level_after_level()
    ensures first { (image : Image) → level image 0 ≡ image }
    ensures next { (image : Image) (z : ℕ) →
        level image (z + 1) ≡ halved_image (level image z) }
{}

/// States that a level of an image is an image, of the same format.
pub fn level_is_an_image()
    ensures whole { (image : Image) (z : ℕ) → IsImage image → IsImage (level image z) }
    ensures format { (image : Image) (z : ℕ) → (level image z).format ≡ image.format }
{}

/// States that the box of a level is a rectangle of the plane, in the limits of images, and has a position
/// exactly where the image's has.
#[tactic(auto, using(crate::proofs::AgreeingLevels::box_laws))]
pub fn box_of_a_level()
    ensures rectangle { (image : Image) (z : ℕ) →
        IsRectangle image.box → IsRectangle (level image z).box }
    ensures limits { (image : Image) (z : ℕ) →
        IsRectangle image.box → InLimits image.box → InLimits (level image z).box }
    ensures empty { (image : Image) (z : ℕ) → IsRectangle image.box →
        ((level image z).box ≡ empty) ↔ (image.box ≡ empty) }
    ensures value { (image : Image) (z : ℕ) → (level image z).box ≡ level_box image.box z }
{}

/// States that the box of a halved image has the half of each position of the image's, and no other. A
/// position is one of the four that are averaged at its half.
pub fn halving_covers()
    ensures positions { (image : Image) (u v : ℕ) → IsRectangle image.box →
        Inside u v (halved_image image).box ↔ InsideHalved u v image.box }
    ensures four { (n : ℕ) → (n ≡ doubled (half n)) ⊎ (n ≡ doubled (half n) + 1) }
{}

/// States that a halved image has at each position of its box the mean of four samples of the image, and the
/// sample of all four where they are equal.
pub fn halved_samples()
    ensures mean { (image : Image) (u v c : ℕ) →
        Inside u v (halved image.box) → c < channels image.format →
        at (halved_image image) u v c ≡ mean_of_four
        (at image (doubled u) (doubled v) c)
        (at image (doubled u + 1) (doubled v) c)
        (at image (doubled u) (doubled v + 1) c)
        (at image (doubled u + 1) (doubled v + 1) c) }
    ensures even { (image : Image) (u v c sample : ℕ) →
        Inside u v (halved image.box) → c < channels image.format →
        at image (doubled u) (doubled v) c ≡ sample →
        at image (doubled u + 1) (doubled v) c ≡ sample →
        at image (doubled u) (doubled v + 1) c ≡ sample →
        at image (doubled u + 1) (doubled v + 1) c ≡ sample →
        at (halved_image image) u v c ≡ sample }
{}

/// States that no level has a sample above what the image's samples are at most.
pub fn levels_stay_in_range()
    ensures { (image : Image) (z c most : ℕ) →
        ((u v : ℕ) → at image u v c ≤ most) → (u v : ℕ) → at (level image z) u v c ≤ most }
{}

/// States that where images agree outside a rectangle, their halves agree outside its half.
pub fn halving_is_local()
    ensures { (a b : Image) (r : Rectangle) →
        IsRectangle r → AgreeOutside a b r → AgreeOutside (halved_image a) (halved_image b) (halved r) }
{}

/// States that from the first column and row of halves on, a halved image has the mean of four samples also
/// outside its box, where each of them is 0. It has nothing before them.
pub fn halved_everywhere()
    ensures mean { (image : Image) (u v c : ℕ) → IsRectangle image.box →
        origin / 2 ≤ u → origin / 2 ≤ v → at (halved_image image) u v c ≡ mean_at image u v c }
    ensures nothing { (image : Image) (u v c : ℕ) →
        (u < origin / 2) ⊎ (v < origin / 2) → at (halved_image image) u v c ≡ 0 }
{}

/// States that images of one format with the same samples everywhere have such levels, whatever their boxes.
pub fn levels_agree()
    ensures { (a b : Image) (z : ℕ) → IsRectangle a.box → IsRectangle b.box →
        AgreeEverywhere a b → AgreeEverywhere (level a z) (level b z) }
{}

/// States that a rectangle of a level depends on the positions of the image that are averaged for it alone,
/// so a part of the image that contains these has it too. Its bytes are zeros where all of these are.
pub fn levels_are_local()
    ensures samples { (a b : Image) (z : ℕ) (r : Rectangle) → IsRectangle a.box → IsRectangle b.box →
        AgreeOver a b (source_of_level r z) → AgreeOver (level a z) (level b z) r }
    ensures bytes { (a b : Image) (z : ℕ) (r : Rectangle) → IsRectangle a.box → IsRectangle b.box → a.format ≡ b.format →
        AgreeOver a b (source_of_level r z) → raw (level a z) r ≡ raw (level b z) r }
    ensures parts { (image : Image) (box : Rectangle) (z : ℕ) (r : Rectangle) → IsRectangle image.box → IsRectangle box →
        Includes box (source_of_level r z) → raw (level (cut image box) z) r ≡ raw (level image z) r }
    ensures zeros { (image : Image) (z : ℕ) (r : Rectangle) → IsRectangle image.box →
        ((u v c : ℕ) → Inside u v (source_of_level r z) → at image u v c ≡ 0) →
        raw (level image z) r ≡ replicate (byte_count r image.format) 0 }
{}

/// States which positions are averaged: those whose halves are in the rectangle, and for a tile of a level those
/// of the tiles that are averaged for it.
pub fn averaged_positions()
    ensures next { (u v : ℕ) (r : Rectangle) → Inside u v (below r) ↔ Inside (half u) (half v) r }
    ensures tiles { (u v : ℕ) (tile : Tile) (z : ℕ) →
        Inside u v (source_of_level (tile_square tile) z) ↔ (tile_at_level (tile_at u v) z ≡ tile) }
{}

/// States that where one tile of an image changes, one tile of each level does, whatever the boxes are before
/// and after.
pub fn one_tile_of_each_level()
    ensures samples { (a b : Image) (tile : Tile) (z : ℕ) → IsRectangle a.box → IsRectangle b.box →
        AgreeElsewhere a b (tile_square tile) →
        AgreeElsewhere (level a z) (level b z) (tile_square (tile_at_level tile z)) }
    ensures bytes { (a b : Image) (tile other : Tile) (z : ℕ) → IsRectangle a.box → IsRectangle b.box →
        AgreeElsewhere a b (tile_square tile) → other ≢ tile_at_level tile z →
        tile_bytes (level a z) other ≡ tile_bytes (level b z) other }
{}
