//! The laws of images that are held by tiles, and of the image of put tiles.

ghost use Rattle.std.specs.Prelude.{◌≡◌, ◌≢◌, ℕ, ◌*◌, ◌<◌, Contains, IfSome, IsSome, List, None, Some, replicate};
ghost use Rattle.plane_rect.specs.Rectangle.{Includes, Inside, IsRectangle, Rectangle};
ghost use Rattle.plane_rect.specs.Tile.{IsWhole, Meets, Tile, tile_rectangle, tile_square};
ghost use Rattle.pixel_formats.specs.Format.{channels, pixel_bytes};
ghost use Rattle.pixel_formats.specs.declared.format.Format.{Format};
ghost use Rattle.model_images.specs.Agreement.{AgreeElsewhere, AgreeEverywhere};
ghost use Rattle.model_images.specs.FromRaw.{byte_count, pixels_from_raw};
ghost use Rattle.model_images.specs.Image.{Image, IsImage, at};
ghost use Rattle.model_images.specs.Level.{level, tile_at_level};
ghost use Rattle.model_images.specs.Raw.{raw, tile_bytes};
ghost use Rattle.model_images.specs.Tiles.{AreTileBytes, AreZeroAround, AreZeroOutside, HeldTiles, held_image, hull_of_tiles, put_image, tile_or_zeros};
ghost use Rattle.model_images.specs.Paint.{cut};

/// States that the raw bytes of a rectangle encode the image's samples there, and so zeros outside its box.
/// They are zeros where all of these are.
pub fn raw_bytes_of_samples()
    ensures samples { (image : Image) (r : Rectangle) (u v c : ℕ) → Inside u v r → c < channels image.format →
        pixels_from_raw r image.format (raw image r) u v c ≡ at image u v c }
    ensures outside { (image : Image) (tile : Tile) → AreZeroOutside image.box image.format tile (tile_bytes image tile) }
    ensures zeros { (image : Image) (r : Rectangle) →
        ((u v c : ℕ) → Inside u v r → c < channels image.format → at image u v c ≡ 0) →
        raw image r ≡ replicate (byte_count r image.format) 0 }
{}

/// States that an image that is held by tiles has each tile's bytes as they are held, if these are zero
/// outside the box, and zeros where a tile isn't held.
pub fn held_tiles_are_read()
    ensures whole { (box : Rectangle) (format : Format) (held : HeldTiles) → IsImage (held_image box format held) }
    ensures held { (box : Rectangle) (format : Format) (held : HeldTiles) (tile : Tile) (bytes : List ℕ) →
        held tile ≡ Some bytes → AreTileBytes format bytes → AreZeroOutside box format tile bytes →
        tile_bytes (held_image box format held) tile ≡ bytes }
    ensures either { (box : Rectangle) (format : Format) (held : HeldTiles) (tile : Tile) →
        IfSome (held tile) (AreTileBytes format) → IfSome (held tile) (AreZeroOutside box format tile) →
        tile_bytes (held_image box format held) tile ≡ tile_or_zeros format held tile }
    ensures lacking { (box : Rectangle) (format : Format) (held : HeldTiles) (tile : Tile) →
        held tile ≡ None → tile_bytes (held_image box format held) tile ≡ replicate (4096 * pixel_bytes format) 0 }
{}

/// States that where one tile changes, the image changes in this tile alone, over whatever boxes outside
/// which the tiles are zero. Where none changes, the images over both boxes agree everywhere.
pub fn one_tile_changes()
    ensures one { (a b : Rectangle) (format : Format) (held later : HeldTiles) (tile : Tile) →
        AreZeroAround a format held → AreZeroAround b format later →
        ((other : Tile) → other ≢ tile → later other ≡ held other) →
        AgreeElsewhere (held_image a format held) (held_image b format later) (tile_square tile) }
    ensures none { (a b : Rectangle) (format : Format) (held : HeldTiles) →
        AreZeroAround a format held → AreZeroAround b format held →
        AgreeEverywhere (held_image a format held) (held_image b format held) }
{}

/// States that a part of an image that is held by tiles is held by the same tiles.
pub fn parts_of_held_images()
    ensures { (box part : Rectangle) (format : Format) (held : HeldTiles) → Includes box part →
        cut (held_image box format held) part ≡ held_image part format held }
{}

/// States that a tile of a level is zeros where no tile is held that is averaged for it.
pub fn levels_of_lacking_tiles()
    ensures { (box : Rectangle) (format : Format) (held : HeldTiles) (z : ℕ) (tile : Tile) → IsRectangle box →
        ((other : Tile) → tile_at_level other z ≡ tile → held other ≡ None) →
        tile_bytes (level (held_image box format held) z) tile ≡ replicate (4096 * pixel_bytes format) 0 }
{}

/// States that an image is held by its own tiles: by those that meet its box, of which those of zeros may be
/// lacking, and whatever else is held.
pub fn images_are_held()
    ensures { (image : Image) (held : HeldTiles) → IsImage image →
        ((tile : Tile) → Meets tile image.box → tile_or_zeros image.format held tile ≡ tile_bytes image tile) →
        held_image image.box image.format held ≡ image }
{}

/// States that the hull of tiles is the smallest rectangle that contains them. So tiles that are held are
/// zero outside the hull of those that were put, if they are among these.
#[tactic(auto, using(crate::proofs::PutTiles::hull_laws))]
pub fn hull_contains_tiles()
    ensures rectangle { (tiles : List Tile) → IsRectangle (hull_of_tiles tiles) }
    ensures contains { (tiles : List Tile) (tile : Tile) → Contains tiles tile → IsWhole tile →
        Includes (hull_of_tiles tiles) (tile_square tile) }
    ensures around { (format : Format) (tiles : List Tile) (held : HeldTiles) →
        ((tile : Tile) → IsSome (held tile) → Contains tiles tile × IsWhole tile) →
        AreZeroAround (hull_of_tiles tiles) format held }
    ensures smallest { (tiles : List Tile) (r : Rectangle) →
        ((tile : Tile) → Contains tiles tile → Includes r (tile_rectangle tile)) → Includes r (hull_of_tiles tiles) }
{}

/// States that the image of tiles that were put has the bytes of each as they were put.
pub fn put_tiles_are_read()
    ensures { (format : Format) (tiles : List Tile) (held : HeldTiles) (tile : Tile) (bytes : List ℕ) →
        Contains tiles tile → IsWhole tile → held tile ≡ Some bytes → AreTileBytes format bytes →
        tile_bytes (put_image format tiles held) tile ≡ bytes }
{}
