//! The laws of the bytes under a policy, of the bytes of tiles, and of bytes.

ghost use Rattle.std.specs.Prelude.{◌≡◌, ℕ, ◌+◌, ◌*◌, ◌++◌, [], length};
ghost use Rattle.plane_rect.specs.Rectangle.{Includes, Rectangle, area};
ghost use Rattle.plane_rect.specs.Tile.{Tile};
ghost use Rattle.pixel_formats.specs.Format.{pixel_bytes};
ghost use Rattle.model_images.specs.Image.{Image, image_from_fn};
ghost use Rattle.model_images.specs.Raw.{raw, tile_bytes};
ghost use Rattle.model_images.specs.Abyss.{abyss_at, raw_with};
ghost use Rattle.model_images.specs.Rows.{first_rows, row_below};
ghost use Rattle.model_images.specs.FromRaw.{AreBytes};

use pixel_formats::Abyss;

/// States that under `None` the bytes of a rectangle are the image's, and inside the box they are so whatever
/// the policy. They are those of the image that is generated over the rectangle under the policy.
pub fn bytes_of_the_image()
    ensures none { (image : Image) (r : Rectangle) → raw_with image Abyss.None r ≡ raw image r }
    ensures inside { (image : Image) (policy : Abyss) (r : Rectangle) →
        Includes image.box r → raw_with image policy r ≡ raw image r }
    ensures generated { (image : Image) (policy : Abyss) (r : Rectangle) →
        raw (image_from_fn r image.format (abyss_at image policy)) r ≡ raw_with image policy r }
{}

/// States that a rectangle has the bytes of a pixel for each of its positions, and a tile for each of its 64
/// by 64.
pub fn count_of_bytes()
    ensures rectangle { (image : Image) (policy : Abyss) (r : Rectangle) →
        length (raw_with image policy r) ≡ area r * pixel_bytes image.format }
    ensures tile { (image : Image) (tile : Tile) →
        length (tile_bytes image tile) ≡ 4096 * pixel_bytes image.format }
{}

/// States that the bytes of a rectangle are those of its rows, from the top.
pub fn bytes_by_rows()
    ensures none { (image : Image) (policy : Abyss) (r : Rectangle) →
        raw_with image policy (first_rows r 0) ≡ [] }
    ensures next { (image : Image) (policy : Abyss) (r : Rectangle) (rows : ℕ) →
        raw_with image policy (first_rows r (rows + 1))
        ≡ raw_with image policy (first_rows r rows) ++ raw_with image policy (row_below r rows) }
    ensures all { (image : Image) (policy : Abyss) (r : Rectangle) →
        raw_with image policy (first_rows r r.height) ≡ raw_with image policy r }
{}

/// States that bytes are below 256, as a clause on who holds them alone doesn't say.
pub fn are_bytes(bytes: &[u8])
    ensures { AreBytes bytes.now }
{
    let _len = bytes.len();
}
