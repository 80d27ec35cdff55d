//! The laws of images that agree, and of parts of images.

ghost use Rattle.std.specs.Prelude.{◌≡◌, ◌<◌, ℕ};
ghost use Rattle.plane_rect.specs.Rectangle.{AreDisjoint, Includes, Inside, Rectangle};
ghost use Rattle.pixel_formats.specs.Format.{channels};
ghost use Rattle.model_images.specs.Agreement.{AgreeElsewhere, AgreeEverywhere, AgreeOutside, IsOldOrNew};
ghost use Rattle.model_images.specs.Image.{Image, IsImage, at};
ghost use Rattle.model_images.specs.Paint.{cut, painted};
ghost use Rattle.model_images.specs.Raw.{raw};

/// States that images that agree outside a rectangle agree elsewhere, and those that agree outside one of no
/// position agree everywhere.
pub fn weaker_agreements()
    ensures elsewhere { (a b : Image) (r : Rectangle) → AgreeOutside a b r → AgreeElsewhere a b r }
    ensures everywhere { (a b : Image) (r : Rectangle) → AgreeElsewhere a b r → ((u v : ℕ) → ¬ Inside u v r) → AgreeEverywhere a b }
{}

/// States that agreement everywhere is an equivalence. Images of one box that agree so are equal.
pub fn agreement_everywhere()
    ensures itself { (image : Image) → AgreeEverywhere image image }
    ensures turned { (a b : Image) → AgreeEverywhere a b → AgreeEverywhere b a }
    ensures through { (a b c : Image) → AgreeEverywhere a b → AgreeEverywhere b c → AgreeEverywhere a c }
    ensures equal { (a b : Image) → IsImage a → IsImage b → a.box ≡ b.box → AgreeEverywhere a b → a ≡ b }
{}

/// States that images that agree everywhere have the same raw bytes, and are the same over each box. Those
/// that agree elsewhere have the same raw bytes there.
pub fn agreement_of_parts()
    ensures bytes { (a b : Image) (r : Rectangle) → AgreeEverywhere a b → raw a r ≡ raw b r }
    ensures outside { (a b : Image) (r part : Rectangle) → AgreeElsewhere a b r → AreDisjoint part r → raw a part ≡ raw b part }
    ensures parts { (a b : Image) (box : Rectangle) → AgreeEverywhere a b → cut a box ≡ cut b box }
{}

/// States that a part of an image has the image's samples, and a part of a part is a part. The image over a
/// box that contains its own agrees with it everywhere. Parts of images agree where the images do.
#[tactic(auto, using(crate::proofs::Agreeing::part_laws))]
pub fn parts_of_images()
    ensures samples { (image : Image) (box : Rectangle) (u v c : ℕ) → Inside u v box → at (cut image box) u v c ≡ at image u v c }
    ensures part { (image : Image) (box part : Rectangle) → Includes box part → cut (cut image box) part ≡ cut image part }
    ensures agreement { (a b : Image) (box r : Rectangle) → AgreeOutside a b r → AgreeOutside (cut a box) (cut b box) r }
    ensures wider { (image : Image) (box : Rectangle) → Includes box image.box → AgreeEverywhere (cut image box) image }
{}

/// States that a painted image has the new samples over the rectangle as far as its box goes, and its own
/// outside.
pub fn painted_images()
    ensures over { (image : Image) (r : Rectangle) (f : ℕ → ℕ → ℕ → ℕ) (u v c : ℕ) →
        Inside u v r → Inside u v image.box → c < channels image.format → at (painted image r f) u v c ≡ f u v c }
    ensures outside { (image : Image) (r : Rectangle) (f : ℕ → ℕ → ℕ → ℕ) → AgreeOutside image (painted image r f) r }
{}

/// States that an image of which nothing was written has its old samples, and one of which all was written
/// its new ones. Where the old and the new image agree outside a rectangle, what was written so far agrees
/// with the old one there.
pub fn old_or_new()
    ensures old { (old new : Image) → IsOldOrNew old new old }
    ensures new { (old new : Image) (r : Rectangle) → AgreeOutside old new r → IsOldOrNew old new new }
    ensures outside { (old new now : Image) (r : Rectangle) →
        AgreeOutside old new r → IsOldOrNew old new now → AgreeOutside old now r }
{}
