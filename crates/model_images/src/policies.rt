//! The laws of the policies.

ghost use Rattle.std.specs.Prelude.{◌≡◌, ℕ, ◌+◌, ◌%◌, ◌<◌, ◌≤◌, false, true};
ghost use Rattle.std.specs.Int.{abs_diff};
ghost use Rattle.plane_rect.specs.Rectangle.{Inside, Within};
ghost use Rattle.pixel_formats.specs.{Format.max_sample, Recolor.is_alpha};
ghost use Rattle.model_images.specs.Image.{Image, at};
ghost use Rattle.model_images.specs.Abyss.{abyss_at, nearest, wrapped};
ghost use Rattle.model_images.specs.Policies.{MovesInside, empty_sample};

use pixel_formats::Abyss;

/// States that the nearest of some numbers in a row is one of them, and none of them is nearer. A number that
/// is one of them stays.
pub fn nearest_in_a_row()
    ensures within { (start len n : ℕ) → 0 < len → Within start len (nearest start len n) }
    ensures stays { (start len n : ℕ) → Within start len n → nearest start len n ≡ n }
    ensures minimum { (start len n m : ℕ) →
        Within start len m → abs_diff n (nearest start len n) ≤ abs_diff n m }
{}

/// States that a wrapped number is the one of some numbers in a row that is away by a whole multiple of how
/// many they are: it leaves the same remainder, and no other of them does. A number that is one of them
/// stays.
#[tactic(auto, using(crate::proofs::Sides::wrapped_laws))]
pub fn wrapped_in_a_row()
    ensures within { (start len n : ℕ) → 0 < len → Within start len (wrapped start len n) }
    ensures stays { (start len n : ℕ) → Within start len n → wrapped start len n ≡ n }
    ensures multiple { (start len n : ℕ) → 0 < len → wrapped start len n % len ≡ n % len }
    ensures only { (start len n m : ℕ) →
        Within start len m → m % len ≡ n % len → m ≡ wrapped start len n }
    ensures periodic { (start len n : ℕ) →
        0 < len → wrapped start len (n + len) ≡ wrapped start len n }
{}

/// States that at a position of its box an image has its own samples, whatever the policy.
pub fn inside_is_the_image()
    ensures { (image : Image) (policy : Abyss) (u v c : ℕ) →
        Inside u v image.box → abyss_at image policy u v c ≡ at image u v c }
{}

/// States that under `None` an image has its own samples everywhere, which are 0 outside its box.
pub fn none_is_the_image()
    ensures { (image : Image) (u v c : ℕ) → abyss_at image Abyss.None u v c ≡ at image u v c }
{}

/// States that a clamped image has everywhere the sample of the nearest position, which is in the box if any
/// is.
pub fn clamp_is_the_nearest_position()
    ensures { MovesInside Abyss.Clamp nearest }
{}

/// States that a looped image has everywhere the sample of the wrapped position, which is in the box if any
/// is, and repeats itself after a width and after a height of the box.
pub fn loop_is_the_wrapped_position()
    ensures moved { MovesInside Abyss.Loop wrapped }
    ensures columns { (image : Image) (u v c : ℕ) → 0 < image.box.width →
        abyss_at image Abyss.Loop (u + image.box.width) v c ≡ abyss_at image Abyss.Loop u v c }
    ensures rows { (image : Image) (u v c : ℕ) → 0 < image.box.height →
        abyss_at image Abyss.Loop u (v + image.box.height) c ≡ abyss_at image Abyss.Loop u v c }
{}

/// States that outside its box an image on black has no color and full alpha.
pub fn black_outside()
    ensures color { (image : Image) (u v c : ℕ) → ¬ Inside u v image.box →
        is_alpha image.format c ≡ false → abyss_at image Abyss.Black u v c ≡ 0 }
    ensures alpha { (image : Image) (u v c : ℕ) → ¬ Inside u v image.box →
        is_alpha image.format c ≡ true →
        abyss_at image Abyss.Black u v c ≡ max_sample image.format }
{}

/// States that outside its box an image on white has the largest sample in each channel.
pub fn white_outside()
    ensures { (image : Image) (u v c : ℕ) → ¬ Inside u v image.box →
        abyss_at image Abyss.White u v c ≡ max_sample image.format }
{}

/// States that over an image without a position there is no position to clamp to or to loop to, and so 0;
/// black and white are as they are outside any image.
pub fn over_no_position()
    ensures { (image : Image) (policy : Abyss) → ((u v : ℕ) → ¬ Inside u v image.box) →
        (u v c : ℕ) → abyss_at image policy u v c ≡ empty_sample image.format policy c }
{}

/// States that no policy gives a sample above the format's largest, where the image has none.
pub fn policies_stay_in_range()
    ensures { (image : Image) (policy : Abyss) (c : ℕ) →
        ((u v : ℕ) → at image u v c ≤ max_sample image.format) →
        (u v : ℕ) → abyss_at image policy u v c ≤ max_sample image.format }
{}
