//! The laws of the squares that the kernels read.

ghost use Rattle.std.specs.Prelude.{◌≡◌, ℕ, ◌<◌};
ghost use Rattle.area_kernels.specs.Parts.{square_samples};
ghost use Rattle.model_images.specs.Image.{Image};
ghost use Rattle.model_operations.specs.Windows.{read_before, window};

use pixel_formats::Abyss;

/// States that where a part holds what is read of an image under a policy, in columns and rows that count from
/// so many positions left of and above the plane's corner, the square of a position is the image's
/// window.
pub fn square_is_window()
    ensures { (radius : ℕ) (image : Image) (policy : Abyss) (u v c : ℕ) →
        square_samples radius (read_before radius image policy) u v c
        ≡ window radius image policy u v c }
{}
