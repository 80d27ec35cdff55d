//! The laws of windows, the squares that area operations read.

ghost use Rattle.std.specs.Prelude.{◌≡◌, ℕ, ◌+◌, ◌*◌, ◌<◌, ◌≤◌, List, length, slice_index};
ghost use Rattle.plane_rect.specs.Rectangle.{Inside};
ghost use Rattle.model_images.specs.Image.{Image, sample_index};
ghost use Rattle.model_images.specs.Abyss.{abyss_at};
ghost use Rattle.model_operations.specs.Windows.{Has, max_of_all, min_of_all, read_before, window, window_side, window_square};

use pixel_formats::Abyss;

/// States that a window has the sample under the policy of each position of its square, and no other: as many
/// as the square has positions. Its columns and rows count from left of and above the plane's
/// corner, so that a window may begin before it.
pub fn window_reads()
    ensures count { (radius : ℕ) (image : Image) (policy : Abyss) (u v c : ℕ) →
        length (window radius image policy u v c) ≡ window_side radius * window_side radius }
    ensures sample { (radius : ℕ) (image : Image) (policy : Abyss) (u v c s t : ℕ) →
        Inside s t (window_square radius u v) →
        slice_index (window radius image policy u v c)
        (sample_index (window_square radius u v) 1 s t 0)
        ≡ read_before radius image policy s t c }
    ensures position { (radius : ℕ) (image : Image) (policy : Abyss) (u v c : ℕ) →
        read_before radius image policy (u + radius) (v + radius) c ≡ abyss_at image policy u v c }
{}

/// States that the largest of some samples is one of them, and none of them is larger.
pub fn max_of_samples()
    ensures among { (samples : List ℕ) → 0 < length samples →
        Has samples (max_of_all samples) }
    ensures bound { (samples : List ℕ) (k : ℕ) → k < length samples →
        slice_index samples k ≤ max_of_all samples }
{}

/// States that the smallest of some samples is one of them, and none of them is smaller.
pub fn min_of_samples()
    ensures among { (samples : List ℕ) → 0 < length samples →
        Has samples (min_of_all samples) }
    ensures bound { (samples : List ℕ) (k : ℕ) → k < length samples →
        min_of_all samples ≤ slice_index samples k }
{}
