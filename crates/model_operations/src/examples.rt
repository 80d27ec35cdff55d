//! The operations worked out by hand on small images.
#![tactic(auto, unfolding(model_images::specs::Image::at, model_images::specs::Raw::raw, model_images::specs::Abyss::abyss_at))]

ghost use Rattle.std.specs.Prelude.{◌≡◌, [], ◌∷◌, negsuc, pos, Some, None, false, true};
ghost use Rattle.model_images.specs.Examples.{positions_from, row_image};
ghost use Rattle.model_operations.specs.Regions.{invalidated, required};
ghost use Rattle.model_operations.specs.Examples.{color, square_around, whole};
ghost use Rattle.model_operations.specs.{Boxes.box_of, Formats.format_of};
ghost use Rattle.plane_rect.specs.Rectangle.{empty};

use crate::operation::IntOp;
use pixel_formats::{Abyss, Format};

/// Works out samples of other depths and channels: 128 of 255 is 32,896 of 65,535, and back; (10 + 20 + 31 +
/// 1) / 3 is 20.
pub fn conversions()
    ensures deeper { whole (IntOp.Convert Format.Y16)
        (row_image Format.Y8 (pos 0) 1 (128 ∷ []) ∷ [])
        ≡ 128 ∷ 128 ∷ [] }
    ensures flatter { whole (IntOp.Convert Format.Y8)
        (row_image Format.Y16 (pos 0) 1 (32896 ∷ []) ∷ [])
        ≡ 128 ∷ [] }
    ensures gray { whole (IntOp.Convert Format.Y8)
        (row_image Format.RGB8 (pos 0) 1 (10 ∷ 20 ∷ 31 ∷ []) ∷ [])
        ≡ 20 ∷ [] }
    ensures colored { whole (IntOp.Convert Format.RGBA8)
        (row_image Format.YA8 (pos 0) 1 (7 ∷ 9 ∷ []) ∷ [])
        ≡ 7 ∷ 7 ∷ 7 ∷ 9 ∷ [] }
    ensures alpha_dropped { whole (IntOp.Convert Format.Y8)
        (row_image Format.YA8 (pos 0) 1 (7 ∷ 9 ∷ []) ∷ [])
        ≡ 7 ∷ [] }
    ensures alpha_set { whole (IntOp.Convert Format.YA8)
        (row_image Format.Y8 (pos 0) 1 (7 ∷ []) ∷ [])
        ≡ 7 ∷ 255 ∷ [] }
{}

/// Works out each pixel by itself: 100 * 5 / 4, and 250 * 5 / 4 up to 255; half of 5, rounded up; 99 and 100
/// at a threshold of 100; colors subtracted from their alpha, and one that is above it.
pub fn single_pixels()
    ensures gain { whole (IntOp.Gain 5 4) (row_image Format.Y8 (pos 0) 2 (100 ∷ 250 ∷ []) ∷ [])
        ≡ 125 ∷ 255 ∷ [] }
    ensures half_rounded_up { whole (IntOp.Gain 1 2) (row_image Format.Y8 (pos 0) 1 (5 ∷ []) ∷ [])
        ≡ 3 ∷ [] }
    ensures threshold { whole (IntOp.Threshold 100)
        (row_image Format.Y8 (pos 0) 2 (99 ∷ 100 ∷ []) ∷ [])
        ≡ 0 ∷ 255 ∷ [] }
    ensures invert { whole IntOp.Invert (row_image Format.YA8 (pos 0) 2 (30 ∷ 100 ∷ 120 ∷ 100 ∷ []) ∷ [])
        ≡ 70 ∷ 100 ∷ 0 ∷ 100 ∷ [] }
{}

/// Works out two inputs: a sum that is above 255, a half of 200, and a color over another, of which 127 of 255
/// is left.
pub fn pairs()
    ensures add { whole IntOp.Add
        (row_image Format.Y8 (pos 0) 1 (200 ∷ []) ∷ row_image Format.Y8 (pos 0) 1 (100 ∷ []) ∷ [])
        ≡ 255 ∷ [] }
    ensures add_box { box_of IntOp.Add (positions_from (pos 0) 1 ∷ positions_from (pos 3) 1 ∷ [])
        ≡ Some (positions_from (pos 0) 4) }
    ensures mask { whole IntOp.Mask
        (row_image Format.Y8 (pos 0) 1 (200 ∷ []) ∷ row_image Format.Y8 (pos 0) 1 (128 ∷ []) ∷ [])
        ≡ 100 ∷ [] }
    ensures over { whole IntOp.Over
        (color Format.RGBA8 (100 ∷ 0 ∷ 0 ∷ 128 ∷ []) ∷ color Format.RGBA8 (0 ∷ 200 ∷ 0 ∷ 255 ∷ []) ∷ [])
        ≡ 100 ∷ 100 ∷ 0 ∷ 255 ∷ [] }
{}

/// Works out images that are moved and mirrored.
pub fn moves()
    ensures flip { whole (IntOp.Flip true) (row_image Format.Y8 (pos 0) 3 (1 ∷ 2 ∷ 3 ∷ []) ∷ [])
        ≡ 3 ∷ 2 ∷ 1 ∷ [] }
    ensures upright { whole (IntOp.Flip false) (row_image Format.Y8 (pos 0) 3 (1 ∷ 2 ∷ 3 ∷ []) ∷ [])
        ≡ 1 ∷ 2 ∷ 3 ∷ [] }
    ensures translate { whole (IntOp.Translate (pos 1) (pos 0))
        (row_image Format.Y8 (pos 0) 2 (7 ∷ 8 ∷ []) ∷ [])
        ≡ 7 ∷ 8 ∷ [] }
    ensures translate_box { box_of (IntOp.Translate (pos 1) (pos 0)) (positions_from (pos 0) 2 ∷ [])
        ≡ Some (positions_from (pos 1) 2) }
    ensures crop { whole (IntOp.Crop (positions_from (pos 1) 9))
        (row_image Format.Y8 (pos 0) 3 (1 ∷ 2 ∷ 3 ∷ []) ∷ [])
        ≡ 2 ∷ 3 ∷ [] }
    ensures crop_box { box_of (IntOp.Crop (positions_from (pos 1) 9)) (positions_from (pos 0) 3 ∷ [])
        ≡ Some (positions_from (pos 1) 2) }
{}

/// Works out one pixel of 9: its mean with eight zeros is (9 + 4) / 9 at each of the nine positions around
/// it, and with eight equal to it 9.
pub fn means()
    ensures none { whole (IntOp.BoxMean 1 Abyss.None) (row_image Format.Y8 (pos 0) 1 (9 ∷ []) ∷ [])
        ≡ 1 ∷ 1 ∷ 1 ∷ 1 ∷ 1 ∷ 1 ∷ 1 ∷ 1 ∷ 1 ∷ [] }
    ensures none_box { box_of (IntOp.BoxMean 1 Abyss.None) (positions_from (pos 0) 1 ∷ [])
        ≡ Some (square_around 1 (pos 0) (pos 0)) }
    ensures clamp { whole (IntOp.BoxMean 1 Abyss.Clamp)
        (row_image Format.Y8 (pos 0) 1 (9 ∷ []) ∷ [])
        ≡ 9 ∷ [] }
    ensures clamp_box { box_of (IntOp.BoxMean 1 Abyss.Clamp) (positions_from (pos 0) 1 ∷ [])
        ≡ Some (positions_from (pos 0) 1) }
    ensures none_repeats { box_of (IntOp.BoxMean 1 Abyss.Loop) (positions_from (pos 0) 1 ∷ []) ≡ None }
{}

/// Works out the largest and the smallest sample around each position, also at the plane's left edge, left of
/// which the policy reads white.
pub fn extremes()
    ensures dilate { whole (IntOp.Dilate 1 Abyss.Clamp)
        (row_image Format.Y8 (pos 0) 3 (5 ∷ 0 ∷ 0 ∷ []) ∷ [])
        ≡ 5 ∷ 5 ∷ 0 ∷ [] }
    ensures erode { whole (IntOp.Erode 1 Abyss.White)
        (row_image Format.Y8 (pos 0) 3 (5 ∷ 9 ∷ 9 ∷ []) ∷ [])
        ≡ 5 ∷ 5 ∷ 9 ∷ [] }
    ensures at_the_edge { whole (IntOp.Dilate 1 Abyss.White)
        (row_image Format.Y8 (negsuc 16777215) 1 (5 ∷ []) ∷ [])
        ≡ 255 ∷ [] }
{}

/// Works out squares of two and of three pixels a side, left of the origin too, and one pixel for all
/// positions.
pub fn without_inputs()
    ensures checker { whole (IntOp.Checker Format.Y8 (positions_from (negsuc 1) 6) 2 0 9) []
        ≡ 9 ∷ 9 ∷ 0 ∷ 0 ∷ 9 ∷ 9 ∷ [] }
    ensures checker_of_three { whole (IntOp.Checker Format.Y8 (positions_from (negsuc 0) 5) 3 0 9) []
        ≡ 9 ∷ 0 ∷ 0 ∷ 0 ∷ 9 ∷ [] }
    ensures checker_alpha { whole (IntOp.Checker Format.YA8 (positions_from (negsuc 0) 2) 1 0 9) []
        ≡ 9 ∷ 255 ∷ 0 ∷ 255 ∷ [] }
    ensures color { whole (IntOp.Color Format.YA8 (positions_from (pos 0) 2) (3 ∷ 4 ∷ [])) []
        ≡ 3 ∷ 4 ∷ 3 ∷ 4 ∷ [] }
{}

/// Works out formats that two inputs have together, and those that don't fit.
pub fn formats_of_pairs()
    ensures add { format_of IntOp.Add (Format.Y16 ∷ Format.Y16 ∷ []) ≡ Some Format.Y16 }
    ensures add_of_two_depths { format_of IntOp.Add (Format.Y8 ∷ Format.Y16 ∷ []) ≡ None }
    ensures add_of_two_channels { format_of IntOp.Add (Format.Y8 ∷ Format.YA8 ∷ []) ≡ None }
    ensures over { format_of IntOp.Over (Format.YA8 ∷ Format.YA8 ∷ []) ≡ Some Format.YA8 }
    ensures over_without_alpha { format_of IntOp.Over (Format.Y8 ∷ Format.Y8 ∷ []) ≡ None }
    ensures mask { format_of IntOp.Mask (Format.RGB8 ∷ Format.Y8 ∷ []) ≡ Some Format.RGB8 }
    ensures mask_of_another_depth { format_of IntOp.Mask (Format.RGB8 ∷ Format.Y16 ∷ []) ≡ None }
    ensures mask_with_alpha { format_of IntOp.Mask (Format.RGB8 ∷ Format.YA8 ∷ []) ≡ None }
    ensures one_input { format_of IntOp.Mask (Format.RGB8 ∷ []) ≡ None }
{}

/// Works out arguments at the ends of their ranges, and just outside.
pub fn arguments()
    ensures threshold { format_of (IntOp.Threshold 255) (Format.Y8 ∷ []) ≡ Some Format.Y8 }
    ensures threshold_above { format_of (IntOp.Threshold 256) (Format.Y8 ∷ []) ≡ None }
    ensures threshold_of_16_bits { format_of (IntOp.Threshold 256) (Format.Y16 ∷ [])
        ≡ Some Format.Y16 }
    ensures gain_by_zero { format_of (IntOp.Gain 1 0) (Format.Y8 ∷ []) ≡ None }
    ensures gain { format_of (IntOp.Gain 65535 65535) (Format.Y8 ∷ []) ≡ Some Format.Y8 }
    ensures gain_above { format_of (IntOp.Gain 65536 1) (Format.Y8 ∷ []) ≡ None }
    ensures radius { format_of (IntOp.BoxMean 64 Abyss.Clamp) (Format.Y8 ∷ []) ≡ Some Format.Y8 }
    ensures radius_above { format_of (IntOp.BoxMean 65 Abyss.Clamp) (Format.Y8 ∷ []) ≡ None }
    ensures no_radius { format_of (IntOp.Dilate 0 Abyss.Clamp) (Format.Y8 ∷ []) ≡ None }
    ensures repeated { format_of (IntOp.Erode 1 Abyss.Loop) (Format.Y8 ∷ []) ≡ None }
    ensures far { format_of (IntOp.Translate (negsuc 33554431) (pos 33554432)) (Format.Y8 ∷ [])
        ≡ Some Format.Y8 }
    ensures too_far { format_of (IntOp.Translate (negsuc 33554432) (pos 0)) (Format.Y8 ∷ [])
        ≡ None }
    ensures square { format_of (IntOp.Checker Format.Y8 empty 4096 255 0) [] ≡ Some Format.Y8 }
    ensures no_square { format_of (IntOp.Checker Format.Y8 empty 0 255 0) [] ≡ None }
    ensures square_above { format_of (IntOp.Checker Format.Y8 empty 4097 255 0) [] ≡ None }
    ensures checker_above { format_of (IntOp.Checker Format.Y8 empty 1 0 256) [] ≡ None }
    ensures color { format_of (IntOp.Color Format.YA16 empty (65535 ∷ 0 ∷ [])) []
        ≡ Some Format.YA16 }
    ensures color_above { format_of (IntOp.Color Format.Y8 empty (256 ∷ [])) [] ≡ None }
    ensures color_short { format_of (IntOp.Color Format.RGB8 empty (5 ∷ [])) [] ≡ None }
{}

/// Works out what is required and what is invalidated of a row of three positions, by a mean of radius 1 of its
/// first position, by a row moved by 1 and by a row that is mirrored.
pub fn regions_of_a_row()
    ensures mean_none { required (IntOp.BoxMean 1 Abyss.None)
        (positions_from (pos 0) 3 ∷ []) 0 (positions_from (pos 0) 1)
        ≡ positions_from (pos 0) 2 }
    ensures mean_outside { required (IntOp.BoxMean 1 Abyss.Clamp)
        (positions_from (pos 0) 3 ∷ []) 0 (positions_from (pos 3) 1)
        ≡ empty }
    ensures mean_clamp { required (IntOp.BoxMean 1 Abyss.Clamp)
        (positions_from (pos 0) 3 ∷ []) 0 (positions_from (pos 0) 9)
        ≡ positions_from (pos 0) 3 }
    ensures mean_grows { invalidated (IntOp.BoxMean 1 Abyss.None)
        (positions_from (pos 0) 3 ∷ []) 0 (positions_from (pos 0) 1)
        ≡ square_around 1 (pos 0) (pos 0) }
    ensures mean_stays { invalidated (IntOp.BoxMean 1 Abyss.Clamp)
        (positions_from (pos 0) 3 ∷ []) 0 (positions_from (pos 0) 1)
        ≡ positions_from (pos 0) 2 }
    ensures translate { required (IntOp.Translate (pos 1) (pos 0))
        (positions_from (pos 0) 3 ∷ []) 0 (positions_from (pos 0) 2)
        ≡ positions_from (pos 0) 1 }
    ensures translated { invalidated (IntOp.Translate (pos 1) (pos 0))
        (positions_from (pos 0) 3 ∷ []) 0 (positions_from (pos 2) 9)
        ≡ positions_from (pos 3) 1 }
    ensures flip { required (IntOp.Flip true) (positions_from (pos 0) 3 ∷ []) 0 (positions_from (pos 0) 1)
        ≡ positions_from (pos 2) 1 }
    ensures flipped { invalidated (IntOp.Flip true)
        (positions_from (pos 0) 3 ∷ []) 0 (positions_from (pos 1) 9)
        ≡ positions_from (pos 0) 2 }
    ensures second_input { required IntOp.Mask
        (positions_from (pos 0) 3 ∷ positions_from (pos 1) 3 ∷ []) 1 (positions_from (pos 0) 3)
        ≡ positions_from (pos 1) 2 }
{}
