//! The definitions worked out by hand on small images.
#![tactic(auto, unfolding(crate::specs::Image::at, crate::specs::Raw::raw, crate::specs::Abyss::abyss_at, crate::specs::Abyss::raw_with, crate::specs::Level::level))]

ghost use Rattle.std.specs.Prelude.{◌≡◌, [], ◌∷◌, negsuc, pos};
ghost use Rattle.model_images.specs.Examples.{ReadAs, faint_of_16_bits, faint_ten, four_positions, left_edge, no_position, one_to_four, positions_from, ten_twenty, three_from, two_positions, two_tiles, upper_left};
ghost use Rattle.model_images.specs.TileCounts.{level_tiles, tile_count};
ghost use Rattle.model_images.specs.{Raw.raw, Abyss.raw_with, Level.level, Tiles.hull_of_tiles};
ghost use Rattle.plane_rect.specs.Rectangle.{placed};

use pixel_formats::Abyss;

/// Works out a row of 10 and 20 from x = 0 on, as it is read from x = -1 over four positions.
pub fn around_a_row()
    ensures { ReadAs ten_twenty four_positions (λ n. n ∷ 10 ∷ 20 ∷ n ∷ []) (10 ∷ 10 ∷ 20 ∷ 20 ∷ []) (20 ∷ 10 ∷ 20 ∷ 10 ∷ []) }
{}

/// Works out the same row, read from the plane's left edge over two positions.
pub fn far_from_a_row()
    ensures { ReadAs ten_twenty left_edge (λ n. n ∷ n ∷ []) (10 ∷ 10 ∷ []) (10 ∷ 20 ∷ []) }
{}

/// Works out two rows, 1 and 2 above 3 and 4, read around their upper left corner.
pub fn around_a_corner()
    ensures { ReadAs one_to_four upper_left (λ n. n ∷ n ∷ n ∷ 1 ∷ []) (1 ∷ 1 ∷ 1 ∷ 1 ∷ []) (4 ∷ 3 ∷ 2 ∷ 1 ∷ []) }
{}

/// Works out an image of no position, read over two.
pub fn over_an_empty_image()
    ensures { ReadAs no_position two_positions (λ n. n ∷ n ∷ []) (0 ∷ 0 ∷ []) (0 ∷ 0 ∷ []) }
{}

/// Works out one position with alpha, of 8 bits and of 16, read over itself and the next.
pub fn beside_one_position()
    ensures black { raw_with faint_ten Abyss.Black two_positions ≡ 10 ∷ 200 ∷ 0 ∷ 255 ∷ [] }
    ensures white { raw_with faint_ten Abyss.White two_positions ≡ 10 ∷ 200 ∷ 255 ∷ 255 ∷ [] }
    ensures black_of_16_bits { raw_with faint_of_16_bits Abyss.Black two_positions
        ≡ 2 ∷ 1 ∷ 4 ∷ 3 ∷ 0 ∷ 0 ∷ 255 ∷ 255 ∷ [] }
    ensures clamp_of_16_bits { raw_with faint_of_16_bits Abyss.Clamp two_positions
        ≡ 2 ∷ 1 ∷ 4 ∷ 3 ∷ 2 ∷ 1 ∷ 4 ∷ 3 ∷ [] }
{}

/// Works out a row of 10, 20 and 31 from x = 0 on: its first level has two positions, (10 + 20 + 2) / 4 and
/// (31 + 2) / 4.
pub fn level_of_odd_width()
    ensures bounds { (level (three_from (pos 0)) 1).box ≡ two_positions }
    ensures samples { raw (level (three_from (pos 0)) 1) two_positions ≡ 8 ∷ 8 ∷ [] }
{}

/// Works out the same row from x = -3 on: its first level begins at x = -2, with (10 + 2) / 4 and (20 + 31 +
/// 2) / 4, and its second has one position, (3 + 13 + 2) / 4.
pub fn levels_left_of_the_origin()
    ensures first_bounds { (level (three_from (negsuc 2)) 1).box ≡ positions_from (negsuc 1) 2 }
    ensures first { raw (level (three_from (negsuc 2)) 1) (positions_from (negsuc 1) 2) ≡ 3 ∷ 13 ∷ [] }
    ensures second_bounds { (level (three_from (negsuc 2)) 2).box ≡ positions_from (negsuc 0) 1 }
    ensures second { raw (level (three_from (negsuc 2)) 2) (positions_from (negsuc 0) 1) ≡ 4 ∷ [] }
{}

/// Works out two tiles, one left of the origin and one a tile away from it in both directions: their hull,
/// and how many tiles it meets. Levels 1 and 2 of four tiles in a row have two tiles and one.
pub fn tiles_and_their_hull()
    ensures hull { hull_of_tiles two_tiles ≡ placed (negsuc 63) (pos 0) 192 128 }
    ensures met { tile_count (hull_of_tiles two_tiles) ≡ 6 }
    ensures across { tile_count (positions_from (negsuc 0) 2) ≡ 2 }
    ensures levels { level_tiles (placed (pos 0) (pos 0) 256 64) 2 ≡ 3 }
{}
