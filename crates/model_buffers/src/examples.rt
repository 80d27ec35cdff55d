//! The edits worked out by hand on small tables.
#![tactic(auto, unfolding(model_images::specs::Image::at, model_images::specs::Abyss::abyss_at, model_images::specs::Abyss::raw_with))]

ghost use Rattle.std.specs.Prelude.{◌≡◌, [], ◌∷◌, negsuc, pos, Err, codes, None, Some};
ghost use Rattle.plane_rect.specs.Rectangle.{placed};
ghost use Rattle.model_images.specs.Examples.{positions_from};
ghost use Rattle.model_buffers.specs.declared.edit.BufferEdit.TheVariants.{Copy, Create, Duplicate, Fill, Put};
ghost use Rattle.model_buffers.specs.Examples.{and_then, bytes_of, column_of_two_rows, duplicate_filled, duplicate_then_fill, first_name, full_table, image_after, nines_by_column, one_color, one_two_three, part_of_four, right_column, second_name, two_rows, zeros_over, fact_of_row, facts_after, refused_after, written_after};
ghost use Rattle.model_buffers.specs.{Edits.edited_table, Table.no_buffers, Counts.tiles_added};

use crate::refused::EditRefused;
use pixel_formats::Format;

/// Works out a duplicate of a buffer of 10 and 10: then 20 is written to the first position of the buffer, and 30
/// to the second of the duplicate.
pub fn duplicates()
    ensures original { bytes_of duplicate_then_fill first_name (positions_from (pos 0) 2) ≡ 20 ∷ 10 ∷ [] }
    ensures duplicate { bytes_of duplicate_then_fill second_name (positions_from (pos 0) 2) ≡ 10 ∷ 10 ∷ [] }
    ensures original_after { bytes_of duplicate_filled first_name (positions_from (pos 0) 2) ≡ 20 ∷ 10 ∷ [] }
    ensures duplicate_after { bytes_of duplicate_filled second_name (positions_from (pos 0) 2) ≡ 10 ∷ 30 ∷ [] }
{}

/// Works out a sub-buffer of nine positions from x = 1 on, of four positions: it has three. A 7 in its second
/// position is the third of the four, and the position at x = 0 is none of its positions.
pub fn sub_buffers()
    ensures extent { (image_after part_of_four second_name).box ≡ positions_from (pos 1) 3 }
    ensures shared { bytes_of
        (and_then part_of_four (λ table. edited_table table (Fill second_name (positions_from (pos 2) 1) (7 ∷ []))))
        first_name (positions_from (pos 0) 4) ≡ 0 ∷ 0 ∷ 7 ∷ 0 ∷ [] }
    ensures outside { and_then part_of_four (λ table. edited_table table (Fill second_name (positions_from (pos 0) 1) (9 ∷ [])))
        ≡ Err EditRefused.OutOfBounds }
{}

/// Works out the right column of two rows, 1 and 2 above 3 and 4: it is 2 above 4. Once it is filled with 9
/// so is that of the rows.
pub fn columns()
    ensures column { bytes_of column_of_two_rows second_name right_column ≡ 2 ∷ 4 ∷ [] }
    ensures filled { bytes_of nines_by_column first_name (placed (pos 0) (pos 0) 2 2) ≡ 1 ∷ 9 ∷ 3 ∷ 9 ∷ [] }
{}

/// Works out copies of the first two of 1, 2 and 3 onto the last two, and of the last two onto the first two.
pub fn copies_onto_itself()
    ensures end_column { bytes_of
        (and_then one_two_three (λ table. edited_table table (Copy first_name first_name (positions_from (pos 0) 2) (pos 1) (pos 0))))
        first_name (positions_from (pos 0) 3) ≡ 1 ∷ 1 ∷ 2 ∷ [] }
    ensures first_column { bytes_of
        (and_then one_two_three (λ table. edited_table table (Copy first_name first_name (positions_from (pos 1) 2) (negsuc 0) (pos 0))))
        first_name (positions_from (pos 0) 3) ≡ 2 ∷ 3 ∷ 3 ∷ [] }
{}

/// Works out edits that are refused: of names that are taken or unknown, and beside 64 buffers.
pub fn refused_names()
    ensures taken { and_then one_color (λ table. edited_table table (Create first_name Format.Y8 (positions_from (pos 0) 1)))
        ≡ Err EditRefused.NameTaken }
    ensures unknown { edited_table no_buffers (Duplicate first_name second_name) ≡ Err EditRefused.UnknownBuffer }
    ensures full { edited_table full_table (Create second_name Format.Y8 (positions_from (pos 0) 1)) ≡ Err EditRefused.TooManyBuffers }
{}

/// Works out edits that are refused: a fill of three channels with one sample, or with one above 255; three
/// bytes for four positions; a copy that leaves the buffer, or the plane.
pub fn refused_samples()
    ensures one_sample { and_then one_color (λ table. edited_table table (Fill first_name (positions_from (pos 0) 1) (1 ∷ [])))
        ≡ Err EditRefused.Formats }
    ensures great_sample { and_then one_color (λ table. edited_table table (Fill first_name (positions_from (pos 0) 1) (1 ∷ 256 ∷ 1 ∷ [])))
        ≡ Err EditRefused.Formats }
    ensures three_bytes { and_then two_rows (λ table. edited_table table (Put first_name (placed (pos 0) (pos 0) 2 2) (1 ∷ 2 ∷ 3 ∷ [])))
        ≡ Err (EditRefused.WrongSize 3 4) }
    ensures past_the_edge { and_then one_two_three (λ table. edited_table table (Copy first_name first_name (positions_from (pos 0) 2) (pos 2) (pos 0)))
        ≡ Err EditRefused.OutOfBounds }
    ensures past_the_plane { and_then one_two_three (λ table. edited_table table (Copy first_name first_name (positions_from (pos 0) 2) (pos 16777216) (pos 0)))
        ≡ Err EditRefused.OutOfBounds }
{}

/// Works out a buffer of four positions and its part from the second on: what a graph knows of them, and what
/// a fill of the part writes to their root.
pub fn layouts()
    ensures facts { facts_after part_of_four ≡ fact_of_row first_name 0 4 ∷ fact_of_row second_name 1 3 ∷ [] }
    ensures written { written_after part_of_four (Fill second_name (positions_from (pos 2) 1) (7 ∷ []))
        ≡ Some (first_name, positions_from (pos 2) 1) }
    ensures adding { written_after part_of_four (Duplicate (codes "c") first_name) ≡ None }
    ensures refused { refused_after part_of_four (Fill second_name (positions_from (pos 0) 1) (7 ∷ []))
        ≡ Some EditRefused.OutOfBounds }
{}

/// Works out how many tiles edits add: a fill across the edge of a tile two, a copy whose moved rectangle is
/// across it two, and a new buffer none.
pub fn tiles_of_edits()
    ensures filled { tiles_added (Fill first_name (positions_from (pos 63) 2) (1 ∷ [])) ≡ 2 }
    ensures around_the_origin { tiles_added (Fill first_name (positions_from (negsuc 0) 2) (1 ∷ [])) ≡ 2 }
    ensures copied { tiles_added (Copy first_name first_name (positions_from (pos 0) 64) (pos 1) (pos 0)) ≡ 2 }
    ensures created { tiles_added (Create first_name Format.Y8 (positions_from (pos 0) 64)) ≡ 0 }
{}
