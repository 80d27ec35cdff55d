//! Regions and counts worked out by hand on a graph of two nodes.

ghost use Rattle.std.specs.Prelude.{◌≡◌, [], codes, negsuc, pos, length};
ghost use Rattle.plane_rect.specs.Rectangle.{placed};
ghost use Rattle.model_states.specs.Examples.{counts, damage_by, neighborhoods, rendered, rendered_after_edit, square, two_node_facts, two_nodes};
ghost use Rattle.model_states.specs.{Cache.needed_pairs, Need.need};

/// States that a position at the origin and its neighbors are in four tiles, in two strips.
pub fn tiles_around_the_origin()
    ensures strips { length (need neighborhoods (two_node_facts 1) 1 (placed (negsuc 0) (negsuc 0) 3 3)) ≡ 2 }
    ensures pairs { length (needed_pairs two_nodes (need neighborhoods (two_node_facts 1) 1 (placed (negsuc 0) (negsuc 0) 3 3))) ≡ 4 }
    ensures source { needed_pairs two_nodes (need neighborhoods (two_node_facts 1) 0 (square 1)) ≡ [] }
{}

/// States that a written position damages its neighbors.
pub fn damage_around_a_position()
    ensures corner { damage_by (square 1) (codes "b") ≡ placed (negsuc 0) (negsuc 0) 3 3 }
    ensures middle { damage_by (placed (pos 64) (pos 64) 1 1) (codes "b") ≡ placed (pos 63) (pos 63) 3 3 }
    ensures source { damage_by (square 1) (codes "s") ≡ square 1 }
{}

/// Works out renders of 128 by 128 pixels: the first finds nothing, one right after it all four tiles; after an edit of
/// the corner three, after one in the middle none.
pub fn work_after_an_edit()
    ensures first { counts (rendered []) ≡ (4, 0) }
    ensures again { counts (rendered (rendered []).list) ≡ (0, 4) }
    ensures corner { counts (rendered_after_edit (square 1)) ≡ (1, 3) }
    ensures middle { counts (rendered_after_edit (placed (pos 64) (pos 64) 1 1)) ≡ (4, 0) }
{}
