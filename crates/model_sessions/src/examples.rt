//! Histories, refusals and counts worked out by hand.

ghost use Rattle.std.specs.Prelude.{◌≡◌, [], ◌∷◌, ◌++◌, codes, pos, Err, None, Some};
ghost use Rattle.plane_rect.specs.Rectangle.{placed};
ghost use Rattle.model_operations.specs.declared.operation.IntOp.TheVariants.{BoxMean, Invert, Over};
ghost use Rattle.pixel_formats.specs.declared.abyss.Abyss.TheVariants as policies;
ghost use Rattle.model_graphs.specs.{declared.node.Body.TheVariants.Compute, declared.node.NodeEdit.TheVariants.Remove};
ghost use Rattle.model_states.specs.declared.refused.StateRefused.TheVariants.{Bounds, Formats, InUse, NothingToRedo, NothingToUndo, UnknownInput};
ghost use Rattle.model_states.specs.Examples.{counts, square};
ghost use Rattle.model_states.specs.History.{redone, undone};
ghost use Rattle.model_states.specs.{Need.wide, Cache.uncounted};
ghost use Rattle.model_sessions.specs.Examples.{carried, color, commit_after, crop_rendered, crop_twice, history, node_counts, of_buffer, of_color, rendered, row, set, two_commits, voided_by, wide_need, with_edit};
ghost use Rattle.model_sessions.specs.Steps.{Commit, EditNode, Redo, Undo};

/// Works out two commits, of a whole buffer and of one pixel of it. An undo and a redo carry the rectangle of the second; two
/// undos lead back to the state without nodes, and then nothing is left to undo.
pub fn undo_and_redo()
    ensures commits { carried two_commits ≡ [] ∷ of_buffer (row 2) ∷ of_buffer (row 1) ∷ [] }
    ensures redone { carried (two_commits ++ Undo ∷ Redo ∷ [])
        ≡ [] ∷ of_buffer (row 2) ∷ of_buffer (row 1) ∷ of_buffer (row 1) ∷ of_buffer (row 1) ∷ [] }
    ensures undone { carried (two_commits ++ Undo ∷ Undo ∷ [])
        ≡ [] ∷ of_buffer (row 2) ∷ of_buffer (row 1) ∷ of_buffer (row 1) ∷ of_buffer (row 2) ∷ [] }
    ensures empty { node_counts (two_commits ++ Undo ∷ Undo ∷ []) ≡ 0 ∷ 1 ∷ 1 ∷ 1 ∷ 0 ∷ [] }
    ensures no_more { undone (history (two_commits ++ Undo ∷ Undo ∷ [])) ≡ Err NothingToUndo }
{}

/// Works out commits that are refused: an input that is not there, a node that goes while another reads it, an operation that
/// does not take its inputs, and a box that would be too wide. Nothing is left to redo at first.
pub fn refused_commits()
    ensures unknown { commit_after (set (codes "i") (Compute Invert (codes "zz" ∷ [])) ∷ []) ≡ Err UnknownInput }
    ensures in_use { commit_after
        (set (codes "k") (color 1) ∷ set (codes "i") (of_color Invert) ∷ Commit ∷ EditNode (Remove (codes "k")) ∷ [])
        ≡ Err InUse }
    ensures formats { commit_after
        (set (codes "k") (color 1) ∷ set (codes "u") (Compute Over (codes "k" ∷ codes "k" ∷ [])) ∷ [])
        ≡ Err Formats }
    ensures bounds { commit_after
        (set (codes "k") (color 32768) ∷ set (codes "b") (of_color (BoxMean 1 policies.None)) ∷ [])
        ≡ Err Bounds }
    ensures redo { redone (history []) ≡ Err NothingToRedo }
{}

/// Works out renders of a mean over 128 by 128 pixels: twice, then once after an edit. One of the corner damages one of four
/// tiles, one in the middle all four. An undo of the first damages the same tile again.
pub fn work_after_an_edit()
    ensures corner { counts (with_edit (square 1)) ≡ (5, 7) }
    ensures middle { counts (with_edit (placed (pos 64) (pos 64) 1 1)) ≡ (8, 4) }
    ensures undone { counts (rendered (voided_by (square 1) (with_edit (square 1)))) ≡ (6, 10) }
{}

/// States that a part of 200 positions becomes one of 100 under a mean: both nodes' tiles go, and half as many are needed.
pub fn work_after_a_crop()
    ensures first { counts (crop_rendered 200 (uncounted [])) ≡ (8, 0) }
    ensures both { counts crop_twice ≡ (12, 0) }
{}

/// States that a strip of 65 tiles fits a capacity of 65, and is too wide for one of 64.
pub fn wide_strip()
    ensures too_wide { wide 64 wide_need ≡ Some 65 }
    ensures fits { wide 65 wide_need ≡ None }
{}
