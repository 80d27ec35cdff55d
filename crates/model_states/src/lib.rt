//! What states of a graph are, how one follows another, and what a render of one needs.
#![tactic(auto)]

mod damage;
mod direction;
pub mod examples;
pub mod laws;
mod refused;
mod strip;

ghost use Rattle.std.specs.List.{AllByRecursion, IsDistinct};
ghost use Rattle.std.specs.Str.{bytes_eq};
ghost use Rattle.std.specs.Prelude.{◌≡◌, [], Bool, true, ◌++◌, ◌+◌, ◌≤◌, ◌↔◌, ℕ, None, Option, Some, false, IfOk, IsTrue, length, List, map};
ghost use Rattle.plane_rect.specs.Rectangle.{hull, Rectangle};
ghost use Rattle.plane_rect.specs.Tile.{Tile, tile_square, meets};
ghost use Rattle.model_images.specs.{Agreement.AgreeOutside, Image.Image, Raw.raw};
ghost use Rattle.model_graphs.specs.Facts.{AreImagesOf, Facts, shapes_of_facts, specs_of, stated_shapes};
ghost use Rattle.model_graphs.specs.Node.{Node, Step};
ghost use Rattle.model_graphs.specs.Shapes.{Shape, Shapes, shapes_of_images};
ghost use Rattle.model_graphs.specs.Laws.{IsBoxed, KeepsLaws, KeepsNothing, Distinguishes};
ghost use Rattle.model_graphs.specs.{declared.node.NodeEdit.NodeEdit, declared.node.NodeFact.NodeFact, Evaluation.Buffers};
ghost use Rattle.model_graphs.specs.Meanings.{Meanings};
ghost use Rattle.pixel_formats.specs.Limits.{max_nodes};
ghost use Rattle.model_states.specs.Cache.{all_looked_up, by_pair, counted_pairs, itself, needed_pairs, AreRight, AreRightPairs, Cached, Counted, HasDistinctPairs, IsPairOf, IsRight, Pair, pair_of, same_pair, with_bytes, without_damaged};
ghost use Rattle.model_states.specs.Damage.{Change, damage, damages, is_unedited, own_change, Side};
ghost use Rattle.model_states.specs.Edits.{edited, has_node, steps_refused};
ghost use Rattle.model_states.specs.History.{Appends, committed, History, redone, Returns, undone, with_commit};
ghost use Rattle.model_states.specs.Neighbors.{AreNeighbors, IsChange, SamplesAgreeOutside, scene_of_side};
ghost use Rattle.model_states.specs.Rectangles.{rectangle_of, Rectangles, with_written};
ghost use Rattle.model_states.specs.Regions.{HaveNoPosition};
ghost use Rattle.model_states.specs.Need.{need};
ghost use Rattle.model_states.specs.Retained as retained;
ghost use Rattle.model_states.specs.Retained.{AreFew, Leads, Retained};
ghost use Rattle.model_states.specs.State.{IsValidScene, Scene, body_image, image_of, node_of, shape_of, stated_nodes};
ghost use Rattle.model_states.specs.Valid.{AreStated, AreValid, AreValidSteps, node_names, shapes_of, stated};
ghost use Rattle.model_states.specs.{Samples.HaveSameBuffers, declared.strip.Strip.Strip as StripData};

pub use damage::{Damage, DamageList};
pub use direction::{Direction, MAX_UNDOABLE};
pub use refused::StateRefused;
pub use strip::{NeedList, Strip};

/// States that each pair that is looked up counts once, as applied or as reused.
pub fn counts_add_up<X>()
    ensures { (key : X → Pair) (fresh : Pair → X) (capacity : Option ℕ) (counted : Counted X) (pairs : List Pair) →
        (all_looked_up key fresh capacity counted pairs).applied
        + (all_looked_up key fresh capacity counted pairs).reused ≡ counted.applied + counted.reused + length pairs }
{}

/// States that a list that has at most as many pairs as the capacity still has when pairs were looked up.
pub fn list_stays_in_capacity<X>()
    ensures { (key : X → Pair) (fresh : Pair → X) (capacity : ℕ) (counted : Counted X) (pairs : List Pair) →
        length counted.list ≤ capacity →
        length (all_looked_up key fresh (Some capacity) counted pairs).list ≤ capacity }
{}

/// States that a list of distinct pairs still is one when pairs were looked up.
pub fn pairs_stay_distinct<X>()
    ensures { (key : X → Pair) (fresh : Pair → X) (capacity : Option ℕ) (counted : Counted X) (pairs : List Pair) →
        ((pair : Pair) → key (fresh pair) ≡ pair) →
        HasDistinctPairs key counted.list →
        HasDistinctPairs key (all_looked_up key fresh capacity counted pairs).list }
{}

/// States that with pairs alone the list has the same pairs in the same order, and the counts are the same.
pub fn pairs_need_no_bytes<X>()
    ensures { (key : X → Pair) (fresh : Pair → X) (capacity : Option ℕ) (counted : Counted X) (pairs : List Pair) →
        ((pair : Pair) → key (fresh pair) ≡ pair) →
        counted_pairs key (all_looked_up key fresh capacity counted pairs)
        ≡ all_looked_up itself itself capacity (counted_pairs key counted) pairs }
{}

/// States that a list of right pairs still is one when right pairs were looked up.
pub fn looked_up_pairs_are_right<Op>()
    ensures { (meanings : Meanings Op) (scene : Scene Op) (capacity : Option ℕ) (counted : Counted Cached) (pairs : List Pair) →
        AreRight meanings scene counted.list → AreRightPairs meanings scene pairs →
        AreRight meanings scene (all_looked_up by_pair (with_bytes meanings scene) capacity counted pairs).list }
{}

/// States that nodes after others change no image of those.
pub fn nodes_after_change_nothing<Op>()
    ensures { (meanings : Meanings Op) (buffers : Buffers) (nodes more : List (Node Op)) (name : List ℕ) →
        IsTrue (has_node nodes name) →
        image_of meanings (record { table = buffers; nodes = nodes ++ more }) name
        ≡ image_of meanings (record { table = buffers; nodes = nodes }) name }
{}

/// States that the image of a valid node is what its body makes: a source's is its buffer's, another's is that of its operation
/// on the images of its inputs.
pub fn image_is_by_body<Op>()
    ensures { (meanings : Meanings Op) (buffers : Buffers) (nodes : List (Node Op)) (name : List ℕ) (node : Node Op) →
        AreValid meanings (shapes_of_images buffers) nodes → node_of nodes name ≡ Some node →
        image_of meanings (record { table = buffers; nodes = nodes }) name
        ≡ body_image meanings (record { table = buffers; nodes = nodes }) node.body }
{}

/// States that a node's box is that of its image.
pub fn box_of_image<Op>()
    ensures { (meanings : Meanings Op) (buffers : Buffers) (nodes : List (Node Op)) (name : List ℕ) →
        (shape_of meanings (record { table = buffers; nodes = nodes }) name).box
        ≡ (image_of meanings (record { table = buffers; nodes = nodes }) name).box }
{}

/// States that a node's format is that of its image.
pub fn format_of_image<Op>()
    ensures { (meanings : Meanings Op) (buffers : Buffers) (nodes : List (Node Op)) (name : List ℕ) →
        (shape_of meanings (record { table = buffers; nodes = nodes }) name).format
        ≡ (image_of meanings (record { table = buffers; nodes = nodes }) name).format }
{}

/// States that a tile that does not meet a rectangle has the same bytes in images that agree outside the rectangle.
pub fn tiles_outside_unchanged()
    ensures { (a b : Image) (r : Rectangle) (t : Tile) → AgreeOutside a b r → meets t r ≡ false →
        raw a (tile_square t) ≡ raw b (tile_square t) }
{}

/// States that outside its damage a node's image has the same samples in both states, where one state follows the other: each
/// buffer that both have is steady, and nodes may be new, gone, moved or edited. A node that is in one state alone is 0
/// outside its damage. A node that is kept also has its box and its format.
pub fn images_unchanged_outside_damage<Op>()
    ensures samples { (same : Op → Op → Bool) (meanings : Meanings Op) (change : Change Op) (old new : Buffers) (name : List ℕ) →
        KeepsLaws meanings → Distinguishes same → IsChange meanings change old new →
        SamplesAgreeOutside
        (image_of meanings (scene_of_side change.old old) name)
        (image_of meanings (scene_of_side change.new new) name)
        (damage same meanings change name) }
    ensures kept { (same : Op → Op → Bool) (meanings : Meanings Op) (change : Change Op) (old new : Buffers) (node : Node Op) →
        KeepsLaws meanings → Distinguishes same → IsChange meanings change old new →
        node_of (specs_of change.new.nodes) node.name ≡ Some node →
        IsTrue (is_unedited same change node (node_of (specs_of change.old.nodes) node.name)) →
        AgreeOutside
        (image_of meanings (scene_of_side change.old old) node.name)
        (image_of meanings (scene_of_side change.new new) node.name)
        (damage same meanings change node.name) }
{}

/// States that there, a right pair whose tile does not meet the damage of its node stays right.
pub fn pair_stays_right<Op>()
    ensures { (same : Op → Op → Bool) (meanings : Meanings Op) (change : Change Op) (old new : Buffers) (cached : Cached) →
        KeepsLaws meanings → Distinguishes same → IsChange meanings change old new →
        meets cached.pair.tile (damage same meanings change cached.pair.node) ≡ false →
        IsRight meanings (scene_of_side change.old old) cached →
        IsRight meanings (scene_of_side change.new new) cached }
{}

/// States that therefore a list of right pairs, without the damaged ones, is again one.
pub fn list_stays_right<Op>()
    ensures { (same : Op → Op → Bool) (meanings : Meanings Op) (change : Change Op) (old new : Buffers) (list : List Cached) →
        KeepsLaws meanings → Distinguishes same → IsChange meanings change old new →
        AreRight meanings (scene_of_side change.old old) list →
        AreRight meanings (scene_of_side change.new new)
        (without_damaged by_pair (damage same meanings change) list) }
{}

/// States that where buffers keep their names, boxes and formats under the same nodes, no node's box or format does.
pub fn shapes_unchanged_where_samples_change<Op>()
    ensures { (meanings : Meanings Op) (nodes : List (Node Op)) (old new : Facts) →
        HaveSameBuffers old new →
        shapes_of meanings (shapes_of_facts old) nodes ≡ shapes_of meanings (shapes_of_facts new) nodes }
{}

/// States that in the need of a strip no pair is there twice.
pub fn needed_pairs_are_distinct<Op>()
    ensures { (meanings : Meanings Op) (facts : List (NodeFact Op)) (node : ℕ) (request : Rectangle) →
        IsDistinct bytes_eq (node_names (specs_of facts)) →
        AllByRecursion (λ (strip : StripData). IsDistinct same_pair (map (pair_of (specs_of facts)) strip.need))
        (need meanings facts node request) }
{}

/// States that what is needed of nodes are pairs of theirs: tiles of operations, each of which meets its node's box.
pub fn needed_pairs_are_of_nodes<Op>()
    ensures { (meanings : Meanings Op) (facts : List (NodeFact Op)) (node : ℕ) (request : Rectangle) →
        IsBoxed meanings → IsDistinct bytes_eq (node_names (specs_of facts)) →
        AllByRecursion (IsPairOf (specs_of facts) (stated_shapes facts))
        (needed_pairs (specs_of facts) (need meanings facts node request)) }
{}

/// States that what is needed in a valid state are right pairs: tiles of operations, each of which meets its node's box.
pub fn needed_pairs_are_right<Op>()
    ensures { (meanings : Meanings Op) (scene : Scene Op) (node : ℕ) (request : Rectangle) →
        IsBoxed meanings → IsValidScene meanings scene →
        AreRightPairs meanings scene (needed_pairs scene.nodes
        (need meanings (stated_nodes meanings scene) node request)) }
{}

/// States that voided pairs leave distinct pairs of distinct ones.
pub fn voided_pairs_stay_distinct<X>()
    ensures { (key : X → Pair) (damage : List ℕ → Rectangle) (list : List X) →
        HasDistinctPairs key list → HasDistinctPairs key (without_damaged key damage list) }
{}

/// States that a commit that is not refused appends one state.
pub fn commit_appends_one_state<Table, Op>()
    ensures { (meanings : Meanings Op) (shapes : Table → Shapes) (history : History Table Op) →
        IfOk (committed meanings shapes history) (Appends history) }
{}

/// States that an undo does so too.
pub fn undo_appends_one_state<Table, Op>()
    ensures { (history : History Table Op) → IfOk (undone history) (Appends history) }
{}

/// States that a redo does so too.
pub fn redo_appends_one_state<Table, Op>()
    ensures { (history : History Table Op) → IfOk (redone history) (Appends history) }
{}

/// States that an undo right after a commit returns to the state before it, and carries the commit's rectangles.
pub fn undo_reverts_commit<Table, Op>()
    ensures { (history : History Table Op) (nodes : List (Node Op)) →
        IfOk (undone (with_commit history nodes)) (Returns history.workspace.retained.latest history.workspace.written) }
{}

/// States that a redo right after an undo returns to the state before it, and carries the same rectangles.
pub fn redo_reverts_undo<Table, Op>()
    ensures { (history : History Table Op) →
        IfOk (undone history) (λ before.
        IfOk (redone before) (Returns history.workspace.retained.latest before.rectangles)) }
{}

/// States that a table of buffers is its own neighbor, with no rectangles.
pub fn buffers_are_their_own_neighbor()
    ensures { (facts : Facts) (images : Buffers) → AreNeighbors facts facts images images [] }
{}

/// States that from a state to itself, with no rectangles, no node's damage has a position.
pub fn nothing_is_damaged<Op>()
    ensures { (same : Op → Op → Bool) (meanings : Meanings Op) (side : Side Op) →
        ((operation : Op) → same operation operation ≡ true) → KeepsNothing meanings →
        IsDistinct bytes_eq (node_names (specs_of side.nodes)) →
        HaveNoPosition (damages same meanings (own_change side)) }
{}

/// States that the walk over steps refuses none exactly where each is valid after those before it.
pub fn walk_refuses_what_is_not_valid<Op>()
    ensures { (meanings : Meanings Op) (shapes : Shapes) (known : List Shape) (steps : List (Step Op)) →
        (steps_refused meanings shapes known steps ≡ None) ↔ AreValidSteps meanings shapes known steps }
{}

/// States that edits that are not refused leave valid nodes of nodes of distinct names, of which there are few enough.
pub fn edits_leave_valid_nodes<Op>()
    ensures { (meanings : Meanings Op) (shapes : Shapes) (nodes : List (Node Op)) (edits : List (NodeEdit Op)) →
        length nodes ≤ max_nodes → IsDistinct bytes_eq (node_names nodes) →
        IfOk (edited meanings shapes nodes edits) (AreValid meanings shapes) }
{}

/// States that valid nodes with the shapes that they have are stated as they are, and no others are.
pub fn stated_nodes_are_theirs<Op>()
    ensures nodes { (meanings : Meanings Op) (shapes : Shapes) (nodes : List (Node Op)) →
        specs_of (stated meanings shapes nodes) ≡ nodes }
    ensures shapes { (meanings : Meanings Op) (shapes : Shapes) (nodes : List (Node Op)) →
        stated_shapes (stated meanings shapes nodes) ≡ shapes_of meanings shapes nodes }
    ensures valid { (meanings : Meanings Op) (shapes : Shapes) (nodes : List (Node Op)) →
        AreValid meanings shapes nodes → AreStated meanings shapes (stated meanings shapes nodes) }
    ensures only { (meanings : Meanings Op) (shapes : Shapes) (facts : List (NodeFact Op)) →
        AreStated meanings shapes facts → facts ≡ stated meanings shapes (specs_of facts) }
{}

/// States that an undo right after a commit leads to the state before it by the commit's delta, and a redo right after an undo to
/// the state before that, by the same delta.
pub fn undo_and_redo_lead_back<State, Delta>()
    ensures undone { (before : Retained State Delta) (state : State) (delta : Delta) →
        IfOk (retained.undone (retained.with_commit before state delta)) (Leads before.latest delta) }
    ensures redone { (before : Retained State Delta) →
        IfOk (retained.undone before) (λ undo. IfOk (retained.redone undo.next) (Leads before.latest undo.delta)) }
{}

/// States that there are never more states to undo and to redo to than can be undone.
pub fn retained_states_stay_few<State, Delta>()
    ensures commit { (before : Retained State Delta) (state : State) (delta : Delta) →
        AreFew (retained.with_commit before state delta) }
    ensures undo { (before : Retained State Delta) → AreFew before →
        IfOk (retained.undone before) (λ step. AreFew step.next) }
    ensures redo { (before : Retained State Delta) → AreFew before →
        IfOk (retained.redone before) (λ step. AreFew step.next) }
{}

/// States that the rectangle of a root that is written becomes the hull with what was written; those of others are unchanged.
pub fn written_rectangles_grow()
    ensures own { (rectangles : Rectangles) (root : List ℕ) (r : Rectangle) →
        rectangle_of (with_written rectangles root r) root ≡ hull (rectangle_of rectangles root) r }
    ensures others { (rectangles : Rectangles) (root other : List ℕ) (r : Rectangle) →
        bytes_eq other root ≡ false →
        rectangle_of (with_written rectangles root r) other ≡ rectangle_of rectangles other }
{}
