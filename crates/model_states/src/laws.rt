//! What holds of damage, of cached pairs and of nodes, for those who compute them.

ghost use Rattle.std.specs.Prelude.{◌≡◌, ◌↔◌, ◌≤◌, ℕ, Bool, length, List, map, None, slice_get, Some, true};
ghost use Rattle.std.specs.List.{AllByRecursion, Contains};
ghost use Rattle.plane_rect.specs.Tile.{Tile, tiles, meets};
ghost use Rattle.plane_rect.specs.Rectangle.{Rectangle};
ghost use Rattle.model_graphs.specs.Facts.{specs_of, stated_shapes};
ghost use Rattle.model_graphs.specs.Node.{index_of, Node};
ghost use Rattle.model_graphs.specs.{declared.node.Body.TheVariants.Compute, declared.node.NodeFact.NodeFact, Laws.IsEquality};
ghost use Rattle.model_graphs.specs.{Meanings.Meanings, Shapes.Shapes};
ghost use Rattle.model_states.specs.Cache.{all_voided, Pair, same_pair, without_damaged};
ghost use Rattle.model_states.specs.Damage.{Change, damage, damage_list, HaveRectangles, IsStatedChange, reversed};
ghost use Rattle.model_states.specs.Need.{need, wide};
ghost use Rattle.model_states.specs.Valid.{AreStated, AreValid, shapes_of, steps_of, Suits};
ghost use Rattle.model_states.specs.Rectangles.{rectangle_of};
ghost use Rattle.model_states.specs.declared.strip.Strip.{Strip as StripData};
ghost use Rattle.model_states.specs.Serving.{ServesItself};

/// States that the damage of a change is the same from the other side, so that an undo has the damage of its commit.
pub fn damage_is_symmetric<Op>()
    ensures { (same : Op → Op → Bool) (meanings : Meanings Op) (change : Change Op) (name : List ℕ) →
        IsEquality same → IsStatedChange meanings change →
        HaveRectangles change.old → HaveRectangles change.new →
        damage same meanings (reversed change) name ≡ damage same meanings change name }
{}

/// States that the list of the damages has the damage of each name, and the empty rectangle for a name of no node.
pub fn damage_is_listed<Op>()
    ensures { (same : Op → Op → Bool) (meanings : Meanings Op) (change : Change Op) (name : List ℕ) →
        rectangle_of (damage_list same meanings change) name ≡ damage same meanings change name }
{}

/// States that a void for each entry of the list of damages takes away exactly what the damage meets.
pub fn voids_leave_the_undamaged<X, Op>()
    ensures { (key : X → Pair) (same : Op → Op → Bool) (meanings : Meanings Op) (change : Change Op) (list : List X) →
        all_voided key list (damage_list same meanings change)
        ≡ without_damaged key (damage same meanings change) list }
{}

/// States that the operation of a valid node suits the shapes of all nodes, not only of those before it.
pub fn operations_suit_all_shapes<Op>()
    ensures { (meanings : Meanings Op) (shapes : Shapes) (nodes : List (Node Op)) (i : ℕ) (node : Node Op) (operation : Op) (inputs : List (List ℕ)) →
        AreValid meanings shapes nodes → slice_get nodes i ≡ Some node →
        node.body ≡ Compute operation inputs →
        Suits meanings (shapes_of meanings shapes nodes) operation (map (index_of nodes) inputs) }
{}

/// States that the test of pairs decides whether they are equal.
pub fn same_pair_decides()
    ensures { (a b : Pair) → (same_pair a b ≡ true) ↔ (a ≡ b) }
{}

/// States that each tile that a needed one requires of an input is needed before it in the strip, or the input is a source.
pub fn needs_serve_themselves<Op>()
    ensures { (meanings : Meanings Op) (buffers : Shapes) (facts : List (NodeFact Op)) (node : ℕ) (request : Rectangle) →
        AreStated meanings buffers facts →
        AllByRecursion (λ (strip : StripData). ServesItself meanings (stated_shapes facts) (steps_of (specs_of facts)) strip.need)
        (need meanings facts node request) }
{}

/// States that a tile that meets a rectangle is among its tiles.
pub fn meeting_tiles_are_listed()
    ensures { (r : Rectangle) (t : Tile) → meets t r ≡ true → Contains (tiles r) t }
{}

/// States that no strip is too wide for a capacity exactly where each needs at most so many tiles.
pub fn wide_strips_are_found()
    ensures { (capacity : ℕ) (strips : List StripData) → (wide capacity strips ≡ None)
        ↔ AllByRecursion (λ (strip : StripData). length strip.need ≤ capacity) strips }
{}
