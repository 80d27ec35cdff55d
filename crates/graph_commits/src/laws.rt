//! What those who keep cached pairs may conclude of the damages that a graph answers.

ghost use Rattle.std.specs.Prelude.{◌≡◌, List};
ghost use Rattle.std.specs.Prelude.{Bool};
ghost use Rattle.model_graphs.specs.{Evaluation.Buffers, Laws.IsEquality, Meanings.Meanings};
ghost use Rattle.model_states.specs.Cache.{all_voided, AreRight, by_pair, Cached, Pair, without_damaged};
ghost use Rattle.model_states.specs.Commits.{change_to, Graph};
ghost use Rattle.model_states.specs.Damage.{Change, damage, damage_list, HaveRectangles, IsStatedChange, reversed, Side};
ghost use Rattle.model_states.specs.Neighbors.{IsChange, scene_of_side};
ghost use Rattle.model_states.specs.Rectangles.{Rectangles};

use model_graphs::OpMeaning;

/// States that whoever voids the tiles of each node that meet its answered rectangle takes exactly the
/// pairs whose tile meets the damage of their node, from whatever list: at a commit and a redo by the
/// damages of the change, at an undo by those of the change that it takes back.
pub fn voids_take_the_damaged<X, Op>()
    ensures onward { (key : X → Pair) (same : Op → Op → Bool) (meanings : Meanings Op) (change : Change Op) (list : List X) →
        all_voided key list (damage_list same meanings change)
        ≡ without_damaged key (damage same meanings change) list }
    ensures back { (key : X → Pair) (same : Op → Op → Bool) (meanings : Meanings Op) (change : Change Op) (list : List X) →
        IsEquality same → IsStatedChange meanings change → HaveRectangles change.old → HaveRectangles change.new →
        all_voided key list (damage_list same meanings change)
        ≡ without_damaged key (damage same meanings (reversed change)) list }
{}

/// States that a list of right pairs that is voided so is one of the state that a step leads to.
pub fn right_pairs_stay<Op: OpMeaning>()
    ensures onward { (change : Change Op) (old new : Buffers) (list : List Cached) →
        IsChange Op.meanings change old new →
        AreRight Op.meanings (scene_of_side change.old old) list →
        AreRight Op.meanings (scene_of_side change.new new) (all_voided by_pair list (damage_list Op.same Op.meanings change)) }
    ensures back { (change : Change Op) (old new : Buffers) (list : List Cached) →
        IsChange Op.meanings (reversed change) new old → HaveRectangles change.old → HaveRectangles change.new →
        AreRight Op.meanings (scene_of_side change.new new) list →
        AreRight Op.meanings (scene_of_side change.old old) (all_voided by_pair list (damage_list Op.same Op.meanings change)) }
{}
