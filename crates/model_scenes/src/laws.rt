//! What holds of scenes that follow one another.

ghost use Rattle.std.specs.Prelude.{◌+◌, ◌≤◌, Bool, List, suc, true, ℕ};
ghost use Rattle.model_graphs.specs.{Evaluation.Buffers, Laws.Distinguishes, Laws.KeepsLaws, Meanings.Meanings};
ghost use Rattle.model_states.specs.Cache.{AreRight, Cached, all_voided, by_pair};
ghost use Rattle.model_states.specs.{Damage.Change, Rectangles.Rectangles, declared.damage.Damage.Damage};
ghost use Rattle.model_scenes.specs.Commits.{IsStepBetween, shown_side, with_damage};
ghost use Rattle.model_scenes.specs.Follows.{AreLast, Follows, ShownScene, entries_after, most_damages};

/// States that following is transitive, whether or not it is known that evaluations agree.
pub fn following_is_transitive<Op>()
    ensures { (meanings : Meanings Op) (known : Bool) (first second third : ShownScene Op) →
        Follows meanings known first second → Follows meanings known second third →
        Follows meanings known first third }
{}

/// States that of cached pairs that are right for a scene those that no later rectangle meets are right for a scene
/// that follows it by no more commits than it tells of.
pub fn pairs_stay_right<Op>()
    ensures { (meanings : Meanings Op) (old new : ShownScene Op) (list : List Cached) →
        Follows meanings true old new → new.number ≤ old.number + most_damages →
        AreRight meanings old.scene list →
        AreRight meanings new.scene (all_voided by_pair list (entries_after old.number new.damages)) }
{}

/// States that the state after a commit, an undo or a redo follows the one before it, with the damage of the step
/// as the last of its damages.
pub fn steps_follow<Op>()
    ensures { (same : Op → Op → Bool) (meanings : Meanings Op) (known : Bool) (change : Change Op) (rects : Rectangles) (old new : Buffers) (number : ℕ) (damages : List Damage) →
        KeepsLaws meanings → Distinguishes same → IsStepBetween same meanings known change rects old new →
        AreLast number damages →
        Follows meanings known (shown_side number change.old old damages)
        (shown_side (suc number) change.new new (with_damage damages (record { number = suc number; rects = rects }))) }
{}
