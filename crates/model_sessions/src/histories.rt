//! What holds of each history that is made by steps.

ghost use Rattle.std.specs.List.{AllByRecursion};
ghost use Rattle.std.specs.Prelude.{Bool, List};
ghost use Rattle.model_buffers.specs.Table.{Table};
ghost use Rattle.model_graphs.specs.Laws.{Distinguishes, KeepsLaws};
ghost use Rattle.model_graphs.specs.Meanings.{Meanings};
ghost use Rattle.model_states.specs.Cache.{AreRight, Cached, by_pair, without_damaged};
ghost use Rattle.model_states.specs.Damage.{IsStated, damage};
ghost use Rattle.model_states.specs.History.{Appends, Committed, committed_states, History};
ghost use Rattle.model_states.specs.State.{IsValidScene, State};
ghost use Rattle.model_sessions.specs.Histories.{AreInTurn, change_to, IsHistory, IsValidState, last_state, scene_of, side_of_state};
ghost use Rattle.model_sessions.specs.Steps.{after_step, AreProper, IsProper, made_by, HistoryEdit};

/// States that each committed state is a table with valid nodes over it: at most 256, of distinct names, each input earlier, each
/// operation suited to its inputs.
pub fn states_are_valid<Op>()
    ensures { (meanings : Meanings Op) (steps : List (HistoryEdit Op)) → AreProper steps →
        AllByRecursion (λ (committed : Committed Table Op). IsValidState meanings committed.state)
        (committed_states (made_by meanings steps)) }
{}

/// States that the nodes of a valid state are valid over the images of its buffers, and stated as they are over what is known of
/// these.
pub fn valid_states_are_known<Op>()
    ensures scene { (meanings : Meanings Op) (state : State Table Op) →
        IsValidState meanings state → IsValidScene meanings (scene_of state) }
    ensures side { (meanings : Meanings Op) (state : State Table Op) →
        IsValidState meanings state → IsStated meanings (side_of_state meanings state) }
{}

/// States that each committed state and the next are neighbors with the rectangles that the next one carries, also where it came
/// by an undo or a redo.
pub fn states_are_neighbors<Op>()
    ensures { (meanings : Meanings Op) (steps : List (HistoryEdit Op)) → AreProper steps →
        AreInTurn (committed_states (made_by meanings steps)) }
{}

/// States that a step makes a history of a history, and steps make one from the beginning on.
pub fn steps_keep_histories<Op>()
    ensures one { (meanings : Meanings Op) (history : History Table Op) (step : HistoryEdit Op) →
        IsHistory meanings history → IsProper step → IsHistory meanings (after_step meanings history step) }
    ensures all { (meanings : Meanings Op) (steps : List (HistoryEdit Op)) → AreProper steps →
        IsHistory meanings (made_by meanings steps) }
{}

/// States that a list of right cached pairs for the last state, without the damaged ones, is one for the state that a step appends.
pub fn steps_leave_right_pairs<Op>()
    ensures { (same : Op → Op → Bool) (meanings : Meanings Op) (history : History Table Op) (step : HistoryEdit Op) (list : List Cached) →
        KeepsLaws meanings → Distinguishes same → IsHistory meanings history → IsProper step →
        (let after = after_step meanings history step in
        Appends history after →
        AreRight meanings (scene_of (last_state history)) list →
        AreRight meanings (scene_of (last_state after))
        (without_damaged by_pair (damage same meanings (change_to meanings history after)) list)) }
{}
