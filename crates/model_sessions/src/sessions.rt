//! What holds of the cached pairs of each session.

ghost use Rattle.std.specs.Prelude.{ℕ, ◌≤◌, Bool, List, length};
ghost use Rattle.model_buffers.specs.Table.{Table};
ghost use Rattle.model_graphs.specs.Laws.{Distinguishes, IsBoxed, KeepsLaws};
ghost use Rattle.model_graphs.specs.Meanings.{Meanings};
ghost use Rattle.model_states.specs.Cache.{AreRight, HasDistinctPairs, by_pair};
ghost use Rattle.model_operations.specs.Meanings.{int_meanings, same_operation};
ghost use Rattle.model_operations.specs.declared.operation.IntOp.{IntOp};
ghost use Rattle.model_sessions.specs.Sessions.{Action, AreProperActions, IsProperAction, IsSession, Session, after_action, last_scene, session_of};

/// States that after any edits, renders, commits, undos and redos each cached pair is right for the last state: its node is one of
/// the state's operations, its tile meets the node's box, and its bytes are those of the node's image. No pair is there
/// twice, and there are at most as many as the capacity.
pub fn cached_pairs_are_right<Op>()
    ensures right { (same : Op → Op → Bool) (meanings : Meanings Op) (capacity : ℕ) (actions : List (Action Op)) →
        KeepsLaws meanings → IsBoxed meanings → Distinguishes same → AreProperActions actions →
        (let session = session_of same meanings capacity actions in
        AreRight meanings (last_scene session) session.cached.list) }
    ensures distinct { (same : Op → Op → Bool) (meanings : Meanings Op) (capacity : ℕ) (actions : List (Action Op)) →
        KeepsLaws meanings → IsBoxed meanings → Distinguishes same → AreProperActions actions →
        HasDistinctPairs by_pair (session_of same meanings capacity actions).cached.list }
    ensures few { (same : Op → Op → Bool) (meanings : Meanings Op) (capacity : ℕ) (actions : List (Action Op)) →
        KeepsLaws meanings → IsBoxed meanings → Distinguishes same → AreProperActions actions →
        length (session_of same meanings capacity actions).cached.list ≤ capacity }
{}

/// States that an action makes a session of a session, whatever made that one.
pub fn actions_keep_sessions<Op>()
    ensures { (same : Op → Op → Bool) (meanings : Meanings Op) (capacity : ℕ) (session : Session Table Op) (action : Action Op) →
        KeepsLaws meanings → IsBoxed meanings → Distinguishes same →
        IsSession meanings capacity session → IsProperAction action →
        IsSession meanings capacity (after_action same meanings capacity session action) }
{}

/// States that it is so with the fifteen operations.
pub fn sessions_of_fifteen_operations()
    ensures { (capacity : ℕ) (actions : List (Action IntOp)) → AreProperActions actions →
        IsSession int_meanings capacity (session_of same_operation int_meanings capacity actions) }
{}
