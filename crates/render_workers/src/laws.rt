//! What requests have in common with the renders of histories, for those who carry both out.

ghost use Rattle.std.specs.Prelude.{◌≡◌, ℕ, ◌-◌, List, Some, length};
ghost use Rattle.model_buffers.specs.Counts.{names_after_render};
ghost use Rattle.model_graphs.specs.Facts.{AreImagesOf, Facts, shapes_of_facts};
ghost use Rattle.model_graphs.specs.{declared.node.NodeFact.NodeFact, Evaluation.Buffers, Meanings.Meanings};
ghost use Rattle.model_states.specs.Cache.{Pair, all_looked_up, itself, uncounted};
ghost use Rattle.model_states.specs.Valid.{AreStated};
ghost use Rattle.model_sessions.specs.Sessions.{render_need};
ghost use Rattle.node_tiles.specs.Stated.{scene_of};
ghost use Rattle.strip_renders.specs.{Moments.Moment, Strips.most_names};
ghost use Rattle.render_workers.specs.Requests.{Request, strips_needed};

/// States that a request for nodes as stated needs what a render of the state needs that has these nodes,
/// over whatever images of the buffers.
pub fn requests_need_what_renders_need<Op>()
    ensures { (meanings : Meanings Op) (facts : Facts) (nodes : List (NodeFact Op)) (images : Buffers) (asked : Request) →
        AreStated meanings (shapes_of_facts facts) nodes → AreImagesOf facts images →
        strips_needed meanings nodes asked
        ≡ render_need meanings (scene_of nodes images) asked.node asked.at_level asked.rect }
{}

/// States that the most names of a chain while pairs are looked up in a cache with a capacity are those
/// after a render, of the names that aren't the cache's and of the pairs that are evaluated.
pub fn names_are_those_after_a_render()
    ensures { (old : Moment) (pairs : List Pair) (capacity : ℕ) → old.capacity ≡ Some capacity →
        most_names old pairs ≡ names_after_render (old.counts.names - length old.cache_names) (length old.pairs) capacity
        (all_looked_up itself itself old.capacity (uncounted old.pairs) pairs).applied }
{}
