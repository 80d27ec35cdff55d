//! How many pairs a render needs at most, and what counts of a run stay below.

ghost use Rattle.std.specs.Prelude.{ℕ, ◌<◌, ◌≤◌, ◌^◌, List, flat_map, length};
ghost use Rattle.std.specs.List.{AllByRecursion};
ghost use Rattle.pixel_formats.specs.Limits.{max_lines};
ghost use Rattle.plane_rect.specs.Rectangle.{InLimits, Rectangle};
ghost use Rattle.model_graphs.specs.{declared.node.NodeFact.NodeFact, Laws.IsBoxed, Meanings.Meanings, Shapes.Shapes};
ghost use Rattle.model_states.specs.State.{IsValidScene, Scene};
ghost use Rattle.model_states.specs.{Need.need, Valid.AreStated, Cache.needed_pairs, declared.strip.Strip.Strip};
ghost use Rattle.model_sessions.specs.Sessions.{render_need};
ghost use Rattle.model_runs.specs.Run.{effects_of, state_after};
ghost use Rattle.model_runs.specs.State.{Effect as EffectData, Numbers, first_state};
ghost use Rattle.outside_io.specs.Files.{Files};
ghost use Rattle.script_read.specs.{IsScript.IsScript, declared.command.Line.Line};
ghost use Rattle.model_runs.specs.Counts.{HasTrueCounts};

/// States that what a request needs of valid nodes are fewer than 2^32 pairs: of each strip whatever
/// the request, and of all strips of a request in limits.
pub fn needed_pairs_are_few<Op>()
    ensures strips { (meanings : Meanings Op) (buffers : Shapes) (facts : List (NodeFact Op)) (node : ℕ) (request : Rectangle) →
        IsBoxed meanings → AreStated meanings buffers facts →
        AllByRecursion (λ (strip : Strip). length strip.need < 2 ^ 32) (need meanings facts node request) }
    ensures all { (meanings : Meanings Op) (buffers : Shapes) (facts : List (NodeFact Op)) (node : ℕ) (request : Rectangle) →
        IsBoxed meanings → AreStated meanings buffers facts → InLimits request →
        length (flat_map (λ (strip : Strip). strip.need) (need meanings facts node request)) < 2 ^ 32 }
{}

/// States that a render of a valid state needs fewer than 2^32 pairs, whatever its node, level and
/// rectangle.
pub fn renders_need_few_pairs<Op>()
    ensures { (meanings : Meanings Op) (scene : Scene Op) (name : List ℕ) (level : ℕ) (rectangle : Rectangle) →
        IsBoxed meanings → IsValidScene meanings scene →
        length (needed_pairs scene.nodes (render_need meanings scene name level rectangle)) < 2 ^ 32 }
{}

/// States that a script has at most 10,000 lines.
pub fn scripts_have_few_lines()
    ensures { (lines : List Line) → IsScript lines → length lines ≤ max_lines }
{}

/// States that the counts of applied and reused pairs are below 2^64 in each state that a run of at
/// most 10,000 lines reaches, and in its last one, so that the counts that are reported are the true
/// ones.
pub fn counts_stay_below()
    ensures each { (capacity : ℕ) (numbers : Numbers) (files : Files) (lines : List Line) →
        length lines ≤ max_lines →
        AllByRecursion (λ (effect : EffectData). HasTrueCounts effect.next) (effects_of capacity numbers files lines) }
    ensures last { (capacity : ℕ) (numbers : Numbers) (files : Files) (lines : List Line) →
        length lines ≤ max_lines →
        HasTrueCounts (state_after (first_state numbers) (effects_of capacity numbers files lines)) }
{}
