//! Laws by which callers speak of roots.

ghost use Rattle.std.specs.Prelude.{◌≡◌, ℕ, ◌+◌, ◌≤◌, ◌++◌, List, []};
ghost use Rattle.std.specs.Option.{option_map};
ghost use Rattle.chain_owners.specs.Counts.{Counts, Grows};
ghost use Rattle.chain_owners.specs.Owners.{Owns, Respects};
ghost use Rattle.chain_owners.specs.Held.{Held};
ghost use Rattle.model_images.specs.{Paint.blank, TileCounts.level_tiles};
ghost use Rattle.pixel_formats.specs.declared.format.Format.{Format};
ghost use Rattle.plane_rect.specs.Rectangle.{InLimits, IsRectangle, Rectangle};
ghost use Rattle.root_tiles.specs.Growth.{HoldsMoreTiles, RootState, names_with_root_levels, root_state};
ghost use Rattle.root_tiles.specs.Roots.{IsRootOver, RootTiles, empty_root, root_image, root_names};
ghost use Rattle.chain_owners.specs.Cause.{HasSwapCause};
ghost use Rattle.chain_owners.specs.declared.swap_refused.SwapRefused.{SwapRefused};

use level_tables::new_tables_ask_nothing;

/// States that a root of no tile is zeros, and asks nothing of a chain.
pub fn new_roots_are_blank()
    ensures over { (box : Rectangle) (format : Format) (held : Held) → IsRectangle box → InLimits box →
        IsRootOver (empty_root box format) held }
    ensures image { (box : Rectangle) (format : Format) (held : Held) →
        root_image (empty_root box format) held ≡ option_map (λ _. blank box format) held.content }
{
    new_tables_ask_nothing();
}

/// States that a call on the chain that respects its other owners leaves a root as it was that it wasn't handed:
/// its image is unchanged, and what it asks of the chain holds again.
pub fn other_roots_are_unchanged()
    ensures image { (root : RootTiles) (old new : Held) (before after : List ℕ) →
        Respects old new before after → Owns old (before ++ root_names root) → root_image root new ≡ root_image root old }
    ensures over { (root : RootTiles) (old new : Held) (before after : List ℕ) →
        Respects old new before after → Owns old (before ++ root_names root) → IsRootOver root old → IsRootOver root new }
{}

/// States that reads of a root and of its levels may follow one another, and how many names a chain has at most after
/// them: however many they are, at most as many more as the levels of the box have tiles. A refusal after such calls
/// is excused as if there had been none.
pub fn more_root_tiles_are_held()
    ensures read { (z : ℕ) (root : RootTiles) (old new : Held) (first last : Counts) →
        IsRootOver root old → new ≡ old → Grows 0 first last →
        HoldsMoreTiles z (root_state root old first) (root_state root new last) }
    ensures both { (z : ℕ) (a b c : RootState) → HoldsMoreTiles z a b → HoldsMoreTiles z b c → HoldsMoreTiles z a c }
    ensures higher { (z top : ℕ) (a b : RootState) → z ≤ top → HoldsMoreTiles z a b → HoldsMoreTiles top a b }
    ensures names { (z : ℕ) (a b : RootState) → HoldsMoreTiles z a b →
        b.counts.names ≤ a.counts.names + level_tiles a.root.box z }
    ensures cause { (z : ℕ) (a b c : RootState) → HoldsMoreTiles z a b → (top : ℕ) → z ≤ top → (refused : SwapRefused) →
        HasSwapCause b.counts c.counts (names_with_root_levels top b) refused →
        HasSwapCause a.counts c.counts (names_with_root_levels top a) refused }
{}
