//! Laws by which callers speak of tables that they didn't hand to a call.

ghost use Rattle.std.specs.Prelude.{◌≡◌, ℕ, ◌+◌, ◌<◌, ◌≤◌, ◌++◌, List, [], Option, is_some};
ghost use Rattle.std.specs.Map.{values_of};
ghost use Rattle.plane_rect.specs.Tile.{Tile};
ghost use Rattle.pixel_formats.specs.declared.format.Format.{Format};
ghost use Rattle.chain_owners.specs.Owners.{IsFramed, Owns, Respects, Unchanged, times};
ghost use Rattle.chain_owners.specs.Held.{Held};
ghost use Rattle.level_tables.specs.LevelTiles.{LevelTiles, hull_of, image_of, image_with, names};
ghost use Rattle.level_tables.specs.NewTiles.{AreNewTiles, tiles_in};
ghost use Rattle.level_tables.specs.Steps.{HoldsMore, State, level_count, names_with_levels};
ghost use Rattle.level_tables.specs.Over.{IsOver};
ghost use Rattle.model_images.specs.TileCounts.{level_tiles};

/// States that a table of no tile asks nothing of a chain.
pub fn new_tables_ask_nothing()
    ensures { (format : Format) (held : Held) → IsOver (record { format = format; put = []; levels = [] }) held }
{}

/// States that a table's image depends on nothing of the chain but the bytes of the names that it holds, and
/// that what it asks of the chain depends on nothing else but that it owns them.
pub fn tables_are_framed()
    ensures image { (tiles : LevelTiles) → IsFramed (names tiles) (image_of tiles) }
    ensures over { (tiles : LevelTiles) (old new : Held) → IsOver tiles old → is_some new.content ≡ is_some old.content →
        ((name : ℕ) → 0 < times (names tiles) name → Unchanged old new name) → Owns new (names tiles) → IsOver tiles new }
    ensures owned { (tiles : LevelTiles) (held : Held) → IsOver tiles held → Owns held (names tiles) }
{}

/// States that a call on the chain that respects its other owners leaves a table as it was that it wasn't
/// handed: its image is unchanged, also after tiles are put into it, and what it asks of the chain holds again.
pub fn other_tables_are_unchanged()
    ensures image { (tiles : LevelTiles) (old new : Held) (before after : List ℕ) →
        Respects old new before after → Owns old (before ++ names tiles) → image_of tiles new ≡ image_of tiles old }
    ensures image_with { (tiles : LevelTiles) (entries : List (Tile × Option (List ℕ))) (old new : Held) (before after : List ℕ) →
        Respects old new before after → Owns old (before ++ names tiles) →
        image_with tiles new entries ≡ image_with tiles old entries }
    ensures over { (tiles : LevelTiles) (old new : Held) (before after : List ℕ) →
        Respects old new before after → Owns old (before ++ names tiles) → IsOver tiles old → IsOver tiles new }
{}

/// States that a list of no new tile asks nothing of a chain.
pub fn no_new_tiles_ask_nothing()
    ensures { (format : Format) (held : Held) → AreNewTiles format [] held }
{}

/// States that a call on the chain that respects its other owners leaves new tiles as they were that it
/// wasn't handed: their bytes are unchanged, and what they ask of the chain holds again.
pub fn other_new_tiles_are_unchanged()
    ensures tiles { (entries : List (Tile × ℕ)) (old new : Held) (before after : List ℕ) →
        Respects old new before after → Owns old (before ++ values_of entries) → tiles_in new entries ≡ tiles_in old entries }
    ensures over { (format : Format) (entries : List (Tile × ℕ)) (old new : Held) (before after : List ℕ) →
        Respects old new before after → Owns old (before ++ values_of entries) →
        AreNewTiles format entries old → AreNewTiles format entries new }
{}

/// States that calls that hold more tiles of levels may follow one another, and how many names a chain has at most
/// after them.
pub fn more_tiles_are_held()
    ensures none { (z : ℕ) (now : State) → IsOver now.tiles now.held → HoldsMore z now now }
    ensures both { (z : ℕ) (a b c : State) → HoldsMore z a b → HoldsMore z b c → HoldsMore z a c }
    ensures higher { (z top : ℕ) (a b : State) → z ≤ top → HoldsMore z a b → HoldsMore top a b }
    ensures names { (z : ℕ) (a b : State) → HoldsMore z a b → b.counts.names ≤ names_with_levels z a }
{}

/// States that a table holds at most as many tiles of levels as those of its image have, so a chain has at most so
/// many names more once it holds all of them.
pub fn few_levels_are_held()
    ensures held { (z : ℕ) (tiles : LevelTiles) (held : Held) → IsOver tiles held →
        level_count z tiles.levels ≤ level_tiles (hull_of tiles) z }
    ensures names { (z : ℕ) (now : State) →
        names_with_levels z now ≤ now.counts.names + level_tiles (hull_of now.tiles) z }
{}
