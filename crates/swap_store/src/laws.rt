//! Laws of stores with few names.

ghost use Rattle.std.specs.Prelude.{◌+◌, ◌*◌, ◌≤◌};
ghost use Rattle.std.specs.FinMap as map;
ghost use Rattle.swap_store.specs.Placement.{IsPlacement, Placement};
ghost use Rattle.swap_store.specs.Run.{IsRunList, longest};

/// States that where there are k names and at least 32·(k + 1) blocks are used, 16 blocks beside one another are
/// free, which is room for every tile.
pub fn few_names_leave_room()
    ensures { (placement : Placement) → IsPlacement placement →
        32 * (map.len placement.extents + 1) ≤ placement.used → 16 ≤ longest placement.free }
{}

/// States that the free runs of a store are a list of runs within the blocks that it uses.
pub fn free_runs_are_used()
    ensures { (placement : Placement) → IsPlacement placement → IsRunList 0 placement.used placement.free }
{}
