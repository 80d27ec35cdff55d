//! Laws of what a chain holds, after a name came, went, or changed its number of owners.

ghost use Rattle.std.specs.Prelude.{◌≡◌, ◌≢◌, ℕ, ◌+◌, ◌-◌, ◌<◌, ◌≤◌, List};
ghost use Rattle.std.specs.FinMap as map;
ghost use Rattle.chain_owners.specs.Held.{HasLengths, Held, disowned, max_owners, nothing_held, owned, owners_of, with_name, with_owners, with_tile, without_name, without_tile};
ghost use Rattle.chain_owners.specs.Owners.{Unchanged};

/// States that owners are counted one by one, and that the largest number stays.
pub fn owners_count_up()
    ensures more { (held : Held) (name : ℕ) →
        owners_of held name ≢ max_owners → owned held name ≡ with_owners held name (owners_of held name + 1) }
    ensures stopped { (held : Held) (name : ℕ) → owners_of held name ≡ max_owners → owned held name ≡ held }
{}

/// States that a name goes with its last owner; the largest number stays.
pub fn owners_count_down()
    ensures fewer { (held : Held) (name : ℕ) →
        owners_of held name ≢ max_owners → 1 < owners_of held name →
        disowned held name ≡ with_owners held name (owners_of held name - 1) }
    ensures last { (held : Held) (name : ℕ) →
        owners_of held name ≤ 1 → disowned held name ≡ without_name held name }
    ensures stopped { (held : Held) (name : ℕ) → owners_of held name ≡ max_owners → disowned held name ≡ held }
{}

/// States that other names are unchanged where a name comes, goes or changes its number of owners.
pub fn other_names_are_unchanged()
    ensures put { (held : Held) (name other : ℕ) (bytes : List ℕ) →
        other ≢ name → Unchanged held (with_tile held name bytes) other }
    ensures removed { (held : Held) (name other : ℕ) →
        other ≢ name → Unchanged held (without_tile held name) other }
    ensures owned { (held : Held) (name other : ℕ) → Unchanged held (owned held name) other }
    ensures disowned { (held : Held) (name other : ℕ) →
        other ≢ name → Unchanged held (disowned held name) other }
{}

/// States that the lengths of names stay those of their bytes.
pub fn lengths_stay_exact()
    ensures none { HasLengths nothing_held }
    ensures put { (held : Held) (name : ℕ) (bytes : List ℕ) → HasLengths held → HasLengths (with_tile held name bytes) }
    ensures removed { (held : Held) (name : ℕ) → HasLengths held → HasLengths (without_tile held name) }
    ensures owned { (held : Held) (name : ℕ) → HasLengths held → HasLengths (owned held name) }
    ensures disowned { (held : Held) (name : ℕ) → HasLengths held → HasLengths (disowned held name) }
{}

/// States that a name more is one name more at most, and one fewer is none more.
pub fn names_are_counted()
    ensures put { (held : Held) (name : ℕ) (bytes : List ℕ) →
        map.len (with_tile held name bytes).lengths ≤ map.len held.lengths + 1 }
    ensures removed { (held : Held) (name : ℕ) →
        map.len (without_tile held name).lengths ≤ map.len held.lengths }
    ensures owned { (held : Held) (name : ℕ) → map.len (owned held name).lengths ≡ map.len held.lengths }
    ensures disowned { (held : Held) (name : ℕ) → map.len (disowned held name).lengths ≤ map.len held.lengths }
{}
