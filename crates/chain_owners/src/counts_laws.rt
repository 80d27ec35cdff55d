//! Laws of counts, by which the causes of several calls are those of one.

ghost use Rattle.std.specs.Prelude.{ℕ, ◌+◌, ◌≤◌, Option};
ghost use Rattle.chain_owners.specs.Counts.{Counts, Grows, IsFullOver};

/// States that calls that add names add their sum.
pub fn growths_add_up()
    ensures none { (counts : Counts) → Grows 0 counts counts }
    ensures both { (first second last : Counts) (added more : ℕ) →
        Grows added first second → Grows more second last → Grows (added + more) first last }
    ensures weaker { (old new : Counts) (added more : ℕ) → added ≤ more → Grows added old new → Grows more old new }
{}

/// States that where so many names may fill a store, more of them may.
pub fn more_names_fill()
    ensures { (used : Option ℕ) (capacity names more needed longest : ℕ) →
        names ≤ more → IsFullOver used capacity names needed longest → IsFullOver used capacity more needed longest }
{}
