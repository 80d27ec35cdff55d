//! Laws of the owners of names. By them a caller sees that what it didn't hand to a call is unchanged.

ghost use Rattle.std.specs.Prelude.{◌≡◌, ℕ, ◌+◌, ◌<◌, ◌≤◌, List, ◌∷◌, ◌++◌};
ghost use Rattle.chain_owners.specs.Held.{Held, disowned, owned, owners_of, with_name, with_tile};
ghost use Rattle.chain_owners.specs.Owners.{IsFramed, Owns, Respects, Unchanged, times};

/// States that two lists together hold a name as often as each of them does.
pub fn times_add_up()
    ensures { (first second : List ℕ) (name : ℕ) → times (first ++ second) name ≡ times first name + times second name }
{}

/// States that who owns names owns fewer of them too, in whatever order.
pub fn owners_own_fewer()
    ensures { (held : Held) (names fewer : List ℕ) →
        ((name : ℕ) → times fewer name ≤ times names name) → Owns held names → Owns held fewer }
{}

/// States that what changes nothing respects all other owners.
pub fn no_change_respects()
    ensures { (held : Held) (names : List ℕ) → Respects held held names names }
{}

/// States that two calls respect the other owners where each does, and the second is handed what the first left.
pub fn calls_respect_in_turn()
    ensures { (first second last : Held) (before between after : List ℕ) →
        Respects first second before between → Respects second last between after → Respects first last before after }
{}

/// States that a call respects the other owners of more names too, where the values that it was handed hold them
/// before and after it.
pub fn calls_respect_beside()
    ensures left { (old new : Held) (before after beside : List ℕ) →
        Respects old new before after → Respects old new (beside ++ before) (beside ++ after) }
    ensures right { (old new : Held) (before after beside : List ℕ) →
        Respects old new before after → Respects old new (before ++ beside) (after ++ beside) }
{}

/// States that names count as often as they are held, in whatever order.
pub fn calls_respect_in_any_order()
    ensures { (old new : Held) (before after before' after' : List ℕ) →
        ((name : ℕ) → times before' name ≡ times before name) →
        ((name : ℕ) → times after' name ≡ times after name) →
        Respects old new before after → Respects old new before' after' }
{}

/// States that a name that a value holds which a call wasn't handed keeps its bytes.
pub fn others_keep_bytes()
    ensures { (old new : Held) (before after others : List ℕ) →
        Respects old new before after → Owns old (before ++ others) →
        (name : ℕ) → 0 < times others name → Unchanged old new name }
{}

/// States that a value that a call wasn't handed owns its names as before, beside those that were.
pub fn others_still_own()
    ensures { (old new : Held) (before after others : List ℕ) →
        Respects old new before after → Owns old (before ++ others) → Owns new (after ++ others) }
{}

/// States that what is seen of a value that a call wasn't handed is unchanged.
pub fn others_are_unchanged<X>()
    ensures { (old new : Held) (before after others : List ℕ) (seen : Held → X) →
        IsFramed others seen → Respects old new before after → Owns old (before ++ others) → seen new ≡ seen old }
{}

/// States that a value that owns a name once more, where it holds it already or nobody does, respects all others.
pub fn owning_respects()
    ensures held { (held : Held) (names : List ℕ) (name : ℕ) →
        0 < times names name → Respects held (owned held name) names (name ∷ names) }
    ensures free { (held : Held) (names : List ℕ) (name : ℕ) →
        owners_of held name ≡ 0 → Respects held (owned held name) names (name ∷ names) }
{}

/// States that a name that has one owner, which a call wasn't handed, has this one alone after the call too.
pub fn only_owners_stay_alone()
    ensures { (old new : Held) (before after others : List ℕ) (name : ℕ) →
        Respects old new before after → Owns old (before ++ others) →
        0 < times others name → owners_of old name ≡ 1 → owners_of new name ≡ 1 }
{}

/// States that a value that owns names and gives one of them up respects all others, also where the name goes.
pub fn disowning_respects()
    ensures { (held : Held) (names : List ℕ) (name : ℕ) →
        Owns held (name ∷ names) → Respects held (disowned held name) (name ∷ names) names }
{}

/// States that a value that becomes the owner of a new name respects all others.
pub fn new_names_respect()
    ensures { (held : Held) (names : List ℕ) (name : ℕ) (bytes : List ℕ) →
        owners_of held name ≡ 0 → Respects held (with_name held name bytes) names (name ∷ names) }
{}

/// States that the only owner of a name respects all others when it replaces its bytes.
pub fn rewriting_respects()
    ensures { (held : Held) (names : List ℕ) (name : ℕ) (bytes : List ℕ) →
        owners_of held name ≡ 1 → 0 < times names name → Respects held (with_tile held name bytes) names names }
{}
