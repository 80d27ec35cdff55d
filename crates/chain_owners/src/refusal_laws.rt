//! Laws of refusals by the swap, over more names and over more calls.

ghost use Rattle.std.specs.Prelude.{ℕ, ◌≤◌};
ghost use Rattle.chain_owners.specs.Counts.{Counts, Grows};
ghost use Rattle.chain_owners.specs.Cause.{HasSwapCause};
ghost use Rattle.chain_owners.specs.declared.swap_refused.SwapRefused.{SwapRefused};

/// States that what excuses a refusal with so many names excuses it with more, and also where other calls were
/// made before or after the one that was refused.
pub fn causes_add_up()
    ensures more { (old new : Counts) (names more : ℕ) (refused : SwapRefused) →
        names ≤ more → HasSwapCause old new names refused → HasSwapCause old new more refused }
    ensures before { (first second last : Counts) (added names : ℕ) (refused : SwapRefused) →
        Grows added first second → HasSwapCause second last names refused → HasSwapCause first last names refused }
    ensures after { (first second last : Counts) (added names : ℕ) (refused : SwapRefused) →
        HasSwapCause first second names refused → Grows added second last → HasSwapCause first last names refused }
{}
