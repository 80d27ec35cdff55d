//! Laws by which callers speak of stores of cached tiles.

ghost use Rattle.std.specs.Prelude.{◌≡◌, ℕ, ◌++◌, List};
ghost use Rattle.chain_owners.specs.Owners.{Owns, Respects};
ghost use Rattle.chain_owners.specs.Held.{Held};

use crate::pair_store::PairStore;
use chain_owners::ChainMeaning;

/// States that a call on a chain that respects its other owners leaves a store of cached tiles as it was,
/// if it wasn't handed to the call: its list is unchanged, with lengths and with bytes, and so is what it
/// may ask of the chain.
pub fn stores_are_unchanged<H: ChainMeaning, S: PairStore<H>>()
    ensures sizes { (store : S) (old new : Held) (before after : List ℕ) →
        Respects old new before after → Owns old (before ++ S.names store) →
        S.sizes store new ≡ S.sizes store old }
    ensures cached { (store : S) (old new : Held) (before after : List ℕ) →
        Respects old new before after → Owns old (before ++ S.names store) →
        S.cached store new ≡ S.cached store old }
    ensures over { (store : S) (old new : Held) (before after : List ℕ) →
        Respects old new before after → Owns old (before ++ S.names store) →
        S.is_over store old → S.is_over store new }
{}
