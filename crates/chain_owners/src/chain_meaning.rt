//! What chains of tiles mean.

ghost use Rattle.std.specs.Prelude.{ℕ, List, [], Option, None, ⊤};
ghost use Rattle.std.specs.Borrow.{GName};
ghost use Rattle.chain_owners.specs.Chain.{HasSameNames, IsChain};
ghost use Rattle.chain_owners.specs.Counts.{AreCounts, Counts};
ghost use Rattle.chain_owners.specs.Held.{Held, nothing_held};
ghost use Rattle.chain_owners.specs.UnitChain.{unit_counts, unit_has_same_names, unit_is_chain};
ghost use Rattle.chain_owners.specs.Room.{Room};

/// A map from names to tiles that may stand on a store. It has no calls: what is handed a chain
/// speaks by these meanings of it.
pub trait ChainMeaning {
    /// The names with their lengths, with their bytes where the swap exposes them, and with their
    /// numbers of owners where the chain counts them.
    ghost held: { Self → Held };

    /// How many calls on the swap failed, how many names there are, how many blocks the store uses,
    /// and the largest number of tiles that the cache holds, which is 0 where there is no cache.
    ghost counts: { Self → Counts };

    /// The free runs and the number of used blocks of the store, where there is one.
    ghost store: { Self → Option Room };

    /// How many tiles the cache holds now; 0 where there is no cache.
    ghost resident: { Self → ℕ };

    /// The loans through which the swap is reached, which no call changes. By them whoever lent the
    /// swap learns what it holds when the loan ends.
    ghost loans: { Self → List GName };

    /// Holds of the chain at every moment that a program can reach: its calls say so.
    ghost is_valid: { Self → Type 0 };

    /// Where bytes are exposed, they are those of exactly the chain's names.
    ghost same_names: { (chain : Self) → HasSameNames (held chain) };

    /// The counts are those of what is held, and of the store.
    ghost same_counts: { (chain : Self) → AreCounts (counts chain) (held chain) (store chain) };

    /// Of a chain that a program can reach, the lengths are those of the bytes, the free runs are a
    /// list of runs within the used blocks, and the cache holds at most its capacity.
    ghost chain_laws: { (chain : Self) → is_valid chain →
        IsChain (held chain) (counts chain) (store chain) (resident chain) };
}

/// A chain without names, and without a store.
impl ChainMeaning for () {
    ghost held = { λ _. nothing_held };

    ghost counts = { λ _. record { faults = 0; names = 0; used = None; capacity = 0 } };

    ghost store = { λ _. None };

    ghost resident = { λ _. 0 };

    ghost loans = { λ _. [] };

    ghost is_valid = { λ _. ⊤ };

    ghost same_names = { λ _. unit_has_same_names };

    ghost same_counts = { λ _. unit_counts };

    ghost chain_laws = { λ _ _. unit_is_chain };
}

/// States that the laws hold of each type of chains.
pub fn chains_keep_laws<H: ChainMeaning>()
    ensures names { (chain : H) → HasSameNames (H.held chain) }
    ensures counts { (chain : H) → AreCounts (H.counts chain) (H.held chain) (H.store chain) }
    ensures reachable { (chain : H) → H.is_valid chain →
        IsChain (H.held chain) (H.counts chain) (H.store chain) (H.resident chain) }
{}
