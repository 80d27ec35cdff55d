//! Where the tiles of nodes that were evaluated are kept.

ghost use Rattle.std.specs.Prelude.{◌≡◌, ◌+◌, ◌≤◌, ℕ, List, Option, None, MatchResult, IfErr, IfOk, IfSome, is_some, length};
ghost use Rattle.std.specs.Option.{option_map};
ghost use Rattle.chain_owners.specs.Owners.{IsFramed, Owns, Respects};
ghost use Rattle.chain_owners.specs.{Counts.Grows, Held.Held};
ghost use Rattle.model_states.specs.Cache.{Cached, HasDistinctPairs, Pair, after_keep, after_look, by_pair, find_pair, itself, voided};
ghost use Rattle.chain_owners.specs.Cause.{HasSwapCause};
ghost use Rattle.node_cache.specs.Stores.{AddsOnlyOwn, AreExposed, AreWithin, Finds, IsFramedCondition, KeepsOneOwner, Sized, by_sized, cached_at, pair_at, pairs_at, sized_at};

use alloc_basics::NoMemory;
use chain_owners::{ChainMeaning, SwapRefused};
use plane_rect::{Name, Rect, TileAt};
use tile_cow::Tile;

/// Keeps tiles of nodes under pairs of a node's name and a tile. It may hold names of the chain that its
/// calls are lent. A clause sees it as the list of its pairs, the most recent first, and over a chain as
/// the same list with the lengths of the tiles, and with their bytes where these are known.
pub trait PairStore<H: ChainMeaning> {
    /// The pairs, the most recent first.
    ghost pairs: { Self → List Pair };

    /// The pairs with the lengths of their tiles, over what a chain holds.
    ghost sizes: { Self → Held → List Sized };

    /// The pairs with the bytes of their tiles, over what a chain holds, where they are known.
    ghost cached: { Self → Held → Option (List Cached) };

    /// How many pairs a keep leaves at most; None where none falls off.
    ghost capacity: { Self → Option ℕ };

    /// The names of the chain that it holds, each as often as it holds it.
    ghost names: { Self → List ℕ };

    /// What it asks of the chain: that it owns the names, and whatever else its kind asks of itself and of
    /// their lengths.
    ghost is_over: { Self → Held → Type 0 };

    /// Returns the tile of a pair, which has `len` bytes where the pair is there, and moves the pair to the
    /// front; None where it isn't there. Takes constant time beside the chain's.
    ///
    /// # Errors
    ///
    /// `SwapFault` only where the swap's count of I/O errors rose in this call, `SwapFull` only where
    /// the chain's names can fill the swap, and `NoMemory` if memory runs out. The list is then unchanged.
    fn look(
        &mut self,
        chain: &mut H,
        node: Name,
        at: TileAt,
        len: u32,
    ) -> Result<Option<Tile>, SwapRefused>
        requires over { is_over self.old (H.held chain.old) }
        requires length { IfSome (find_pair by_sized (sizes self.old (H.held chain.old)) (pair_at node at))
            (λ sized. sized.length ≡ len) }
        ensures found { IfOk result
            (Finds (pairs self.old) (cached self.old (H.held chain.old)) (pair_at node at) len) }
        ensures pairs { MatchResult result (λ _. pairs self.new ≡ after_look itself (pairs self.old) (pair_at node at))
            (λ _. pairs self.new ≡ pairs self.old) }
        ensures sizes { MatchResult result
            (λ _. sizes self.new (H.held chain.new) ≡ after_look by_sized (sizes self.old (H.held chain.old)) (pair_at node at))
            (λ _. sizes self.new (H.held chain.new) ≡ sizes self.old (H.held chain.old)) }
        ensures cached { MatchResult result
            (λ _. cached self.new (H.held chain.new)
            ≡ option_map (λ list. after_look by_pair list (pair_at node at)) (cached self.old (H.held chain.old)))
            (λ _. cached self.new (H.held chain.new) ≡ cached self.old (H.held chain.old)) }
        ensures capacity { capacity self.new ≡ capacity self.old }
        ensures cause { IfErr result (HasSwapCause (H.counts chain.old) (H.counts chain.new) (H.counts chain.old).names) }
        ensures over { is_over self.new (H.held chain.new) }
        ensures others { Respects (H.held chain.old) (H.held chain.new) (names self.old) (names self.new) }
        ensures one_owner { KeepsOneOwner (H.held chain.old) (H.held chain.new) (names self.old) (names self.new) }
        ensures other_names { AddsOnlyOwn (H.held chain.old) (H.counts chain.old) (H.counts chain.new) (names self.old) (names self.new) }
        ensures counts { Grows 0 (H.counts chain.old) (H.counts chain.new) }
        ensures loans { H.loans chain.new ≡ H.loans chain.old }
        ensures valid { H.is_valid chain.old → H.is_valid chain.new };

    /// Puts a pair that isn't there, with its tile, at the front; past the capacity the last pair falls
    /// off. There is at most one name more, also on the way. Takes constant time beside the chain's.
    ///
    /// # Errors
    ///
    /// `SwapFault` only where the swap's count of I/O errors rose in this call, `SwapFull` only where
    /// the chain's names and one more can fill the swap, and `NoMemory` if memory runs out. The list is
    /// then unchanged.
    fn keep(&mut self, chain: &mut H, node: Name, at: TileAt, tile: Tile) -> Result<(), SwapRefused>
        requires over { is_over self.old (H.held chain.old) }
        requires absent { find_pair itself (pairs self.old) (pair_at node at) ≡ None }
        ensures pairs { MatchResult result
            (λ _. pairs self.new ≡ after_keep (capacity self.old) (pairs self.old) (pair_at node at))
            (λ _. pairs self.new ≡ pairs self.old) }
        ensures sizes { MatchResult result
            (λ _. sizes self.new (H.held chain.new)
            ≡ after_keep (capacity self.old) (sizes self.old (H.held chain.old)) (sized_at node at (length tile)))
            (λ _. sizes self.new (H.held chain.new) ≡ sizes self.old (H.held chain.old)) }
        ensures cached { MatchResult result
            (λ _. cached self.new (H.held chain.new) ≡ option_map
            (λ list. after_keep (capacity self.old) list (cached_at node at tile)) (cached self.old (H.held chain.old)))
            (λ _. cached self.new (H.held chain.new) ≡ cached self.old (H.held chain.old)) }
        ensures capacity { capacity self.new ≡ capacity self.old }
        ensures cause { IfErr result (HasSwapCause (H.counts chain.old) (H.counts chain.new)
            ((H.counts chain.old).names + 1)) }
        ensures over { is_over self.new (H.held chain.new) }
        ensures others { Respects (H.held chain.old) (H.held chain.new) (names self.old) (names self.new) }
        ensures one_owner { KeepsOneOwner (H.held chain.old) (H.held chain.new) (names self.old) (names self.new) }
        ensures other_names { AddsOnlyOwn (H.held chain.old) (H.counts chain.old) (H.counts chain.new) (names self.old) (names self.new) }
        ensures counts { Grows 1 (H.counts chain.old) (H.counts chain.new) }
        ensures loans { H.loans chain.new ≡ H.loans chain.old }
        ensures valid { H.is_valid chain.old → H.is_valid chain.new };

    /// Takes the pairs of a node out whose tiles meet a rectangle; the others keep their order. Takes no
    /// memory, and time in proportion to the tiles of the rectangle or to the list's pairs, whichever
    /// are fewer.
    fn void(&mut self, chain: &mut H, node: Name, rect: Rect)
        requires { is_over self.old (H.held chain.old) }
        ensures pairs { pairs self.new ≡ voided itself (pairs self.old) node rect }
        ensures sizes { sizes self.new (H.held chain.new) ≡ voided by_sized (sizes self.old (H.held chain.old)) node rect }
        ensures cached { cached self.new (H.held chain.new)
            ≡ option_map (λ list. voided by_pair list node rect) (cached self.old (H.held chain.old)) }
        ensures capacity { capacity self.new ≡ capacity self.old }
        ensures over { is_over self.new (H.held chain.new) }
        ensures others { Respects (H.held chain.old) (H.held chain.new) (names self.old) (names self.new) }
        ensures one_owner { KeepsOneOwner (H.held chain.old) (H.held chain.new) (names self.old) (names self.new) }
        ensures other_names { AddsOnlyOwn (H.held chain.old) (H.counts chain.old) (H.counts chain.new) (names self.old) (names self.new) }
        ensures counts { Grows 0 (H.counts chain.old) (H.counts chain.new) }
        ensures loans { H.loans chain.new ≡ H.loans chain.old }
        ensures valid { H.is_valid chain.old → H.is_valid chain.new };

    /// Returns whether a pair is there, and leaves the list as it is. Takes constant time and no memory.
    fn has(&self, node: Name, at: TileAt) -> bool
        ensures { result ≡ is_some (find_pair itself (pairs self.now) (pair_at node at)) };

    /// Returns the pairs, the most recent first. Takes time in proportion to their number.
    fn order(&self) -> Result<Vec<(Name, TileAt)>, NoMemory>
        ensures { IfOk result (λ order. pairs_at order.items ≡ pairs self.now) };

    /// Returns how many pairs a keep leaves at most; None where none falls off.
    fn bound(&self) -> Option<u32>
        ensures { result ≡ capacity self.now };

    /// The list with its bytes depends on nothing of the chain but the bytes of the names that the store
    /// holds.
    ghost framed: { (store : Self) → IsFramed (names store) (cached store) };

    /// So does the list with its lengths.
    ghost framed_sizes: { (store : Self) → IsFramed (names store) (sizes store) };

    /// The same of what it asks of the chain, beside that it owns these names.
    ghost framed_condition: { (store : Self) → IsFramedCondition (names store) (is_over store) };

    /// It owns the names that it holds.
    ghost owned: { (store : Self) (held : Held) → is_over store held → Owns held (names store) };

    /// The lengths and the bytes are those of the pairs, and the bytes are known where the chain exposes
    /// its bytes.
    ghost exposed: { (store : Self) (held : Held) → is_over store held →
        AreExposed (pairs store) (sizes store held) held (cached store held) };

    /// No pair is there twice.
    ghost distinct: { (store : Self) (held : Held) → is_over store held → HasDistinctPairs itself (pairs store) };

    /// There are no more pairs than the capacity.
    ghost within: { (store : Self) (held : Held) → is_over store held → AreWithin (capacity store) (pairs store) };

    /// It holds at most one name for each pair.
    ghost few_names: { (store : Self) → length (names store) ≤ length (pairs store) };
}
