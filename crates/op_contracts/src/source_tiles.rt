//! Where the tiles of buffers come from.

ghost use Rattle.std.specs.Prelude.{◌≡◌, ℕ, [], List, Option, IfErr, IfOk, IsSome};
ghost use Rattle.chain_owners.specs.Owners.{IsFramed, Owns, Respects};
ghost use Rattle.chain_owners.specs.{Counts.Grows, Held.Held};
ghost use Rattle.model_graphs.specs.Facts.{Facts, fact_of};
ghost use Rattle.model_graphs.specs.Evaluation.{Buffers};
ghost use Rattle.chain_owners.specs.Cause.{HasSwapCause};
ghost use Rattle.op_contracts.specs.Sources.{AreExposed, HasBufferLength, IsFramedCondition, IsTileOf};

use chain_owners::{ChainMeaning, SwapRefused};
use plane_rect::{Name, TileAt};
use tile_cow::Tile;

/// Gives the tiles of buffers. It may hold names of the chain that its calls are lent, each some number
/// of times. What it is seen as, its buffers with their images, depends on nothing of the chain but the
/// bytes of these names.
pub trait SourceTiles<H: ChainMeaning> {
    /// What is known of the buffers without their samples: names, roots, boxes and formats.
    ghost facts: { Self → Facts };

    /// The images of the buffers over what a chain holds, where they are known.
    ghost images: { Self → Held → Option Buffers };

    /// The names of the chain that it holds, each as often as it holds it.
    ghost names: { Self → List ℕ };

    /// What it asks of the chain: that it owns the names, and whatever else its kind asks of their
    /// lengths and bytes.
    ghost is_over: { Self → Held → Type 0 };

    /// Returns the 64 by 64 pixels of a tile of a buffer, zero outside the buffer's box. Whatever it
    /// answers, the buffers and their images are unchanged, each name that has an owner keeps its bytes,
    /// also the source's own, no name has other owners than before, and the chain has no name more.
    ///
    /// # Errors
    ///
    /// `SwapFault` only where the swap's count of I/O errors rose in this call, `SwapFull` only where
    /// the chain's names can fill the swap, and `NoMemory` if memory runs out.
    fn tile(&mut self, chain: &mut H, buffer: Name, at: TileAt) -> Result<Tile, SwapRefused>
        requires over { is_over self.old (H.held chain.old) }
        requires known { IsSome (fact_of (facts self.old) buffer) }
        ensures bytes { IfOk result (IsTileOf (images self.old (H.held chain.old)) buffer at) }
        ensures length { IfOk result (HasBufferLength (facts self.old) buffer) }
        ensures cause { IfErr result (HasSwapCause (H.counts chain.old) (H.counts chain.new) (H.counts chain.old).names) }
        ensures facts { facts self.new ≡ facts self.old }
        ensures images { images self.new (H.held chain.new) ≡ images self.old (H.held chain.old) }
        ensures over { is_over self.new (H.held chain.new) }
        ensures others { Respects (H.held chain.old) (H.held chain.new) [] [] }
        ensures names { names self.new ≡ names self.old }
        ensures owners { (H.held chain.new).owners ≡ (H.held chain.old).owners }
        ensures counts { Grows 0 (H.counts chain.old) (H.counts chain.new) }
        ensures valid { H.is_valid chain.old → H.is_valid chain.new }
        ensures loans { H.loans chain.new ≡ H.loans chain.old };

    /// What it is seen as depends on nothing of the chain but the bytes of the names that it holds.
    ghost framed: { (sources : Self) → IsFramed (names sources) (images sources) };

    /// The same of what it asks of the chain, beside that it owns these names.
    ghost framed_condition: { (sources : Self) → IsFramedCondition (names sources) (is_over sources) };

    /// It owns the names that it holds.
    ghost owned: { (sources : Self) (held : Held) → is_over sources held → Owns held (names sources) };

    /// The images are those of its buffers, and they are known where the chain exposes its bytes.
    ghost exposed: { (sources : Self) (held : Held) → is_over sources held →
        AreExposed (facts sources) held (images sources held) };
}
