//! A source of tiles.

ghost use Rattle.std.specs.Prelude.{◌≡◌, ◌∷◌, [], ⊤, IfErr, IfOk, IsSome, Some, refl};
ghost use Rattle.chain_owners.specs.{Counts.Grows, Owners.Respects};
ghost use Rattle.model_graphs.specs.Facts.{fact_of};
ghost use Rattle.chain_owners.specs.Cause.{HasSwapCause};
ghost use Rattle.op_contracts.specs.Sources.{HasBufferLength, IsTileOf};
ghost use Rattle.test_kit.specs.BlankBuffers.{blank-exposed, blank_images, owns-none};

use chain_owners::{ChainMeaning, SwapRefused};
use model_graphs::BufferFact;
use op_contracts::SourceTiles;
use plane_rect::{Name, TileAt};
use std::alloc::Global;
use tile_cow::Tile;

/// Gives the tiles of one buffer of zeros, over whatever chain, of which it holds no name.
#[derive(Drop)]
pub struct BlankTiles {
    alloc: Global,
    fact: BufferFact,
}

impl BlankTiles {
    /// Returns the source of this buffer.
    pub fn new(alloc: Global, fact: BufferFact) -> BlankTiles
        ensures { result.fact ≡ fact }
    {
        BlankTiles { alloc, fact }
    }
}

impl<H: ChainMeaning> SourceTiles<H> for BlankTiles {
    ghost facts = { λ sources. sources.fact ∷ [] };

    ghost images = { λ sources _. Some (blank_images sources.fact) };

    ghost names = { λ _. [] };

    ghost is_over = { λ _ _. ⊤ };

    fn tile(&mut self, chain: &mut H, buffer: Name, at: TileAt) -> Result<Tile, SwapRefused>
        requires known { IsSome (fact_of (self.old.fact ∷ []) buffer) }
        ensures bytes { IfOk result (IsTileOf (Some (blank_images self.old.fact)) buffer at) }
        ensures length { IfOk result (HasBufferLength (self.old.fact ∷ []) buffer) }
        ensures cause { IfErr result (HasSwapCause (H.counts chain.old) (H.counts chain.new) (H.counts chain.old).names) }
        ensures unchanged { self.new ≡ self.old }
        ensures others { Respects (H.held chain.old) (H.held chain.new) [] [] }
        ensures owners { (H.held chain.new).owners ≡ (H.held chain.old).owners }
        ensures counts { Grows 0 (H.counts chain.old) (H.counts chain.new) }
        ensures valid { H.is_valid chain.old → H.is_valid chain.new }
        ensures loans { H.loans chain.new ≡ H.loans chain.old }
    {
        Ok(Tile::zero(self.alloc, 64 * 64 * self.fact.format.pixel_bytes())?)
    }

    ghost framed = { λ sources old new exposed unchanged. refl };

    ghost framed_condition = { λ sources old new over exposed unchanged owns. over };

    ghost owned = { λ sources held over. owns-none held };

    ghost exposed = { λ sources held over. blank-exposed sources.fact held };
}
