//! The tiles of buffers whose images are frozen.

ghost use Rattle.std.specs.Prelude.{◌≡◌, [], ⊤, IfErr, IfOk, IsSome, List, Some, option_map, refl};
ghost use Rattle.std.specs.List.{find};
ghost use Rattle.std.specs.Str.{bytes_eq};
ghost use Rattle.chain_owners.specs.{Counts.Grows, Owners.Respects};
ghost use Rattle.model_graphs.specs.Facts.{fact_of};
ghost use Rattle.chain_owners.specs.Cause.{HasSwapCause};
ghost use Rattle.op_contracts.specs.Sources.{HasBufferLength, IsTileOf};
ghost use Rattle.frozen_images.specs.Scenes.{NamedTiles, SuitsFact, facts_in, frozen-exposed, images_in, owns-none};

use crate::frozen::Frozen;
use chain_owners::{ChainMeaning, SwapRefused};
use model_graphs::BufferFact;
use op_contracts::SourceTiles;
use plane_rect::{Name, TileAt};
use std::marker::Model;
use tile_cow::Tile;

/// A buffer with its frozen image. A clause sees what is known of the buffer, and the image by its tiles.
#[derive(Drop)]
pub struct FrozenBuffer {
    fact: BufferFact,
    image: Frozen,
}

impl Model for FrozenBuffer {
    ghost use Rattle.frozen_images.specs.Scenes.{NamedTiles, SuitsFact};

    ghost Value = { NamedTiles };

    ghost view = { λ buffer. record { fact = buffer.fact; image = buffer.image } };

    ghost invariant = { λ buffer. SuitsFact (record { fact = buffer.fact; image = buffer.image }) };
}

impl FrozenBuffer {
    /// Returns the buffer with this image, which has its box and format.
    pub fn new(fact: BufferFact, image: Frozen) -> FrozenBuffer
        requires bounds { image.box ≡ fact.bounds }
        requires format { image.format ≡ fact.format }
        ensures fact { result.fact ≡ fact }
        ensures image { result.image ≡ image }
    {
        FrozenBuffer { fact, image }
    }

    /// Returns what is known of the buffer.
    pub fn fact(&self) -> &BufferFact
        ensures value { result.now ≡ self.now.fact }
        ensures suits { SuitsFact self.now }
    {
        &self.fact
    }

    /// Returns the image.
    pub fn image(&self) -> &Frozen
        ensures { result.now ≡ self.now.image }
    {
        &self.image
    }
}

/// Gives the tiles of frozen buffers, over whatever chain, of which it holds no name. Each tile is a share
/// of one that is held.
#[derive(Clone, Copy)]
pub struct SceneTiles<'a> {
    buffers: &'a [FrozenBuffer],
}

impl<'a> SceneTiles<'a> {
    /// Returns the source of these buffers.
    pub fn new(buffers: &'a [FrozenBuffer]) -> SceneTiles<'a>
        ensures { result.buffers.now ≡ buffers.now }
    {
        SceneTiles { buffers }
    }
}

impl<H: ChainMeaning> SourceTiles<H> for SceneTiles<'_> {
    ghost facts = { λ sources. facts_in sources.buffers.now };

    ghost images = { λ sources _. Some (images_in sources.buffers.now) };

    ghost names = { λ _. [] };

    ghost is_over = { λ _ _. ⊤ };

    fn tile(&mut self, chain: &mut H, buffer: Name, at: TileAt) -> Result<Tile, SwapRefused>
        requires known { IsSome (fact_of (facts_in self.old.buffers.now) buffer) }
        ensures bytes { IfOk result (IsTileOf (Some (images_in self.old.buffers.now)) buffer at) }
        ensures length { IfOk result (HasBufferLength (facts_in self.old.buffers.now) buffer) }
        ensures cause { IfErr result (HasSwapCause (H.counts chain.old) (H.counts chain.new) (H.counts chain.old).names) }
        ensures unchanged { self.new ≡ self.old }
        ensures others { Respects (H.held chain.old) (H.held chain.new) [] [] }
        ensures owners { (H.held chain.new).owners ≡ (H.held chain.old).owners }
        ensures counts { Grows 0 (H.counts chain.old) (H.counts chain.new) }
        ensures valid { H.is_valid chain.old → H.is_valid chain.new }
        ensures loans { H.loans chain.new ≡ H.loans chain.old }
    {
        let found = buffer_of(self.buffers, buffer).unwrap();
        // Says that the image has the buffer's box and format.
        let _fact = found.fact();
        Ok(found.image().tile(at)?)
    }

    ghost framed = { λ sources old new exposed unchanged. refl };

    ghost framed_condition = { λ sources old new over exposed unchanged owns. over };

    ghost owned = { λ sources held over. owns-none held };

    ghost exposed = { λ sources held over. frozen-exposed sources.buffers.now held };
}

/// Returns the buffer of a name, where there is one. Its cost is proportional to the number of buffers.
fn buffer_of(buffers: &[FrozenBuffer], name: Name) -> Option<&FrozenBuffer>
    ensures { option_map (λ buffer. buffer.now) result
        ≡ find (λ (buffer : NamedTiles). bytes_eq name buffer.fact.name) buffers.now }
{
    buffers.iter().find(|buffer| {
        let fact = buffer.fact();
        name == fact.name
    })
}
