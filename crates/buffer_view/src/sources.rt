//! Buffers as a source of tiles.

ghost use Rattle.std.specs.Prelude.{◌≡◌, IfErr, IfOk, IsSome};
ghost use Rattle.chain_owners.specs.Held.{Held};
ghost use Rattle.model_buffers.specs.Layout.{facts_of};
ghost use Rattle.model_graphs.specs.Facts.{fact_of};
ghost use Rattle.op_contracts.specs.Sources.{HasBufferLength, IsTileOf};
ghost use Rattle.root_tiles.specs.Chains.{IsRead, chain_state};
ghost use Rattle.chain_owners.specs.Cause.{HasSwapCause};
ghost use Rattle.buffer_view.specs.BufferLaws.{buffers_exposed, buffers_framed, buffers_framed_condition};
ghost use Rattle.buffer_view.specs.BufferTables.{AreBuffersOver, buffer_images, buffers_names};
ghost use Rattle.buffer_view.specs.RecentTiles.{AreRecentOver, recent_framed_condition};

use crate::buffers::Buffers;
use crate::recent_tiles::{GivenTile, RecentTiles};
use chain_contracts::TileChain;
use chain_owners::SwapRefused;
use op_contracts::SourceTiles;
use plane_rect::{Name, TileAt};
use tile_cow::Tile;
use view_reads::view_tile;

impl Buffers {
    /// Returns the 64 by 64 pixels of a tile of a buffer, zero outside the buffer's box.
    fn buffer_tile<C: TileChain>(
        &self,
        chain: &mut C,
        buffer: Name,
        at: TileAt,
    ) -> Result<Tile, SwapRefused>
        requires over { AreBuffersOver self.now (C.held chain.old) }
        requires known { IsSome (fact_of (facts_of self.now.layout) buffer) }
        ensures bytes { IfOk result (IsTileOf (buffer_images self.now (C.held chain.old)) buffer at) }
        ensures length { IfOk result (HasBufferLength (facts_of self.now.layout) buffer) }
        ensures cause { IfErr result (HasSwapCause (C.counts chain.old) (C.counts chain.new) (C.counts chain.old).names) }
        ensures read { IsRead
            (chain_state C.ChainMeaning chain.old) (chain_state C.ChainMeaning chain.new) }
    {
        let view = self.layout.view(buffer).unwrap();
        // `first_column` is called for its clause that the extent is a rectangle of the plane.
        let _ = view.extent.first_column();
        view_tile(&self.roots[view.root], chain, view.extent, at)
    }
}

impl<C: TileChain> SourceTiles<C> for Buffers {
    ghost facts = { λ buffers. facts_of buffers.layout };

    ghost images = { λ buffers held. buffer_images buffers held };

    ghost names = { λ buffers. buffers_names buffers };

    ghost is_over = { λ buffers held. AreBuffersOver buffers held };

    fn tile(&mut self, chain: &mut C, buffer: Name, at: TileAt) -> Result<Tile, SwapRefused> {
        self.buffer_tile(chain, buffer, at)
    }

    ghost framed = { λ buffers. buffers_framed buffers };

    ghost framed_condition = { λ buffers. buffers_framed_condition buffers };

    ghost owned = { λ buffers held over. over.owned };

    ghost exposed = { λ buffers held. buffers_exposed buffers held };
}

/// Gives the tiles of buffers that are borrowed, so that who reads them leaves them as they are. It keeps shares of the
/// tiles that it gave last, since the windows of tiles side by side meet the same ones.
#[derive(Drop)]
pub struct BufferTiles<'a> {
    buffers: &'a Buffers,
    recent: RecentTiles,
}

impl<'a> BufferTiles<'a> {
    /// Returns the source of these buffers, which has given no tile. Takes no memory.
    pub fn new(buffers: &'a Buffers) -> BufferTiles<'a>
        ensures buffers { result.buffers.now ≡ buffers.now }
        ensures over { (held : Held) → AreBuffersOver result.buffers.now held → AreRecentOver result.buffers.now result.recent held }
    {
        BufferTiles {
            buffers,
            recent: RecentTiles::new(buffers.alloc),
        }
    }
}

impl<C: TileChain> SourceTiles<C> for BufferTiles<'_> {
    ghost facts = { λ source. facts_of source.buffers.now.layout };

    ghost images = { λ source held. buffer_images source.buffers.now held };

    ghost names = { λ source. buffers_names source.buffers.now };

    ghost is_over = { λ source held. AreRecentOver source.buffers.now source.recent held };

    fn tile(&mut self, chain: &mut C, buffer: Name, at: TileAt) -> Result<Tile, SwapRefused> {
        let buffers = self.buffers;
        if let Some(tile) = self.recent.find(buffer, at) {
            return Ok(tile.share(buffers.alloc)?);
        }
        let tile = buffers.buffer_tile(chain, buffer, at)?;
        let share = tile.share(buffers.alloc)?;
        self.recent.keep(GivenTile {
            buffer,
            at,
            tile: share,
        })?;
        Ok(tile)
    }

    ghost framed = { λ source. buffers_framed source.buffers.now };

    ghost framed_condition = { λ source. recent_framed_condition source.buffers.now source.recent };

    ghost owned = { λ source held over. over.buffers_over.owned };

    ghost exposed = { λ source held over. buffers_exposed source.buffers.now held over.buffers_over };
}
