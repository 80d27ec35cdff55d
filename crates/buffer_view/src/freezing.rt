//! Images of buffers that are held by tiles in memory.

ghost use Rattle.std.specs.Prelude.{◌≡◌, IfErr, IfOk, IfSome, Err, None};
ghost use Rattle.model_buffers.specs.Layout.{buffer_shape, find};
ghost use Rattle.model_buffers.specs.declared.refused.EditRefused.TheVariants.{UnknownBuffer};
ghost use Rattle.model_images.specs.{Raw.tile_bytes, Tiles.AreZeroOutside};
ghost use Rattle.plane_rect.specs.Tile.{IsWhole};
ghost use Rattle.root_tiles.specs.Chains.{IsRead, chain_state};
ghost use Rattle.chain_owners.specs.Cause.{HasSwapCause};
ghost use Rattle.view_reads.specs.Views.{IsViewOver, ReadsViewTile, view_image};
ghost use Rattle.buffer_view.specs.BufferTables.{AreBuffersOver, table_of};
ghost use Rattle.buffer_view.specs.Freezing.{IsFrozenBuffer, IsFrozenImage, IsFrozenOver, with_held};
ghost use Rattle.buffer_view.specs.{Reads.HasReadCause, declared.refused.BufferRefused.TheVariants.Edit};

use crate::buffers::Buffers;
use crate::refused::BufferRefused;
use chain_contracts::TileChain;
use chain_owners::SwapRefused;
use frozen_images::Frozen;
use model_buffers::EditRefused;
use plane_rect::{Name, Rect, TileAt};
use root_tiles::Root;
use tile_cow::Tile;
use view_reads::view_tile;

impl Buffers {
    /// Returns the image of a buffer, held by tiles in memory. It takes memory for each tile that meets the
    /// buffer's extent: those that the extent contains are shared with the chain, and those at its edges are
    /// copied. Where nothing was put, a tile that the extent contains is the chain's tile of zeros. The chain's
    /// names, their bytes and their owners are unchanged, whatever it answers.
    ///
    /// # Errors
    ///
    /// `UnknownBuffer` where no buffer has the name. Else `SwapFault` only where the swap's count of I/O errors
    /// rose in this call, `SwapFull` only where the chain's names can fill the swap, and `NoMemory` if memory
    /// runs out.
    pub fn freeze<C: TileChain>(&self, chain: &mut C, name: Name) -> Result<Frozen, BufferRefused>
        requires { AreBuffersOver self.now (C.held chain.old) }
        ensures shape { IfOk result (IsFrozenOver (buffer_shape self.now.layout name)) }
        ensures image { IfOk result (IsFrozenBuffer (table_of self.now (C.held chain.old)) name) }
        ensures unknown { find self.now.layout.buffers name ≡ None → result ≡ Err (Edit UnknownBuffer) }
        ensures cause { IfErr result (HasReadCause self.now.layout name 0 (C.counts chain.old) (C.counts chain.new)) }
        ensures read { IsRead
            (chain_state C.ChainMeaning chain.old) (chain_state C.ChainMeaning chain.new) }
    {
        let Some(view) = self.layout.view(name) else {
            return Err(BufferRefused::Edit(EditRefused::UnknownBuffer));
        };
        // `first_column` is called for its clause that the extent is a rectangle of the plane.
        let _ = view.extent.first_column();
        let frozen = frozen_view(&self.roots[view.root], chain, view.extent)?;
        Ok(frozen)
    }
}

/// Returns the image of a view of a root, held by tiles in memory.
fn frozen_view<C: TileChain>(
    root: &Root,
    chain: &mut C,
    extent: Rect,
) -> Result<Frozen, SwapRefused>
    requires { IsViewOver root.now extent (C.held chain.old) }
    ensures shape { IfOk result (IsFrozenOver (record { box = extent; format = root.now.tiles.format })) }
    ensures image { IfOk result (IsFrozenImage (view_image root.now extent (C.held chain.old))) }
    ensures cause { IfErr result (HasSwapCause (C.counts chain.old) (C.counts chain.new) (C.counts chain.old).names) }
    ensures read { IsRead
        (chain_state C.ChainMeaning chain.old) (chain_state C.ChainMeaning chain.new) }
{
    let mut frozen = Frozen::new(root.allocator(), root.format(), extent)?;
    for at in extent.tiles() {
        hold(&mut frozen, root, chain, extent, at)?;
    }
    Ok(frozen)
}

/// Holds a tile of a view of a root.
fn hold<C: TileChain>(
    frozen: &mut Frozen,
    root: &Root,
    chain: &mut C,
    extent: Rect,
    at: TileAt,
) -> Result<(), SwapRefused>
    requires view { IsViewOver root.now extent (C.held chain.old) }
    requires whole { IsWhole at }
    requires shape { IsFrozenOver (record { box = extent; format = root.now.tiles.format }) frozen.old }
    ensures shape { IsFrozenOver (record { box = extent; format = root.now.tiles.format }) frozen.new }
    ensures held { IfOk result (λ _. IfSome (view_image root.now extent (C.held chain.old))
        (λ image. frozen.new ≡ with_held frozen.old at (tile_bytes image at))) }
    ensures cause { IfErr result (HasSwapCause (C.counts chain.old) (C.counts chain.new) (C.counts chain.old).names) }
    ensures read { IsRead
        (chain_state C.ChainMeaning chain.old) (chain_state C.ChainMeaning chain.new) }
{
    let tile = zero_outside(root, chain, extent, at)?;
    frozen.hold(at, tile)?;
    Ok(())
}

/// Returns a tile of a view of a root, whose bytes encode zeros outside the view whether the chain exposes them
/// or not: what it shares with the chain has no position there.
fn zero_outside<C: TileChain>(
    root: &Root,
    chain: &mut C,
    extent: Rect,
    at: TileAt,
) -> Result<Tile, SwapRefused>
    requires view { IsViewOver root.now extent (C.held chain.old) }
    requires whole { IsWhole at }
    ensures zero { IfOk result (AreZeroOutside extent root.now.tiles.format at) }
    ensures tile { ReadsViewTile root.now extent at result
        (chain_state C.ChainMeaning chain.old) (chain_state C.ChainMeaning chain.new) }
{
    let square = at.rect();
    if extent.contains(&square) {
        return view_tile(root, chain, extent, at);
    }
    let part = root.part(chain, extent.meet(&square))?;
    Ok(part.tile(root.allocator(), at)?)
}
