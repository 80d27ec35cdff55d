//! Tiles of the images of views.

ghost use Rattle.root_tiles.specs.Chains.{chain_state};
ghost use Rattle.view_reads.specs.Views.{IsViewOver, ReadsViewTile};

use chain_contracts::TileChain;
use chain_owners::SwapRefused;
use plane_rect::{Rect, TileAt};
use root_tiles::Root;
use tile_cow::Tile;

/// Returns a tile of the image of a view: the root's own tile, without a copy, where the view contains all that
/// the tile has of the root, and else a copy that is zero outside the view. The chain's names, their bytes and
/// their owners are unchanged, whatever it answers.
///
/// # Errors
///
/// `SwapFault` only where the swap's count of I/O errors rose in this call, `SwapFull` only where the
/// chain's names can fill the swap, and `NoMemory` if memory runs out.
pub fn view_tile<C: TileChain>(
    root: &Root,
    chain: &mut C,
    extent: Rect,
    at: TileAt,
) -> Result<Tile, SwapRefused>
    requires { IsViewOver root.now extent (C.held chain.old) }
    ensures { ReadsViewTile root.now extent at result
        (chain_state C.ChainMeaning chain.old) (chain_state C.ChainMeaning chain.new) }
{
    let square = at.rect();
    if extent.contains(&square.meet(&root.bounds())) {
        return root.put_tile(chain, at);
    }
    let part = root.part(chain, extent.meet(&square))?;
    Ok(part.tile(root.allocator(), at)?)
}
