//! Bytes of tiles.

ghost use Rattle.std.specs.Prelude.{◌≡◌};
ghost use Rattle.model_images.specs.FromRaw.{AreBytes};

use model_images::raw_bytes::are_bytes;
use tile_cow::Tile;

/// Returns a tile's bytes, which are below 256, as a clause on the tile alone doesn't say.
pub(crate) fn bytes_of(tile: &Tile) -> &[u8]
    ensures value { result.now ≡ tile.now }
    ensures small { AreBytes tile.now }
{
    let bytes = tile.bytes();
    are_bytes(bytes);
    bytes
}
