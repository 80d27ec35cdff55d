//! Tiles of zeros.

ghost use Rattle.std.specs.Prelude.{◌≡◌, ◌≤◌, IfOk, IfSome, length, replicate, vec_len};
ghost use Rattle.tile_cow.specs.Tile.{IsTileLength};
ghost use Rattle.tile_chain.specs.Zeros.{AreZero};

use alloc_basics::NoMemory;
use std::alloc::Global;
use tile_cow::Tile;

/// How many lengths of zero tiles are kept: as many as there are lengths of tiles of images, which are
/// 4,096, 8,192, 12,288, 16,384, 24,576, 32,768, 49,152 and 65,536 bytes.
const MAX_LENGTHS: usize = 8;

/// Tiles of zeros, one of each length that was asked for, which all who ask for it share.
#[derive(Drop)]
pub(crate) struct ZeroTiles {
    tiles: Vec<Tile>,
    alloc: Global,
    ghost zero: { AreZero tiles.items },
    ghost few: { vec_len tiles ≤ 8 },
}

impl ZeroTiles {
    /// Returns no tiles. Takes no memory.
    pub fn new(alloc: Global) -> ZeroTiles {
        ZeroTiles {
            tiles: Vec::new(alloc),
            alloc,
        }
    }

    /// Returns a tile of so many zeros. The first one of a length is kept, unless there are tiles of
    /// `MAX_LENGTHS` others.
    pub fn zero(&mut self, len: u32) -> Result<Tile, NoMemory>
        requires { IsTileLength len }
        ensures { IfOk result (λ tile. tile ≡ replicate len 0) }
    {
        if let Some(tile) = self.of_length(len) {
            let shared = tile.share(self.alloc)?;
            return Ok(shared);
        }
        let tile = Tile::zero(self.alloc, len)?;
        self.keep(&tile)?;
        Ok(tile)
    }

    /// Returns the tile of this length, where there is one.
    fn of_length(&self, len: u32) -> Option<&Tile>
        ensures { IfSome result (λ tile. tile.now ≡ replicate len 0) }
    {
        self.tiles
            .iter()
            .find(|tile| tile.bytes().len() == len as usize)
    }

    /// Keeps a tile of zeros, where there are fewer than `MAX_LENGTHS`.
    fn keep(&mut self, tile: &Tile) -> Result<(), NoMemory>
        requires { tile.now ≡ replicate (length tile.now) 0 }
    {
        if self.tiles.len() < MAX_LENGTHS {
            self.tiles.push(tile.share(self.alloc)?)?;
        }
        Ok(())
    }
}
