//! The tiles of a root once something is written over a rectangle.

ghost use Rattle.std.specs.Prelude.{◌≡◌, IfErr, IfOk, IsSome, IsTrue, OnOk, length, replicate, true, false};
ghost use Rattle.level_tables.specs.{LevelTiles.bytes_in, Over.tile_length};
ghost use Rattle.model_images.specs.FromRaw.{byte_count, image_from_raw};
ghost use Rattle.model_images.specs.{Paint.put_raw, Tiles.tile_or_zeros};
ghost use Rattle.plane_rect.specs.Tile.{IsWhole, tile_square};
ghost use Rattle.plane_rect.specs.Rectangle.{Includes};
ghost use Rattle.chain_owners.specs.Cause.{HasSwapCause};
ghost use Rattle.root_tiles.specs.Cutting.{Covers, cutting_of};
ghost use Rattle.root_tiles.specs.Chains.{chain_state};
ghost use Rattle.root_tiles.specs.{Chains.IsRead, Paints.IsPaint, Reads.MakesTile, Roots.IsRootOver};

use crate::paint::Paint;
use crate::ready::ReadyTiles;
use crate::root::Root;
use alloc_basics::NoMemory;
use chain_contracts::TileChain;
use chain_owners::SwapRefused;
use patch_abyss::paint_raw;
use pixel_formats::Format;
use plane_rect::{Rect, TileAt};
use std::alloc::Global;
use tile_cow::Tile;

impl Root {
    /// Returns a tile of the root as it is once something is written over a rectangle: one that is ready, or else
    /// one that is painted now.
    pub(crate) fn next_tile<C: TileChain, T: ReadyTiles>(
        &self,
        chain: &mut C,
        at: TileAt,
        rect: Rect,
        paint: &Paint,
        ready: &mut T,
    ) -> Result<Tile, SwapRefused>
        requires over { IsRootOver self.now (C.held chain.old) }
        requires inside { Includes self.now.box rect }
        requires whole { IsWhole at }
        requires paint { IsPaint self.now.tiles.format rect paint.now }
        requires ready { T.are_cut ready.old (cutting_of self.now rect paint.now) }
        ensures ready { OnOk result (T.are_cut ready.new (cutting_of self.now rect paint.now)) }
        ensures made { MakesTile self.now rect paint.now at result
            (chain_state C.ChainMeaning chain.old) (chain_state C.ChainMeaning chain.new) }
    {
        if let Some(tile) = ready.take(at)? {
            return Ok(tile);
        }
        self.painted_tile(chain, at, rect, paint)
    }

    /// Returns a tile of the root as it is once something is written over a rectangle.
    fn painted_tile<C: TileChain>(
        &self,
        chain: &mut C,
        at: TileAt,
        rect: Rect,
        paint: &Paint,
    ) -> Result<Tile, SwapRefused>
        requires over { IsRootOver self.now (C.held chain.old) }
        requires inside { Includes self.now.box rect }
        requires whole { IsWhole at }
        requires paint { IsPaint self.now.tiles.format rect paint.now }
        ensures { MakesTile self.now rect paint.now at result
            (chain_state C.ChainMeaning chain.old) (chain_state C.ChainMeaning chain.new) }
    {
        let covered = is_covered(at, &self.bounds(), &rect);
        let (piece, bytes) = paint.piece(self.format(), rect, rect.meet(&at.rect()));
        let start = self.start_bytes(chain, at, covered)?;
        let tile = painted_over(self.alloc, self.format(), at, start, bytes, &piece)?;
        Ok(tile)
    }

    /// Returns the bytes of a tile over which something is written: those that it has, or zeros where all
    /// that it has of the root is covered.
    fn start_bytes<C: TileChain>(
        &self,
        chain: &mut C,
        at: TileAt,
        covered: bool,
    ) -> Result<Vec<u8>, SwapRefused>
        requires { IsRootOver self.now (C.held chain.old) }
        ensures length { IfOk result (λ bytes. length bytes.items ≡ tile_length self.now.tiles.format) }
        ensures held { covered ≡ false → IfOk result (λ bytes. IsSome (C.held chain.old).content →
            bytes.items ≡ tile_or_zeros self.now.tiles.format (bytes_in (C.held chain.old) self.now.tiles.put) at) }
        ensures zeros { covered ≡ true → IfOk result (λ bytes. bytes.items ≡ replicate (tile_length self.now.tiles.format) 0) }
        ensures cause { IfErr result (HasSwapCause (C.counts chain.old) (C.counts chain.new) (C.counts chain.old).names) }
        ensures read { IsRead
            (chain_state C.ChainMeaning chain.old) (chain_state C.ChainMeaning chain.new) }
    {
        if !covered {
            if let Some(tile) = self.table.put_tile(chain, at)? {
                return Ok(Vec::from_slice(self.alloc, tile.bytes())?);
            }
        }
        let count = 4096 * self.format().pixel_bytes() as usize;
        Ok(vec![in self.alloc; 0; count]?)
    }
}

/// Returns whether a rectangle contains all that a tile has of a box.
pub(crate) fn is_covered(at: TileAt, bounds: &Rect, rect: &Rect) -> bool
    ensures { IsTrue result → IsWhole at → Covers bounds.now rect.now at }
{
    rect.contains(&at.rect().meet(bounds))
}

/// Returns the tile of a position of which these are the bytes, with the raw bytes of a rectangle painted over
/// them.
pub(crate) fn painted_over(
    alloc: Global,
    format: Format,
    at: TileAt,
    mut start: Vec<u8>,
    bytes: &[u8],
    rect: &Rect,
) -> Result<Tile, NoMemory>
    requires whole { IsWhole at }
    requires start { length start.items ≡ tile_length format }
    requires bytes { length bytes.now ≡ byte_count rect.now format }
    ensures length { IfOk result (λ tile. length tile ≡ tile_length format) }
    ensures painted { IfOk result (λ tile. image_from_raw (tile_square at) format tile
        ≡ put_raw (image_from_raw (tile_square at) format start.items) rect.now bytes.now) }
{
    paint_raw(format, &mut start, &at.rect(), bytes, rect);
    Tile::from_vec(alloc, start)
}
