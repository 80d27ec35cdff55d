//! What is written over a rectangle of a root.

ghost use Rattle.std.specs.Prelude.{◌≡◌, ℕ, length};
ghost use denote.Param.Send.{IsSync};
ghost use Rattle.model_buffers.specs.{BufferEdit.IsPixel, Edits.evenly};
ghost use Rattle.model_images.specs.FromRaw.{byte_count, pixels_from_raw};
ghost use Rattle.pixel_formats.specs.{Row.Pixel, declared.format.Format.Format};
ghost use Rattle.plane_rect.specs.Rectangle.{Includes, Rectangle};
ghost use Rattle.root_tiles.specs.Chains.{chain_state};
ghost use Rattle.root_tiles.specs.{Roots.IsRootOver, Writes.IsWritten};

use chain_contracts::TileChain;
use chain_owners::SwapRefused;
use plane_rect::Rect;
use root_tiles::Root;
use std::thread::Threads;
use worker_pieces::Workers;

/// What is written over a rectangle of a root.
pub(crate) trait Written {
    /// It can be written over a rectangle of a root of a format.
    ghost fits: { Self → Format → Rectangle → Type 0 };

    /// The samples that are written.
    ghost pixels: { Self → Format → Rectangle → ℕ → ℕ → Pixel };

    /// Writes over a rectangle of a root's box. After an error the root and its image are as before.
    fn write<C: TileChain>(
        &mut self,
        root: &mut Root,
        chain: &mut C,
        rect: Rect,
    ) -> Result<(), SwapRefused>
        requires over { IsRootOver root.old (C.held chain.old) }
        requires inside { Includes root.old.box rect }
        requires written { fits self.old root.old.tiles.format rect }
        ensures { IsWritten rect (pixels self.old root.old.tiles.format rect) result root.old root.new
            (chain_state C.ChainMeaning chain.old) (chain_state C.ChainMeaning chain.new) };
}

/// One pixel everywhere: a sample for each channel.
#[derive(Clone, Copy)]
pub(crate) struct Even<'a> {
    pub samples: &'a [u32],
}

impl Written for Even<'_> {
    ghost fits = { λ written format _. IsPixel format written.samples.now };

    ghost pixels = { λ written _ _. evenly written.samples.now };

    fn write<C: TileChain>(
        &mut self,
        root: &mut Root,
        chain: &mut C,
        rect: Rect,
    ) -> Result<(), SwapRefused> {
        root.fill(chain, rect, self.samples)
    }
}

/// The raw bytes of the rectangle, row by row.
#[derive(Clone, Copy)]
pub(crate) struct Raw<'a> {
    pub bytes: &'a [u8],
}

impl Written for Raw<'_> {
    ghost fits = { λ written format r. length written.bytes.now ≡ byte_count r format };

    ghost pixels = { λ written format r. pixels_from_raw r format written.bytes.now };

    fn write<C: TileChain>(
        &mut self,
        root: &mut Root,
        chain: &mut C,
        rect: Rect,
    ) -> Result<(), SwapRefused> {
        root.put_raw_alone(chain, rect, self.bytes)
    }
}

/// The raw bytes of the rectangle, row by row, of which several workers may cut the tiles.
#[derive(Drop)]
pub(crate) struct SplitRaw<'a, R: Threads + Sync> {
    pub bytes: &'a [u8],
    pub workers: Workers<'a, R>,
}

impl<R: Threads + Sync> Written for SplitRaw<'_, R> {
    ghost fits = { λ written format r. IsSync R.row × (length written.bytes.now ≡ byte_count r format) };

    ghost pixels = { λ written format r. pixels_from_raw r format written.bytes.now };

    fn write<C: TileChain>(
        &mut self,
        root: &mut Root,
        chain: &mut C,
        rect: Rect,
    ) -> Result<(), SwapRefused> {
        root.put_raw(chain, rect, self.bytes, self.workers)
    }
}
