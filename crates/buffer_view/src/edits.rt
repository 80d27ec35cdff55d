//! Edits of buffers that write samples.

ghost use Rattle.model_buffers.specs.declared.edit.BufferEdit.TheVariants.{Fill, Put};
ghost use Rattle.root_tiles.specs.Chains.{chain_state};
ghost use Rattle.buffer_view.specs.{BufferTables.AreBuffersOver, Edits.EditsBuffers};

use crate::buffers::Buffers;
use crate::refused::BufferRefused;
use crate::written::{Even, SplitRaw};
use chain_contracts::TileChain;
use plane_rect::{Name, Rect};
use std::thread::Threads;
use worker_pieces::Workers;

impl Buffers {
    /// Writes one pixel at each position of a rectangle of a buffer: a sample for each channel. After an error
    /// the buffers and their images are as before. Takes time in proportion to the tiles of the rectangle.
    ///
    /// # Errors
    ///
    /// `UnknownBuffer` where no buffer has the name, else `OutOfBounds` where the buffer lacks a position of the
    /// rectangle, and else `Formats` where the samples are no pixel of the buffer's format.
    /// Else `SwapFault` only where the swap's count of I/O errors rose in this call, `SwapFull` only
    /// where the chain's names and as many more as the rectangle meets tiles can fill the swap, and `NoMemory`
    /// if memory runs out.
    pub fn fill<C: TileChain>(
        &mut self,
        chain: &mut C,
        name: Name,
        rect: Rect,
        samples: &[u32],
    ) -> Result<(), BufferRefused>
        requires { AreBuffersOver self.old (C.held chain.old) }
        ensures { EditsBuffers (Fill name rect samples.now) result self.old self.new
            (chain_state C.ChainMeaning chain.old) (chain_state C.ChainMeaning chain.new) }
    {
        let view = self.layout.fill_target(name, rect, samples)?;
        self.write(chain, view.root, rect, &mut Even { samples })?;
        Ok(())
    }

    /// Writes raw bytes over a rectangle of a buffer: its pixels row by row, each row from the left. Several
    /// workers cut the tiles that the rectangle covers, where that is worth it. After an error the buffers and
    /// their images are as before. Takes time in proportion to the tiles of the rectangle.
    ///
    /// # Errors
    ///
    /// `UnknownBuffer` where no buffer has the name, else `OutOfBounds` where the buffer lacks a position of the
    /// rectangle, and else `WrongSize` where the bytes are more or fewer than those of the rectangle. Else as [`Buffers::fill`].
    pub fn put_raw<C: TileChain, R: Threads + Sync>(
        &mut self,
        chain: &mut C,
        name: Name,
        rect: Rect,
        bytes: &[u8],
        workers: Workers<'_, R>,
    ) -> Result<(), BufferRefused>
        requires { AreBuffersOver self.old (C.held chain.old) }
        ensures { EditsBuffers (Put name rect bytes.now) result self.old self.new
            (chain_state C.ChainMeaning chain.old) (chain_state C.ChainMeaning chain.new) }
    {
        let view = self.layout.put_target(name, rect, bytes)?;
        self.write(chain, view.root, rect, &mut SplitRaw { bytes, workers })?;
        Ok(())
    }
}
