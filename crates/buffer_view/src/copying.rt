//! Rectangles of buffers that are copied.

ghost use Rattle.std.specs.Prelude.{◌≡◌, ℕ, List, IfErr, IfOk, IfSome, IsSomeAnd, Some, length, slice_get};
ghost use Rattle.model_buffers.specs.{Table.root_image, declared.edit.BufferEdit.TheVariants.Copy};
ghost use Rattle.model_graphs.specs.Shapes.{Shape};
ghost use Rattle.model_images.specs.{FromRaw.byte_count, Paint.cut, Raw.raw};
ghost use Rattle.plane_rect.specs.Rectangle.{Includes};
ghost use Rattle.root_tiles.specs.Chains.{IsRead, chain_state};
ghost use Rattle.chain_owners.specs.Cause.{HasSwapCause};
ghost use Rattle.buffer_view.specs.BufferTables.{AreBuffersOver, table_of};
ghost use Rattle.buffer_view.specs.Edits.{EditsBuffers};

use crate::buffers::Buffers;
use crate::refused::BufferRefused;
use crate::written::Raw;
use chain_contracts::TileChain;
use chain_owners::SwapRefused;
use plane_rect::{Name, Rect};

impl Buffers {
    /// Copies a rectangle of one buffer to another or the same, `dx` to the right and `dy` down, in pixels: all
    /// samples are read before any is written. After an error the buffers and their images are as before. Takes
    /// time in proportion to the tiles of the rectangle.
    ///
    /// # Errors
    ///
    /// `UnknownBuffer` where no buffer has one of the names, else `OutOfBounds` where the first lacks a position
    /// of the rectangle, or the second one of the moved rectangle, or that is none of the plane, and else
    /// `Formats` where the buffers have different formats. Else as [`Buffers::fill`].
    pub fn copy<C: TileChain>(
        &mut self,
        chain: &mut C,
        from: Name,
        to: Name,
        rect: Rect,
        dx: i64,
        dy: i64,
    ) -> Result<(), BufferRefused>
        requires { AreBuffersOver self.old (C.held chain.old) }
        ensures { EditsBuffers (Copy from to rect dx dy) result self.old self.new
            (chain_state C.ChainMeaning chain.old) (chain_state C.ChainMeaning chain.new) }
    {
        let parts = self.layout.copy_parts(from, to, rect, dx, dy)?;
        // `first_column` is called for its clause that the rectangle is one of the plane.
        let _ = rect.first_column();
        let bytes = self.read(chain, parts.source.root, rect)?;
        let mut written = Raw { bytes: &bytes };
        self.write(chain, parts.target.root, parts.moved, &mut written)?;
        Ok(())
    }

    /// Returns the raw bytes of a part of the root at an index.
    fn read<C: TileChain>(
        &self,
        chain: &mut C,
        number: usize,
        rect: Rect,
    ) -> Result<Vec<u8>, SwapRefused>
        requires over { AreBuffersOver self.now (C.held chain.old) }
        requires inside { IsSomeAnd (slice_get self.now.layout.roots number) (λ (entry : List ℕ × Shape). Includes entry.1.box rect) }
        ensures bytes { (root : List ℕ) (shape : Shape) → slice_get self.now.layout.roots number ≡ Some (root, shape) →
            IfOk result (λ bytes. IfSome (table_of self.now (C.held chain.old))
            (λ table. bytes.items ≡ raw (cut (root_image table root) rect) rect)) }
        ensures count { (root : List ℕ) (shape : Shape) → slice_get self.now.layout.roots number ≡ Some (root, shape) →
            IfOk result (λ bytes. length bytes.items ≡ byte_count rect shape.format) }
        ensures cause { IfErr result (HasSwapCause (C.counts chain.old) (C.counts chain.new) (C.counts chain.old).names) }
        ensures read { IsRead
            (chain_state C.ChainMeaning chain.old) (chain_state C.ChainMeaning chain.new) }
    {
        // `first_column` is called for its clause that the rectangle is one of the plane.
        let _ = rect.first_column();
        let patch = self.roots[number].part(chain, rect)?;
        Ok(patch.into_raw())
    }
}
