//! Samples that are written to roots of buffers.

ghost use Rattle.std.specs.Prelude.{ℕ, List, IsSomeAnd, slice_get};
ghost use Rattle.model_graphs.specs.Shapes.{Shape};
ghost use Rattle.plane_rect.specs.Rectangle.{Includes};
ghost use Rattle.root_tiles.specs.Chains.{chain_state};
ghost use Rattle.buffer_view.specs.{BufferTables.AreBuffersOver, Edits.WritesRoot};

use crate::buffers::Buffers;
use crate::written::Written;
use chain_contracts::TileChain;
use chain_owners::SwapRefused;
use plane_rect::Rect;

impl Buffers {
    /// Writes over a rectangle of the root at an index. After an error the buffers are as before.
    pub(crate) fn write<C: TileChain, W: Written>(
        &mut self,
        chain: &mut C,
        number: usize,
        rect: Rect,
        samples: &mut W,
    ) -> Result<(), SwapRefused>
        requires over { AreBuffersOver self.old (C.held chain.old) }
        requires inside { IsSomeAnd (slice_get self.old.layout.roots number) (λ (entry : List ℕ × Shape). Includes entry.1.box rect) }
        requires samples { IsSomeAnd (slice_get self.old.layout.roots number) (λ (entry : List ℕ × Shape). W.fits samples.old entry.1.format rect) }
        ensures { WritesRoot number rect (λ format. W.pixels samples.old format rect) result self.old self.new
            (chain_state C.ChainMeaning chain.old) (chain_state C.ChainMeaning chain.new) }
    {
        samples.write(&mut self.roots[number], chain, rect)
    }
}
