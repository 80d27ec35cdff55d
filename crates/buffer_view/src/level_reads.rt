//! Levels of buffers, read under a policy.

ghost use Rattle.std.specs.Prelude.{◌≡◌, ◌≤◌, ℕ, List, IfErr, IfOk, IsSomeAnd, Err, Some, slice_get};
ghost use Rattle.buffer_layouts.specs.Views.{root_view};
ghost use Rattle.chain_owners.specs.{Counts.Grows, Owners.Respects};
ghost use Rattle.pixel_formats.specs.Limits.{max_level};
ghost use Rattle.model_graphs.specs.Shapes.{Shape};
ghost use Rattle.model_images.specs.TileCounts.{level_tiles, names_after_read};
ghost use Rattle.plane_rect.specs.Rectangle.{InLimits, Includes};
ghost use Rattle.root_tiles.specs.{Chains.chain_state, Roots.HasShape};
ghost use Rattle.chain_owners.specs.Cause.{HasSwapCause};
ghost use Rattle.buffer_view.specs.BufferTables.{AreBuffersOver, buffers_names, table_of};
ghost use Rattle.buffer_view.specs.Reads.{GrabsBuffer, IsReadOfBuffer, box_of_root, part_of_buffer};

use crate::buffers::Buffers;
use crate::refused::BufferRefused;
use buffer_layouts::RootView;
use chain_contracts::TileChain;
use chain_owners::SwapRefused;
use model_buffers::EditRefused;
use patch_abyss::{Abyss, Patch};
use plane_rect::{Name, Rect};

impl Buffers {
    /// Returns a rectangle of a level of a buffer's image, under a policy outside the level. Tiles of levels
    /// that it makes are held until a tile below them is written. The images are unchanged, whatever it answers.
    /// Takes time in proportion to the rectangle and to the positions of the level that the policy gives there,
    /// and reads four tiles for each tile of a level that it makes.
    ///
    /// # Errors
    ///
    /// `UnknownBuffer` where no buffer has the name. Else `SwapFault` only where the swap's count of I/O errors
    /// rose in this call, `SwapFull` only where the chain's names and as many more as the levels of the buffer's
    /// root have tiles can fill the swap, and `NoMemory` if memory runs out.
    pub fn get<C: TileChain>(
        &mut self,
        chain: &mut C,
        name: Name,
        level: u32,
        abyss: Abyss,
        rect: Rect,
    ) -> Result<Patch, BufferRefused>
        requires over { AreBuffersOver self.old (C.held chain.old) }
        requires level { level ≤ max_level }
        requires limits { InLimits rect }
        ensures { GrabsBuffer name level abyss rect result self.old self.new
            (chain_state C.ChainMeaning chain.old) (chain_state C.ChainMeaning chain.new) }
    {
        let Some(view) = self.layout.view(name) else {
            return Err(BufferRefused::Edit(EditRefused::UnknownBuffer));
        };
        let patch = self.level_of_view(chain, &view, level, abyss, rect)?;
        Ok(patch)
    }

    /// Returns a rectangle of a level of what a buffer shows of a root, under a policy outside the level.
    fn level_of_view<C: TileChain>(
        &mut self,
        chain: &mut C,
        view: &RootView,
        level: u32,
        abyss: Abyss,
        rect: Rect,
    ) -> Result<Patch, SwapRefused>
        requires over { AreBuffersOver self.old (C.held chain.old) }
        requires inside { IsSomeAnd (slice_get self.old.layout.roots view.now.root) (λ (entry : List ℕ × Shape). Includes entry.1.box view.now.extent) }
        requires level { level ≤ max_level }
        requires limits { InLimits rect }
        ensures shape { (name : List ℕ) → root_view self.old.layout name ≡ Some view.now →
            IfOk result (HasShape (part_of_buffer self.old.layout name rect)) }
        ensures image { (name : List ℕ) → root_view self.old.layout name ≡ Some view.now →
            IfOk result (IsReadOfBuffer (table_of self.old (C.held chain.old)) name level abyss rect) }
        ensures cause { (name : List ℕ) → root_view self.old.layout name ≡ Some view.now →
            IfErr result (HasSwapCause (C.counts chain.old) (C.counts chain.new)
            (names_after_read (C.counts chain.old).names (box_of_root self.old.layout name) level)) }
        ensures counts { (name : List ℕ) → root_view self.old.layout name ≡ Some view.now →
            Grows (level_tiles (box_of_root self.old.layout name) level) (C.counts chain.old) (C.counts chain.new) }
        ensures layout { self.new.layout ≡ self.old.layout }
        ensures table { table_of self.new (C.held chain.new) ≡ table_of self.old (C.held chain.old) }
        ensures over { AreBuffersOver self.new (C.held chain.new) }
        ensures others { Respects (C.held chain.old) (C.held chain.new) (buffers_names self.old) (buffers_names self.new) }
        ensures loans { C.loans chain.new ≡ C.loans chain.old }
        ensures valid { C.is_valid chain.old → C.is_valid chain.new }
    {
        // `first_column` is called for its clause that the extent is a rectangle of the plane.
        let _ = view.extent.first_column();
        view_reads::get(
            &mut self.roots[view.root],
            chain,
            view.extent,
            level,
            abyss,
            rect,
        )
    }
}
