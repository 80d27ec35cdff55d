//! A picture that is made of strips of level 0, one after another.

ghost use Rattle.std.specs.Prelude.{◌≡◌, ℕ, ◌+◌, ◌<◌, ◌≤◌, IfErr, IfOk, IsSome, OnErr, OnOk, Some, length, slice_get, true};
ghost use Rattle.plane_rect.specs.Rectangle.{InLimits, IsRectangle, scaled};
ghost use Rattle.model_graphs.specs.{Evaluation.Buffers, Facts.shapes_of_facts};
ghost use Rattle.model_images.specs.{Image.Image, Level.level as image_level};
ghost use Rattle.model_states.specs.Valid.{AreStated};
ghost use Rattle.plane_rect.specs.Tile.{strip_rectangles};
ghost use Rattle.chain_owners.specs.Cause.{HasSwapCause};
ghost use Rattle.node_tiles.specs.Reads.{Reads, seen};
ghost use Rattle.node_tiles.specs.Stated.{AreTilesOf, HaveLengths, shape_at};
ghost use Rattle.strip_patches.specs.Nodes.{HoldsPart, image_at};
ghost use Rattle.strip_patches.specs.Shown.{AreOfOneRequest, HasStripsOf, Shows, format_in, is_patch, level_in, makes_patch, picture_box, picture_format, rect_in, source_in};

use crate::level_patch::LevelPatch;
use crate::patching::part_tiles;
use crate::picture::{Picture, PictureForm};
use crate::tiled_patch::TiledPatch;
use alloc_basics::NoMemory;
use chain_owners::{ChainMeaning, SwapRefused};
use model_graphs::NodeFact;
use node_tiles::StripTiles;
use op_contracts::{OpMeaning, SourceTiles};
use pixel_formats::Format;
use plane_rect::Rect;
use std::alloc::Global;

/// How many columns a rectangle has at least whose tiles are kept. A file takes the bytes of one row of tiles in each call,
/// and of narrower ones these would be few.
const TILED_COLUMNS: u32 = 1024;

/// How many rows it has at least. A smaller patch is mostly given memory that was used before by the allocator, so that
/// making it costs no page faults.
const TILED_ROWS: u32 = 64;

/// A picture of a rectangle of a level, made of strips of level 0 one after another.
#[derive(Drop)]
pub enum PictureStrips {
    /// A patch into which strips are put.
    Patch(LevelPatch),
    /// The tiles of the strips.
    Tiles(TiledPatch),
}

impl PictureStrips {
    /// Returns the picture of a rectangle of a level to which no strip was added, of an image whose box is `bounds`. In the
    /// form of tiles it keeps these where the rectangle is one of level 0 within the box and large enough, and else it
    /// makes a patch.
    ///
    /// # Errors
    ///
    /// `NoMemory` if memory runs out.
    pub fn new(
        alloc: Global,
        rect: Rect,
        level: u32,
        format: Format,
        bounds: Rect,
        form: PictureForm,
    ) -> Result<PictureStrips, NoMemory>
        requires level { level ≤ 8 }
        requires source { IsSome (scaled level rect) }
        ensures rect { IfOk result (λ strips. rect_in strips ≡ rect) }
        ensures level { IfOk result (λ strips. level_in strips ≡ level) }
        ensures source { IfOk result (λ strips. scaled level rect ≡ Some (source_in strips)) }
        ensures format { IfOk result (λ strips. format_in strips ≡ format) }
        ensures none { IfOk result (λ strips. (image : Image) → IsRectangle image.box → image.format ≡ format →
            image.box ≡ bounds → HasStripsOf image 0 strips) }
        ensures patch { form ≡ PictureForm.Patch → IfOk result (λ strips. makes_patch strips ≡ true) }
    {
        let source = rect.scaled(level).unwrap();
        // Both are rectangles of the plane, as these calls say.
        let _areas = (rect.area(), source.area());
        if form == PictureForm::Tiles && level == 0 && bounds.contains(&rect) && is_large(&rect) {
            return Ok(PictureStrips::Tiles(TiledPatch::new(alloc, rect, format)));
        }
        let patch = LevelPatch::new(alloc, rect, level, format)?;
        Ok(PictureStrips::Patch(patch))
    }

    /// Adds the strip over a rectangle of the image of the node at a position: the next strip of level 0 of the request's
    /// rectangle, as they follow one another from the top. Takes time in proportion to the strip's tiles, and where a patch
    /// is made to its pixels.
    ///
    /// # Errors
    ///
    /// `SwapFault` only where the swap's count of I/O errors rose in this call, `SwapFull` only where the
    /// chain's names can fill the swap, and `NoMemory` if memory runs out. Nothing is then added.
    pub fn add_strip<H: ChainMeaning, S: SourceTiles<H>, Op: OpMeaning>(
        &mut self,
        alloc: Global,
        nodes: &[NodeFact<Op>],
        held: &StripTiles,
        sources: &mut S,
        chain: &mut H,
        node: u32,
        rect: Rect,
    ) -> Result<(), SwapRefused>
        requires stated { AreStated Op.meanings (shapes_of_facts (S.facts sources.old)) nodes.now }
        requires node { node < length nodes.now }
        requires there { HoldsPart nodes.now held.now node rect }
        requires lengths { HaveLengths nodes.now held.now }
        requires limits { InLimits rect }
        requires over { S.is_over sources.old (H.held chain.old) }
        requires format { format_in self.old ≡ (shape_at nodes.now node).format }
        ensures request { AreOfOneRequest self.old self.new }
        ensures added { (images : Buffers) → S.images sources.old (H.held chain.old) ≡ Some images →
            AreTilesOf Op.meanings nodes.now images held.now →
            (k : ℕ) → HasStripsOf (image_at Op.meanings nodes.now images node) k self.old →
            slice_get (strip_rectangles (source_in self.old)) k ≡ Some rect →
            OnOk result (HasStripsOf (image_at Op.meanings nodes.now images node) (k + 1) self.new) }
        ensures unchanged { OnErr result (self.new ≡ self.old) }
        ensures over { S.is_over sources.new (H.held chain.new) }
        ensures reads { Reads
            (seen (S.facts sources.old) (S.images sources.old (H.held chain.old)) (S.names sources.old) (H.held chain.old) (H.counts chain.old) (H.loans chain.old))
            (seen (S.facts sources.new) (S.images sources.new (H.held chain.new)) (S.names sources.new) (H.held chain.new) (H.counts chain.new) (H.loans chain.new)) }
        ensures cause { IfErr result (HasSwapCause (H.counts chain.old) (H.counts chain.new) (H.counts chain.old).names) }
        ensures valid { H.is_valid chain.old → H.is_valid chain.new }
    {
        let tiles = part_tiles(alloc, nodes, held, sources, chain, node, rect)?;
        let fact = &nodes[node as usize];
        match self {
            PictureStrips::Patch(patch) => {
                patch.add_tiles(alloc, tiles.as_slice(), rect, fact.bounds)?;
                Ok(())
            }
            PictureStrips::Tiles(tiled) => {
                tiled.add_tiles(tiles)?;
                Ok(())
            }
        }
    }

    /// Returns the picture, once each strip was added.
    ///
    /// # Errors
    ///
    /// `NoMemory` if memory runs out.
    pub fn finish(self, alloc: Global) -> Result<Picture, NoMemory>
        ensures rect { IfOk result (λ picture. picture_box picture ≡ rect_in self) }
        ensures format { IfOk result (λ picture. picture_format picture ≡ format_in self) }
        ensures image { (image : Image) → HasStripsOf image (length (strip_rectangles (source_in self))) self →
            IfOk result (Shows (image_level image (level_in self)) (rect_in self)) }
        ensures patch { IfOk result (λ picture. is_patch picture ≡ makes_patch self) }
    {
        match self {
            PictureStrips::Patch(patch) => Ok(Picture::Patch(patch.finish(alloc)?)),
            PictureStrips::Tiles(tiled) => Ok(Picture::Tiles(tiled)),
        }
    }
}

/// Returns whether a rectangle is large enough for its tiles to be kept.
fn is_large(rect: &Rect) -> bool {
    rect.end_column() - rect.first_column() >= TILED_COLUMNS
        && rect.end_row() - rect.first_row() >= TILED_ROWS
}
