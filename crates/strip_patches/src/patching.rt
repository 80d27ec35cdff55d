//! The tiles of a node that meet a rectangle, and patches that are made of them.

ghost use Rattle.std.specs.Prelude.{◌≡◌, ℕ, ◌*◌, ◌<◌, All, IfErr, IfOk, Some, length};
ghost use Rattle.chain_owners.specs.Counts.{Grows};
ghost use Rattle.model_graphs.specs.{Evaluation.Buffers, Facts.shapes_of_facts};
ghost use Rattle.model_images.specs.{Image.Image, Paint.cut};
ghost use Rattle.model_states.specs.Valid.{AreStated};
ghost use Rattle.plane_rect.specs.Rectangle.{InLimits, meet};
ghost use Rattle.plane_rect.specs.Tile.{IsWhole};
ghost use Rattle.pixel_formats.specs.Format.{pixel_bytes};
ghost use Rattle.chain_owners.specs.Cause.{HasSwapCause};
ghost use Rattle.op_contracts.specs.TileList.{HasLength};
ghost use Rattle.node_tiles.specs.Reads.{Reads, seen};
ghost use Rattle.node_tiles.specs.Stated.{AreTilesOf, HaveLengths, shape_at};
ghost use Rattle.strip_patches.specs.Nodes.{HoldsPart, image_at};
ghost use Rattle.strip_patches.specs.Pictures.{AreTilesOver};

use crate::bands::put_by_bands;
use alloc_basics::NoMemory;
use chain_owners::{ChainMeaning, SwapRefused};
use model_graphs::NodeFact;
use node_tiles::{StripTiles, input_tiles};
use op_contracts::{OpMeaning, SourceTiles, WindowTiles};
use patch_abyss::Patch;
use pixel_formats::Format;
use plane_rect::{Rect, TileAt};
use std::alloc::Global;
use tile_cow::Tile;

/// Returns the tiles of the node at a position that meet a rectangle within the node's box, in their order: of an
/// operation's node those that are held, and of a source those of its buffer. They are shared and not copied. Takes time
/// in proportion to their number.
///
/// # Errors
///
/// `SwapFault` only where the swap's count of I/O errors rose in this call, `SwapFull` only where the
/// chain's names can fill the swap, and `NoMemory` if memory runs out.
pub(crate) fn part_tiles<H: ChainMeaning, S: SourceTiles<H>, Op: OpMeaning>(
    alloc: Global,
    nodes: &[NodeFact<Op>],
    held: &StripTiles,
    sources: &mut S,
    chain: &mut H,
    node: u32,
    rect: Rect,
) -> Result<WindowTiles, SwapRefused>
    requires stated { AreStated Op.meanings (shapes_of_facts (S.facts sources.old)) nodes.now }
    requires node { node < length nodes.now }
    requires there { HoldsPart nodes.now held.now node rect }
    requires lengths { HaveLengths nodes.now held.now }
    requires over { S.is_over sources.old (H.held chain.old) }
    ensures in_plane { IfOk result (All (λ entry. IsWhole entry.0)) }
    ensures lengths { IfOk result (All (HasLength (4096 * pixel_bytes (shape_at nodes.now node).format))) }
    ensures image { (images : Buffers) → S.images sources.old (H.held chain.old) ≡ Some images →
        AreTilesOf Op.meanings nodes.now images held.now →
        IfOk result (AreTilesOver (image_at Op.meanings nodes.now images node)
        (meet rect (image_at Op.meanings nodes.now images node).box)) }
    ensures over { S.is_over sources.new (H.held chain.new) }
    ensures reads { Reads
        (seen (S.facts sources.old) (S.images sources.old (H.held chain.old)) (S.names sources.old) (H.held chain.old) (H.counts chain.old) (H.loans chain.old))
        (seen (S.facts sources.new) (S.images sources.new (H.held chain.new)) (S.names sources.new) (H.held chain.new) (H.counts chain.new) (H.loans chain.new)) }
    ensures cause { IfErr result (HasSwapCause (H.counts chain.old) (H.counts chain.new) (H.counts chain.old).names) }
    ensures valid { H.is_valid chain.old → H.is_valid chain.new }
{
    let fact = &nodes[node as usize];
    let part = rect.meet(&fact.bounds);
    // It is a rectangle of the plane, as this call says.
    let _area = part.area();
    let tiles = input_tiles(alloc, &fact.spec.body, held, sources, chain, node, part)?;
    Ok(tiles)
}

/// Returns the part of an image over a rectangle, zero where the rectangle reaches outside the image's box, by the tiles
/// of the image that meet the rectangle within the box. Takes time in proportion to the rectangle's pixels.
///
/// # Errors
///
/// `NoMemory` if memory runs out.
pub(crate) fn patch_of_tiles(
    alloc: Global,
    tiles: &[(TileAt, Tile)],
    rect: Rect,
    format: Format,
) -> Result<Patch, NoMemory>
    requires in_plane { All (λ entry. IsWhole entry.0) tiles.now }
    requires lengths { All (HasLength (4096 * pixel_bytes format)) tiles.now }
    requires limits { InLimits rect }
    ensures format { IfOk result (λ patch. patch.format ≡ format) }
    ensures image { (image : Image) → image.format ≡ format → AreTilesOver image (meet rect image.box) tiles.now →
        IfOk result (λ patch. patch ≡ cut image rect) }
{
    let mut patch = Patch::zero(alloc, rect, format)?;
    put_by_bands(&mut patch, tiles);
    Ok(patch)
}
