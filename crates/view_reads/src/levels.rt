//! Levels of the images of views.

ghost use Rattle.std.specs.Prelude.{◌≡◌, ◌≤◌, IfErr, IfOk, length, replicate};
ghost use Rattle.pixel_formats.specs.Limits.{max_level};
ghost use Rattle.level_tables.specs.Over.{IsTileOfLevel, tile_length};
ghost use Rattle.model_images.specs.{Level.halved_image, Raw.tile_bytes};
ghost use Rattle.plane_rect.specs.Rectangle.{InLimits};
ghost use Rattle.chain_owners.specs.Cause.{HasSwapCause};
ghost use Rattle.root_tiles.specs.Roots.{HasShape, IsPartOf, IsRootOver, part_shape};
ghost use Rattle.root_tiles.specs.Chains.{IsRead, chain_state};
ghost use Rattle.view_reads.specs.Views.{IsPartOfLevel, IsViewOver, ReadsLevels, view_image};
ghost use Rattle.view_reads.specs.Reaches.{IsReach};

use crate::positions::{level_box, source_of, square_below};
use crate::views::view_tile;
use alloc_basics::NoMemory;
use chain_contracts::TileChain;
use chain_owners::SwapRefused;
use patch_abyss::{Patch, halve};
use plane_rect::{Rect, TileAt};
use root_tiles::Root;
use std::alloc::Global;
use tile_cow::Tile;

/// How many pixels a tile has.
const TILE_PIXELS: u32 = 64 * 64;

/// Which of the positions of a root that are averaged for a tile of a level are a view's.
#[derive(Clone, Copy)]
pub(crate) enum Reach {
    /// None of them.
    Outside,
    /// All of them.
    Contained,
    /// Some of them.
    Edge,
}

/// Returns which of the positions of a root that are averaged for a tile of a level are a view's.
fn reach_of(bounds: Rect, extent: Rect, level: u32, at: TileAt) -> Reach
    ensures { IsReach bounds extent level at result }
{
    let source = source_of(level, at);
    if extent.meet(&source).is_empty() {
        return Reach::Outside;
    }
    if extent.contains(&source.meet(&bounds)) {
        return Reach::Contained;
    }
    Reach::Edge
}

/// Returns a tile of a level of a view's own image: the root's, which holds it from then on, where the view
/// contains all of the root that is averaged for it, and else one that is held nowhere. The images are unchanged,
/// whatever it answers. Reads four tiles for each that it makes.
///
/// # Errors
///
/// `SwapFault` only where the swap's count of I/O errors rose in this call, `SwapFull` only where the names
/// and as many more as the levels of the root have tiles that aren't held can fill the swap, and `NoMemory` if
/// memory runs out.
#[cycle(levels)]
pub fn level_tile<C: TileChain>(
    root: &mut Root,
    chain: &mut C,
    extent: Rect,
    level: u32,
    at: TileAt,
) -> Result<Tile, SwapRefused>
    requires view { IsViewOver root.old extent (C.held chain.old) }
    requires level { level ≤ max_level }
    ensures bytes { IfOk result (IsTileOfLevel (view_image root.old extent (C.held chain.old)) level at) }
    ensures length { IfOk result (λ tile. length tile ≡ tile_length root.old.tiles.format) }
    ensures reads { ReadsLevels level result root.old root.new
        (chain_state C.ChainMeaning chain.old) (chain_state C.ChainMeaning chain.new) }
{
    match reach_of(root.bounds(), extent, level, at) {
        Reach::Outside => zero_tile(root, chain),
        Reach::Contained => root.tile(chain, level, at),
        Reach::Edge if level == 0 => view_tile(root, chain, extent, at),
        Reach::Edge => {
            let part = level_part(root, chain, extent, level - 1, square_below(at))?;
            Ok(half_tile(root.allocator(), &part, at)?)
        }
    }
}

/// Returns a tile of zeros.
fn zero_tile<C: TileChain>(root: &Root, chain: &mut C) -> Result<Tile, SwapRefused>
    requires { IsRootOver root.now (C.held chain.old) }
    ensures bytes { IfOk result (λ tile. tile ≡ replicate (tile_length root.now.tiles.format) 0) }
    ensures cause { IfErr result (HasSwapCause (C.counts chain.old) (C.counts chain.new) (C.counts chain.old).names) }
    ensures read { IsRead
        (chain_state C.ChainMeaning chain.old) (chain_state C.ChainMeaning chain.new) }
{
    Ok(chain.zero(TILE_PIXELS * root.format().pixel_bytes())?)
}

/// Returns a tile of an image that is halved once.
fn half_tile(alloc: Global, part: &Patch, at: TileAt) -> Result<Tile, NoMemory>
    ensures { IfOk result (λ tile. tile ≡ tile_bytes (halved_image part.now) at) }
{
    let half = halve(alloc, part)?;
    half.tile(alloc, at)
}

/// Returns a part of a level of a view's own image, which is zero outside the level. Takes time in proportion to
/// the part, and reads four tiles for each tile of a level that it makes.
///
/// # Errors
///
/// As [`level_tile`].
#[cycle(levels)]
pub fn level_part<C: TileChain>(
    root: &mut Root,
    chain: &mut C,
    extent: Rect,
    level: u32,
    rect: Rect,
) -> Result<Patch, SwapRefused>
    requires view { IsViewOver root.old extent (C.held chain.old) }
    requires level { level ≤ max_level }
    requires limits { InLimits rect }
    ensures shape { IfOk result (HasShape (part_shape root.old rect)) }
    ensures image { IfOk result (IsPartOfLevel (view_image root.old extent (C.held chain.old)) level rect) }
    ensures reads { ReadsLevels level result root.old root.new
        (chain_state C.ChainMeaning chain.old) (chain_state C.ChainMeaning chain.new) }
{
    if level == 0 {
        return first_part(root, chain, extent, rect);
    }
    let mut patch = Patch::zero(root.allocator(), rect, root.format())?;
    for at in rect.meet(&level_box(extent, level)).tiles() {
        let tile = level_tile(root, chain, extent, level, at)?;
        patch.put_tile(at, &tile);
    }
    Ok(patch)
}

/// Returns a part of a view's image, which is zero outside the view.
fn first_part<C: TileChain>(
    root: &Root,
    chain: &mut C,
    extent: Rect,
    rect: Rect,
) -> Result<Patch, SwapRefused>
    requires view { IsViewOver root.now extent (C.held chain.old) }
    requires limits { InLimits rect }
    ensures shape { IfOk result (HasShape (part_shape root.now rect)) }
    ensures image { IfOk result (IsPartOf (view_image root.now extent (C.held chain.old)) rect) }
    ensures cause { IfErr result (HasSwapCause (C.counts chain.old) (C.counts chain.new) (C.counts chain.old).names) }
    ensures read { IsRead
        (chain_state C.ChainMeaning chain.old) (chain_state C.ChainMeaning chain.new) }
{
    let shared = extent.meet(&rect);
    let part = root.part(chain, shared)?;
    if shared == rect {
        return Ok(part);
    }
    Ok(part.part(root.allocator(), rect)?)
}
