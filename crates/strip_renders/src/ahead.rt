//! Tiles of nodes that are made ahead of their turn, by several workers.

ghost use Rattle.std.specs.Prelude.{◌≡◌, ℕ, ◌+◌, ◌<◌, ◌≤◌, [], IfOk, IsTrue, MatchResult, Some, length, take};
ghost use Rattle.std.specs.List.{AllByRecursion};
ghost use Rattle.model_graphs.specs.Evaluation.{Buffers};
ghost use Rattle.node_tiles.specs.Stated.{AreTilesOf};
ghost use Rattle.strip_renders.specs.Ahead.{AreMadeOf, AreNext, IsTaken};
ghost use Rattle.strip_renders.specs.Moments.{ReadsTiles, source_state};
ghost use Rattle.strip_renders.specs.Strips.{AreStatedWith, HoldsNeed, IsStripOf, needed_from};

use crate::batch::batch_of;
use crate::evaluator::Evaluator;
use crate::jobs::{apply_jobs, tile_jobs};
use chain_owners::{ChainMeaning, SwapRefused};
use node_cache::PairStore;
use node_tiles::StripTiles;
use op_contracts::{OpKit, SourceTiles};
use plane_rect::TileAt;
use roi_planner::Strip;
use std::alloc::Global;
use std::collections::VecDeque;
use std::marker::Model;
use std::thread::Threads;
use tile_cow::Tile;
use worker_pieces::Workers;

/// Tiles that were made ahead of their turn, in the order in which strips need them. A clause sees them as the list of
/// the needed tiles and their bytes.
#[derive(Drop)]
pub struct AheadTiles {
    tiles: VecDeque<((u32, TileAt), Tile)>,
    /// How many needed tiles of the last batch have not had their turn.
    waiting: usize,
}

impl Model for AheadTiles {
    ghost use Rattle.strip_renders.specs.Ahead.{MadeTiles};

    ghost Value = { MadeTiles };

    ghost view = { λ ahead. ahead.tiles.items };
}

impl AheadTiles {
    /// Returns an empty list, as it is before any batch. Takes no memory.
    pub fn new(alloc: Global) -> AheadTiles
        ensures { result ≡ [] }
    {
        AheadTiles {
            tiles: VecDeque::new(alloc),
            waiting: 0,
        }
    }

    /// Takes the first tile of the list, if it is that of the needed one whose turn it is.
    pub(crate) fn take(&mut self, node: u32, at: TileAt) -> Option<Tile>
        ensures { IsTaken self.old self.new (node, at) result }
    {
        self.waiting = self.waiting.saturating_sub(1);
        let first = self.tiles.front()?;
        if first.0 != (node, at) {
            return None;
        }
        let (_needed, tile) = self.tiles.pop_front()?;
        Some(tile)
    }

    /// Returns whether a new batch begins: none of the tiles is left, and all needed ones of the last batch had their
    /// turn.
    fn is_past(&self) -> bool
        ensures { IsTrue result → self.now ≡ [] }
    {
        self.waiting == 0 && self.tiles.is_empty()
    }
}

/// Makes the tiles of a batch of needed ones ahead of their turn, where one begins at an index of the strip's need and
/// there are several workers: those that the cache hasn't, of strips after this one too. The others, and all where there
/// is one worker, are left to their turn. Spends a permit for each that it makes.
///
/// # Errors
///
/// `SwapFault` only where the swap's count of I/O errors rose in this call, `SwapFull` only where the chain's names can
/// fill the swap, and `NoMemory` if memory runs out. Some of the permits may then be spent.
pub(crate) fn look_ahead<H: ChainMeaning, S: SourceTiles<H>, C: PairStore<H>, K: OpKit + Sync, R>(
    by: &Evaluator<'_, K>,
    held: &StripTiles,
    sources: &mut S,
    cache: &C,
    chain: &mut H,
    purse: &mut K::Purse,
    strip: &Strip,
    later: &[Strip],
    index: usize,
    workers: Workers<'_, R>,
    ahead: &mut AheadTiles,
) -> Result<(), SwapRefused>
where
    K::Op: Sync,
    K::Permit: Send,
    R: Threads + Sync,
    requires stated { AreStatedWith K.Op.meanings (S.facts sources.old) by.now.nodes.now by.now.inputs.now }
    requires strip { IsStripOf K.Op.meanings by.now.nodes.now strip.now }
    requires later { AllByRecursion (IsStripOf K.Op.meanings by.now.nodes.now) later.now }
    requires index { index < length strip.now.need }
    requires held { HoldsNeed by.now.nodes.now (take index strip.now.need) held.now }
    requires over { S.is_over sources.old (H.held chain.old) }
    requires ahead { AreNext by.now.nodes.now (C.pairs cache.now) (needed_from strip.now later.now index) ahead.old }
    requires permits { length (needed_from strip.now later.now index) ≤ K.permits purse.old + length ahead.old }
    ensures ahead { IfOk result (λ _. AreNext by.now.nodes.now (C.pairs cache.now) (needed_from strip.now later.now index) ahead.new) }
    ensures bytes { (images : Buffers) → S.images sources.old (H.held chain.old) ≡ Some images →
        AreTilesOf K.Op.meanings by.now.nodes.now images held.now → AreMadeOf K.Op.meanings by.now.nodes.now images ahead.old →
        IfOk result (λ _. AreMadeOf K.Op.meanings by.now.nodes.now images ahead.new) }
    ensures permits { MatchResult result
        (λ _. (K.permits purse.new ≤ K.permits purse.old)
        × (K.permits purse.new + length ahead.new ≡ K.permits purse.old + length ahead.old))
        (λ _. (K.permits purse.new ≤ K.permits purse.old)
        × (K.permits purse.old + length ahead.old ≤ K.permits purse.new + length (needed_from strip.now later.now index))) }
    ensures read { ReadsTiles (source_state H.ChainMeaning S.SourceTiles sources.old chain.old)
        (source_state H.ChainMeaning S.SourceTiles sources.new chain.new) result }
{
    if !workers.are_several() || !ahead.is_past() {
        return Ok(());
    }
    let batch = batch_of(by, strip, later, index)?;
    let jobs = tile_jobs(by, held, sources, cache, chain, purse, &batch)?;
    let made = apply_jobs(by.kit, by.alloc, by.nodes, by.inputs, jobs, workers)?;
    *ahead = AheadTiles {
        tiles: VecDeque::from_vec(made),
        waiting: batch.len(),
    };
    Ok(())
}
