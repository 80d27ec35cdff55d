//! Jobs of needed tiles that the cache hasn't, and what they make.

ghost use Rattle.std.specs.Prelude.{◌≡◌, ℕ, ◌+◌, ◌<◌, ◌≤◌, ◌++◌, [], ◌∷◌, IfOk, List, MatchResult, Some, length, map};
ghost use Rattle.std.specs.List.{AllByRecursion};
ghost use Rattle.model_graphs.specs.{Evaluation.Buffers, Permits.Spent};
ghost use Rattle.model_states.specs.Need.{Needed};
ghost use Rattle.roi_planner.specs.Inputs.{all_inputs};
ghost use Rattle.node_tiles.specs.Stated.{AreTilesOf, HaveLengths, IsReady};
ghost use Rattle.node_tiles.specs.Jobs.{IsTileJob};
ghost use Rattle.strip_renders.specs.Ahead.{AreJobs, AreJobsOf, AreReady, made_of};
ghost use Rattle.strip_renders.specs.Moments.{ReadsTiles, source_state};
ghost use Rattle.strip_renders.specs.Strips.{AreStatedWith};

use crate::evaluator::Evaluator;
use alloc_basics::NoMemory;
use chain_owners::{ChainMeaning, SwapRefused};
use model_graphs::NodeFact;
use node_cache::PairStore;
use node_tiles::{StripTiles, TileJob, apply_job, tile_job};
use op_contracts::{OpKit, SourceTiles};
use plane_rect::TileAt;
use roi_planner::NodeInputs;
use std::alloc::Global;
use std::thread::Threads;
use tile_cow::Tile;
use worker_pieces::Workers;

/// Adds the job of a needed tile, if the cache hasn't its pair.
///
/// # Errors
///
/// `SwapFault` only where the swap's count of I/O errors rose in this call, `SwapFull` only where the chain's names can
/// fill the swap, and `NoMemory` if memory runs out. A permit may then be spent.
fn add_job<H: ChainMeaning, S: SourceTiles<H>, C: PairStore<H>, K: OpKit>(
    by: &Evaluator<'_, K>,
    held: &StripTiles,
    sources: &mut S,
    cache: &C,
    chain: &mut H,
    purse: &mut K::Purse,
    node: u32,
    at: TileAt,
    jobs: &mut Vec<TileJob<K::Permit>>,
) -> Result<(), SwapRefused>
    requires stated { AreStatedWith K.Op.meanings (S.facts sources.old) by.now.nodes.now by.now.inputs.now }
    requires ready { IsReady K.Op.meanings by.now.nodes.now held.now node at }
    requires lengths { HaveLengths by.now.nodes.now held.now }
    requires over { S.is_over sources.old (H.held chain.old) }
    requires permits { 0 < K.permits purse.old }
    ensures jobs { (needed : List Needed) → AreJobs K.Op.meanings by.now.nodes.now (C.pairs cache.now) needed jobs.old.items →
        IfOk result (λ _. AreJobs K.Op.meanings by.now.nodes.now (C.pairs cache.now) (needed ++ (node, at) ∷ []) jobs.new.items) }
    ensures bytes { (images : Buffers) → S.images sources.old (H.held chain.old) ≡ Some images →
        AreTilesOf K.Op.meanings by.now.nodes.now images held.now → AreJobsOf K.Op.meanings by.now.nodes.now images jobs.old.items →
        IfOk result (λ _. AreJobsOf K.Op.meanings by.now.nodes.now images jobs.new.items) }
    ensures permits { MatchResult result
        (λ _. K.permits purse.new + length jobs.new.items ≡ K.permits purse.old + length jobs.old.items)
        (λ _. (K.permits purse.new ≤ K.permits purse.old) × (K.permits purse.old ≤ K.permits purse.new + 1)) }
    ensures read { ReadsTiles (source_state H.ChainMeaning S.SourceTiles sources.old chain.old)
        (source_state H.ChainMeaning S.SourceTiles sources.new chain.new) result }
{
    let nodes = by.nodes;
    let fact = &nodes[node as usize];
    if cache.has(fact.spec.name, at) {
        return Ok(());
    }
    let job = tile_job(
        by.kit, by.alloc, by.nodes, by.inputs, held, sources, chain, purse, node, at,
    )?;
    jobs.push(job)?;
    Ok(())
}

/// Makes a job of each of these needed tiles that the cache hasn't, in their order. Takes a permit for each, and time in
/// proportion to the tiles that they require.
///
/// # Errors
///
/// `SwapFault` only where the swap's count of I/O errors rose in this call, `SwapFull` only where the chain's names can
/// fill the swap, and `NoMemory` if memory runs out. Some of the permits may then be spent.
pub(crate) fn tile_jobs<H: ChainMeaning, S: SourceTiles<H>, C: PairStore<H>, K: OpKit>(
    by: &Evaluator<'_, K>,
    held: &StripTiles,
    sources: &mut S,
    cache: &C,
    chain: &mut H,
    purse: &mut K::Purse,
    batch: &[(u32, TileAt)],
) -> Result<Vec<TileJob<K::Permit>>, SwapRefused>
    requires stated { AreStatedWith K.Op.meanings (S.facts sources.old) by.now.nodes.now by.now.inputs.now }
    requires ready { AreReady K.Op.meanings by.now.nodes.now held.now batch.now }
    requires lengths { HaveLengths by.now.nodes.now held.now }
    requires over { S.is_over sources.old (H.held chain.old) }
    requires permits { length batch.now ≤ K.permits purse.old }
    ensures jobs { IfOk result (λ jobs. AreJobs K.Op.meanings by.now.nodes.now (C.pairs cache.now) batch.now jobs.items) }
    ensures bytes { (images : Buffers) → S.images sources.old (H.held chain.old) ≡ Some images →
        AreTilesOf K.Op.meanings by.now.nodes.now images held.now →
        IfOk result (λ jobs. AreJobsOf K.Op.meanings by.now.nodes.now images jobs.items) }
    ensures permits { MatchResult result (λ jobs. Spent (K.permits purse.old) (K.permits purse.new) (length jobs.items))
        (λ _. (K.permits purse.new ≤ K.permits purse.old) × (K.permits purse.old ≤ K.permits purse.new + length batch.now)) }
    ensures read { ReadsTiles (source_state H.ChainMeaning S.SourceTiles sources.old chain.old)
        (source_state H.ChainMeaning S.SourceTiles sources.new chain.new) result }
{
    let mut jobs = Vec::new(by.alloc);
    for entry in batch {
        add_job(
            by, held, sources, cache, chain, purse, entry.0, entry.1, &mut jobs,
        )?;
    }
    Ok(jobs)
}

/// Returns about how many nanoseconds it takes to carry these jobs out.
fn work_of<P>(jobs: &[TileJob<P>]) -> u64 {
    let mut work: u64 = 0;
    for job in jobs {
        work = work.saturating_add(job.nanoseconds());
    }
    work
}

/// Carries jobs out, handed out one by one to as many workers as they are worth. Returns the tiles that they make, in
/// their order.
///
/// # Errors
///
/// `NoMemory` if memory runs out.
pub(crate) fn apply_jobs<K: OpKit + Sync, R: Threads + Sync>(
    kit: &K,
    alloc: Global,
    nodes: &[NodeFact<K::Op>],
    inputs: &[NodeInputs],
    jobs: Vec<TileJob<K::Permit>>,
    workers: Workers<'_, R>,
) -> Result<Vec<((u32, TileAt), Tile)>, NoMemory>
where
    K::Op: Sync,
    K::Permit: Send,
    requires inputs { inputs.now ≡ all_inputs nodes.now }
    requires jobs { AllByRecursion (IsTileJob K.Op.meanings nodes.now) jobs.items }
    ensures { IfOk result (λ made. made.items ≡ map (made_of K.Op.meanings nodes.now) jobs.items) }
{
    let workers = workers.for_work(work_of(&jobs));
    workers.batch(
        alloc,
        jobs,
        |job: TileJob<K::Permit>| -> Result<((u32, TileAt), Tile), NoMemory>
            requires inputs { inputs.now ≡ all_inputs nodes.now }
            requires job { IsTileJob K.Op.meanings nodes.now job }
            ensures { IfOk result (λ made. made ≡ made_of K.Op.meanings nodes.entry.now job) }
        {
            let needed = (job.node, job.at);
            let tile = apply_job(kit, alloc, nodes, inputs, job)?;
            Ok((needed, tile))
        },
    )
}
