//! Which needed tiles are made ahead of their turn.

ghost use Rattle.std.specs.Prelude.{◌<◌, ◌≤◌, IfOk, IfSome, length};
ghost use Rattle.std.specs.List.{AllByRecursion};
ghost use Rattle.model_graphs.specs.Shapes.{Shapes};
ghost use Rattle.model_states.specs.Valid.{AreStated};
ghost use Rattle.strip_renders.specs.Batches.{AddsRows, AreOfOneNode, IsBatch, IsInRow};
ghost use Rattle.strip_renders.specs.Strips.{IsStripOf};

use crate::evaluator::Evaluator;
use alloc_basics::NoMemory;
use op_contracts::OpKit;
use plane_rect::TileAt;
use roi_planner::Strip;

/// How many needed tiles a batch has at most. The windows of all its jobs are held at once, so it bounds the memory of
/// source tiles that are read from the swap; and it is more than several workers need to be worth their threads.
const MAX_TILES: usize = 256;

/// Returns the end of the batch of needed tiles that begins at an index: of those of one node, and of no more than
/// `MAX_TILES`.
fn batch_end(need: &[(u32, TileAt)], index: usize) -> usize
    requires { index < length need.now }
    ensures after { index ≤ result }
    ensures within { result ≤ length need.now }
    ensures one { AreOfOneNode need.now index result }
{
    let node = need[index].0;
    let most = need.len().min(index.saturating_add(MAX_TILES));
    for end in index..most {
        if need[end].0 != node {
            return end;
        }
    }
    most
}

/// Returns the row of tiles in which all of these needed ones are, counted from the plane's corner, if there is any and
/// all are of this node.
fn row_of(need: &[(u32, TileAt)], node: u32) -> Option<u32>
    ensures { IfSome result (λ row. AllByRecursion (IsInRow node row) need.now) }
{
    let row = need.first()?.1.row();
    for entry in need {
        if entry.0 != node || entry.1.row() != row {
            return None;
        }
    }
    Some(row)
}

/// Adds to a batch what the strips after it need, from the first one on: as long as each needs tiles of this node alone, all
/// in one row that is further down than this one and than those before it, and the batch has no more than `MAX_TILES`.
///
/// # Errors
///
/// `NoMemory` if memory runs out.
fn add_rows(
    batch: &mut Vec<(u32, TileAt)>,
    node: u32,
    row: u32,
    later: &[Strip],
) -> Result<(), NoMemory>
    ensures { IfOk result (λ _. AddsRows node row later.now batch.old.items batch.new.items) }
{
    let Some((next, others)) = later.split_first() else {
        return Ok(());
    };
    let need = next.need.as_slice();
    if batch.len().saturating_add(need.len()) > MAX_TILES {
        return Ok(());
    }
    match row_of(need, node) {
        Some(below) if row < below => {
            batch.extend_from_slice(need)?;
            add_rows(batch, node, below, others)
        }
        _ => Ok(()),
    }
}

/// Returns the needed tiles of the batch that begins at an index of a strip's need: those of one node, and no more than
/// `MAX_TILES`. Where they are the last of the strip, all in one row, the batch goes on with the strips after it that
/// need tiles of this node alone, so that the threads that are started for it make the tiles of several rows.
///
/// # Errors
///
/// `NoMemory` if memory runs out.
pub(crate) fn batch_of<K: OpKit>(
    by: &Evaluator<'_, K>,
    strip: &Strip,
    later: &[Strip],
    index: usize,
) -> Result<Vec<(u32, TileAt)>, NoMemory>
    requires strip { IsStripOf K.Op.meanings by.now.nodes.now strip.now }
    requires later { AllByRecursion (IsStripOf K.Op.meanings by.now.nodes.now) later.now }
    requires index { index < length strip.now.need }
    ensures { (buffers : Shapes) → AreStated K.Op.meanings buffers by.now.nodes.now →
        IfOk result (λ batch. IsBatch K.Op.meanings by.now.nodes.now strip.now later.now index batch.items) }
{
    let need = strip.need.as_slice();
    let end = batch_end(need, index);
    let mut batch = Vec::new(by.alloc);
    batch.extend_from_slice(&need[index..end])?;
    if end < need.len() {
        return Ok(batch);
    }
    let node = need[index].0;
    let Some(row) = row_of(&batch, node) else {
        return Ok(batch);
    };
    add_rows(&mut batch, node, row, later)?;
    Ok(batch)
}
