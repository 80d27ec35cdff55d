//! Lines over a swap.

ghost use Rattle.std.specs.Prelude.{◌≤◌, ◌^◌, All, IfOk, IfSome, is_some, length, min, []};
ghost use Rattle.tile_chain.specs.OwnedTiles.{counts_over};
ghost use Rattle.model_runs.specs.Run.{effects, state_after};
ghost use Rattle.model_runs.specs.{Ending.ended, State.first_state};
ghost use Rattle.pixel_formats.specs.Limits.{max_lines};
ghost use Rattle.run_lines.specs.Carried.{CarriesOutLines, IsCounted};
ghost use Rattle.run_lines.specs.Moments.{HasFaults};
ghost use Rattle.run_lines.specs.Commands.{IsBuiltLine};

use crate::lines::carry_out_lines;
use commit_session::{Counts, SessionState};
use model_runs::End;
use outside_io::{Lent, Shelf, Sink, SwapDisk};
use script_read::Line;
use std::alloc::Global;
use std::thread::Threads;
use tile_chain::{ChainMemory, OwnedTiles};
use worker_pieces::Workers;

/// How much of a swap a run uses, and of memory.
#[derive(Clone, Copy, Debug, PartialEq, Eq)]
pub struct RunLimits {
    /// At most so many blocks of the swap.
    pub swap_blocks: u32,
    /// At most so many tiles of the chain in memory.
    pub resident: u32,
    /// At most so many cached tiles of nodes.
    pub cache: u32,
}

/// Carries out lines over a swap up to the first that is refused, whose text it puts. Returns how many tiles of
/// nodes were evaluated, and how many were found in the cache. Files and texts are those of the lines where the
/// swap exposes its blocks, and the texts in any case.
///
/// # Errors
///
/// `Refused` at a line that is refused. `ReadFault`, `WriteFault`, `OutputFault` and `SwapFault` only where the
/// count of that device rose, `SwapFull` only where the tiles of the lines exceed the limits, and `NoMemory` if
/// memory runs out.
pub fn carry_out<F: Shelf, D: SwapDisk, O: Sink, R: Threads + Sync>(
    alloc: Global,
    lines: &[Line],
    limits: RunLimits,
    shelf: &mut F,
    swap: &mut D,
    out: &mut O,
    workers: Workers<'_, R>,
) -> Result<Counts, End>
    requires blocks { limits.swap_blocks ≤ 2 ^ 20 }
    requires resident { 1 ≤ limits.resident }
    requires cache { 1 ≤ limits.cache }
    requires lines { All IsBuiltLine lines.now }
    requires few { length lines.now ≤ max_lines }
    ensures carried { IfSome (F.files shelf.old) (λ files.
        CarriesOutLines (is_some (D.blocks swap.old)) limits.cache (first_state []) files lines.now (ended result)
        (record { files = F.files shelf.old; text = O.written out.old; reads = F.read_faults shelf.old; writes = F.write_faults shelf.old; puts = O.faults out.old; chain = counts_over (D.faults swap.old) (min limits.swap_blocks (D.block_count swap.old)) limits.resident })
        (record { files = F.files shelf.new; text = O.written out.new; reads = F.read_faults shelf.new; writes = F.write_faults shelf.new; puts = O.faults out.new; chain = counts_over (D.faults swap.new) (min limits.swap_blocks (D.block_count swap.old)) limits.resident })) }
    ensures counts { IfSome (F.files shelf.old) (λ files. IfOk result (λ counts.
        IsCounted (state_after (first_state []) (effects limits.cache (first_state []) files lines.now)) counts.applied counts.reused)) }
    ensures faults { HasFaults (ended result)
        (record { files = F.files shelf.old; text = O.written out.old; reads = F.read_faults shelf.old; writes = F.write_faults shelf.old; puts = O.faults out.old; chain = counts_over (D.faults swap.old) (min limits.swap_blocks (D.block_count swap.old)) limits.resident })
        (record { files = F.files shelf.new; text = O.written out.new; reads = F.read_faults shelf.new; writes = F.write_faults shelf.new; puts = O.faults out.new; chain = counts_over (D.faults swap.new) (min limits.swap_blocks (D.block_count swap.old)) limits.resident }) }
{
    let memory = ChainMemory::new(alloc, limits.swap_blocks.min(swap.size()), limits.resident)?;
    let mut session = SessionState::new(alloc, limits.cache)?;
    let mut chain = OwnedTiles::over(memory, Lent { disk: swap });
    let carried = carry_out_lines(alloc, lines, &mut session, &mut chain, shelf, out, workers);
    let Lent { disk: _back } = chain.end();
    carried?;
    Ok(session.counts())
}
