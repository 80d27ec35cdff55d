//! Scripts of a shelf.

ghost use Rattle.std.specs.Prelude.{◌≡◌, is_some, min, Ok, IfOk, IfSome, IsTrue};
ghost use Rattle.tile_chain.specs.OwnedTiles.{counts_over};
ghost use Rattle.outside_io.specs.{FileName.is_file_name, Files.file};
ghost use Rattle.script_read.specs.{IsScript.IsScript, Script.script_of};
ghost use Rattle.model_runs.specs.Run.{by_grammar, lines_of_file, no_ending, report};
ghost use Rattle.model_runs.specs.{Built.needs_no_swap, Ending.ended, Laws.AreInRange};
ghost use Rattle.run_lines.specs.{Carried.IsCounted, Moments.HasFaults};
ghost use Rattle.run_words.specs.Meant.{options_meant};
ghost use Rattle.script_run.specs.Carried.{CarriesOutRead, EndsWithoutSwap, last_state};

use crate::built::first_unbuilt;
use crate::endings::{put_report, refuse_script};
use model_runs::{Cause, End};
use outside_io::{Shelf, ShelfAnswer, Sink, SwapDisk};
use pixel_formats::limits::MAX_SCRIPT_BYTES;
use run_lines::{Counts, RunLimits, carry_out};
use run_words::Options;
use script_read::{Line, ScriptAnswer, ScriptCause, read_script};
use std::alloc::Global;
use std::thread::Threads;
use worker_pieces::Workers;

/// Reads a script, carries it out, and puts the report after its last line.
pub(crate) fn run_script<F: Shelf, D: SwapDisk, O: Sink, R: Threads + Sync>(
    threads: &R,
    alloc: Global,
    script: &str,
    options: Options,
    shelf: &mut F,
    swap: &mut D,
    out: &mut O,
) -> Result<(), End>
    requires name { IsTrue (is_file_name script.now) }
    requires options { AreInRange (options_meant options) }
    ensures carried { IfSome (F.files shelf.old) (λ files.
        CarriesOutRead report (is_some (D.blocks swap.old)) files (options_meant options) (lines_of_file (file files script.now)) result
        (record { files = F.files shelf.old; text = O.written out.old; reads = F.read_faults shelf.old; writes = F.write_faults shelf.old; puts = O.faults out.old; chain = counts_over (D.faults swap.old) (min options.swap_blocks (D.block_count swap.old)) options.resident })
        (record { files = F.files shelf.new; text = O.written out.new; reads = F.read_faults shelf.new; writes = F.write_faults shelf.new; puts = O.faults out.new; chain = counts_over (D.faults swap.new) (min options.swap_blocks (D.block_count swap.old)) options.resident })) }
    ensures unswapped { IfSome (F.files shelf.old) (λ files. IsTrue (needs_no_swap (lines_of_file (file files script.now))) →
        (swap.new ≡ swap.old) × EndsWithoutSwap result) }
    ensures faults { HasFaults result
        (record { files = F.files shelf.old; text = O.written out.old; reads = F.read_faults shelf.old; writes = F.write_faults shelf.old; puts = O.faults out.old; chain = counts_over (D.faults swap.old) (min options.swap_blocks (D.block_count swap.old)) options.resident })
        (record { files = F.files shelf.new; text = O.written out.new; reads = F.read_faults shelf.new; writes = F.write_faults shelf.new; puts = O.faults out.new; chain = counts_over (D.faults swap.new) (min options.swap_blocks (D.block_count swap.old)) options.resident }) }
{
    let counts = carry_out_script(threads, alloc, script, options, shelf, swap, out)?;
    put_report(alloc, counts, out)
}

/// Reads a script and carries out its lines. Returns the counts of its renders.
pub(crate) fn carry_out_script<F: Shelf, D: SwapDisk, O: Sink, R: Threads + Sync>(
    threads: &R,
    alloc: Global,
    script: &str,
    options: Options,
    shelf: &mut F,
    swap: &mut D,
    out: &mut O,
) -> Result<Counts, End>
    requires name { IsTrue (is_file_name script.now) }
    requires options { AreInRange (options_meant options) }
    ensures carried { IfSome (F.files shelf.old) (λ files.
        CarriesOutRead no_ending (is_some (D.blocks swap.old)) files (options_meant options) (lines_of_file (file files script.now)) (ended result)
        (record { files = F.files shelf.old; text = O.written out.old; reads = F.read_faults shelf.old; writes = F.write_faults shelf.old; puts = O.faults out.old; chain = counts_over (D.faults swap.old) (min options.swap_blocks (D.block_count swap.old)) options.resident })
        (record { files = F.files shelf.new; text = O.written out.new; reads = F.read_faults shelf.new; writes = F.write_faults shelf.new; puts = O.faults out.new; chain = counts_over (D.faults swap.new) (min options.swap_blocks (D.block_count swap.old)) options.resident })) }
    ensures counts { IfSome (F.files shelf.old) (λ files. IfOk result (λ counts.
        IsCounted (last_state files (options_meant options) (lines_of_file (file files script.now))) counts.applied counts.reused)) }
    ensures unswapped { IfSome (F.files shelf.old) (λ files. IsTrue (needs_no_swap (lines_of_file (file files script.now))) →
        (swap.new ≡ swap.old) × EndsWithoutSwap (ended result)) }
    ensures faults { HasFaults (ended result)
        (record { files = F.files shelf.old; text = O.written out.old; reads = F.read_faults shelf.old; writes = F.write_faults shelf.old; puts = O.faults out.old; chain = counts_over (D.faults swap.old) (min options.swap_blocks (D.block_count swap.old)) options.resident })
        (record { files = F.files shelf.new; text = O.written out.new; reads = F.read_faults shelf.new; writes = F.write_faults shelf.new; puts = O.faults out.new; chain = counts_over (D.faults swap.new) (min options.swap_blocks (D.block_count swap.old)) options.resident }) }
{
    match shelf.read(script, MAX_SCRIPT_BYTES) {
        Ok(text) => carry_out_text(threads, alloc, &text, options, shelf, swap, out),
        Err(ShelfAnswer::TooLong { .. }) => refuse_script(alloc, 0, Cause::TooLong, out),
        Err(ShelfAnswer::Absent) => refuse_script(alloc, 0, Cause::Absent, out),
        Err(ShelfAnswer::Failed) => Err(End::ReadFault),
        Err(ShelfAnswer::NoMemory) => Err(End::NoMemory),
    }
}

/// Carries out the text of a script.
fn carry_out_text<F: Shelf, D: SwapDisk, O: Sink, R: Threads + Sync>(
    threads: &R,
    alloc: Global,
    text: &[u8],
    options: Options,
    shelf: &mut F,
    swap: &mut D,
    out: &mut O,
) -> Result<Counts, End>
    requires { AreInRange (options_meant options) }
    ensures carried { IfSome (F.files shelf.old) (λ files.
        CarriesOutRead no_ending (is_some (D.blocks swap.old)) files (options_meant options) (by_grammar (script_of text.now)) (ended result)
        (record { files = F.files shelf.old; text = O.written out.old; reads = F.read_faults shelf.old; writes = F.write_faults shelf.old; puts = O.faults out.old; chain = counts_over (D.faults swap.old) (min options.swap_blocks (D.block_count swap.old)) options.resident })
        (record { files = F.files shelf.new; text = O.written out.new; reads = F.read_faults shelf.new; writes = F.write_faults shelf.new; puts = O.faults out.new; chain = counts_over (D.faults swap.new) (min options.swap_blocks (D.block_count swap.old)) options.resident })) }
    ensures counts { IfSome (F.files shelf.old) (λ files. IfOk result (λ counts.
        IsCounted (last_state files (options_meant options) (by_grammar (script_of text.now))) counts.applied counts.reused)) }
    ensures unswapped { IsTrue (needs_no_swap (by_grammar (script_of text.now))) → (swap.new ≡ swap.old) × EndsWithoutSwap (ended result) }
    ensures faults { HasFaults (ended result)
        (record { files = F.files shelf.old; text = O.written out.old; reads = F.read_faults shelf.old; writes = F.write_faults shelf.old; puts = O.faults out.old; chain = counts_over (D.faults swap.old) (min options.swap_blocks (D.block_count swap.old)) options.resident })
        (record { files = F.files shelf.new; text = O.written out.new; reads = F.read_faults shelf.new; writes = F.write_faults shelf.new; puts = O.faults out.new; chain = counts_over (D.faults swap.new) (min options.swap_blocks (D.block_count swap.old)) options.resident }) }
{
    match read_script(alloc, text) {
        Ok(lines) => carry_out_built(threads, alloc, &lines, options, shelf, swap, out),
        Err(ScriptAnswer::Refused { line, cause }) => {
            refuse_script(alloc, line, Cause::Grammar(cause), out)
        }
        Err(ScriptAnswer::NoMemory) => Err(End::NoMemory),
    }
}

/// Carries out the lines of a script, unless one isn't built.
fn carry_out_built<F: Shelf, D: SwapDisk, O: Sink, R: Threads + Sync>(
    threads: &R,
    alloc: Global,
    lines: &[Line],
    options: Options,
    shelf: &mut F,
    swap: &mut D,
    out: &mut O,
) -> Result<Counts, End>
    requires script { IsScript lines.now }
    requires options { AreInRange (options_meant options) }
    ensures carried { IfSome (F.files shelf.old) (λ files.
        CarriesOutRead no_ending (is_some (D.blocks swap.old)) files (options_meant options) (Ok lines.now) (ended result)
        (record { files = F.files shelf.old; text = O.written out.old; reads = F.read_faults shelf.old; writes = F.write_faults shelf.old; puts = O.faults out.old; chain = counts_over (D.faults swap.old) (min options.swap_blocks (D.block_count swap.old)) options.resident })
        (record { files = F.files shelf.new; text = O.written out.new; reads = F.read_faults shelf.new; writes = F.write_faults shelf.new; puts = O.faults out.new; chain = counts_over (D.faults swap.new) (min options.swap_blocks (D.block_count swap.old)) options.resident })) }
    ensures counts { IfSome (F.files shelf.old) (λ files. IfOk result (λ counts.
        IsCounted (last_state files (options_meant options) (Ok lines.now)) counts.applied counts.reused)) }
    ensures unswapped { IsTrue (needs_no_swap (Ok lines.now)) → (swap.new ≡ swap.old) × EndsWithoutSwap (ended result) }
    ensures faults { HasFaults (ended result)
        (record { files = F.files shelf.old; text = O.written out.old; reads = F.read_faults shelf.old; writes = F.write_faults shelf.old; puts = O.faults out.old; chain = counts_over (D.faults swap.old) (min options.swap_blocks (D.block_count swap.old)) options.resident })
        (record { files = F.files shelf.new; text = O.written out.new; reads = F.read_faults shelf.new; writes = F.write_faults shelf.new; puts = O.faults out.new; chain = counts_over (D.faults swap.new) (min options.swap_blocks (D.block_count swap.old)) options.resident }) }
{
    let Some(unbuilt) = first_unbuilt(lines) else {
        let limits = RunLimits {
            swap_blocks: options.swap_blocks,
            resident: options.resident,
            cache: options.cache,
        };
        let workers = Workers::new(threads, options.workers);
        return carry_out(alloc, lines, limits, shelf, swap, out, workers);
    };
    let cause = Cause::Grammar(ScriptCause::UnknownCommand);
    refuse_script(alloc, unbuilt, cause, out)
}
