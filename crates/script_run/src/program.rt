//! The call that the program makes.

ghost use Rattle.std.specs.Prelude.{◌≡◌, ◌↔◌, ◌≤◌, ◌||◌, [], is_some, map, string_bytes, None, Some, IfSome, IsTrue};
ghost use Rattle.outside_io.specs.Files.{file};
ghost use Rattle.model_runs.specs.Built.{built_plan, needs_no_swap};
ghost use Rattle.model_runs.specs.Ran.{NoneFalls, Ran};
ghost use Rattle.model_runs.specs.Words.{asked_job, asked_script, request_of as asked_by};
ghost use Rattle.model_runs.specs.{Run.lines_of_file, State.Numbers};
ghost use Rattle.script_run.specs.Promises.{AreUntouched, HasStatusCause, RanJob, RanUnswapped};

use crate::job::run_job;
use crate::script::run_script;
use model_runs::status_of;
use outside_io::{Gate, Shelf, Sink, SwapDisk};
use run_words::{Request, request_of};
use std::alloc::Global;
use std::thread::Threads;

/// The status of words that are no command line.
pub const WRONG_WORDS: u8 = 1;

/// Runs the program's words, without the program's own name, and returns its status:
///
/// - 0: every line was carried out.
/// - 1: the words are no command line, and nothing was touched.
/// - 2: a line is refused, and the last line of the text says which and why.
/// - 3: a file couldn't be read; 4: one couldn't be written.
/// - 5: the swap failed; 8: it is full.
/// - 6: the text couldn't be put.
/// - 7: memory ran out.
///
/// At 0 and 2 the files and the text are those of all lines that were carried out. At the others the first of them have
/// come, and perhaps a prefix of the next.
pub fn run<F: Shelf, D: SwapDisk, O: Sink, G: Gate + Sync, R: Threads + Sync>(
    threads: &R,
    alloc: Global,
    words: &[String],
    shelf: &mut F,
    swap: &mut D,
    out: &mut O,
    gate: &G,
) -> u8
    // 1 comes exactly where the words are in no grammar, and then nothing is touched.
    ensures words { (result ≡ 1) ↔ (asked_by (map string_bytes words.now) ≡ None) }
    ensures untouched { result ≡ 1 → AreUntouched shelf.old shelf.new swap.old swap.new out.old out.new }

    // What a run of the script leaves, by its status. Its files are known where the swap exposes its blocks, or isn't
    // used.
    ensures ran { IfSome (asked_script (map string_bytes words.now)) (λ run. IfSome (F.files shelf.old)
        (λ files. (numbers : Numbers) × Ran (IsTrue (is_some (D.blocks swap.old) || needs_no_swap (lines_of_file (file files run.script))))
        (built_plan numbers files run) numbers (D.block_count swap.old)
        (record { files = Some files; text = O.written out.old }) (record { files = F.files shelf.new; text = O.written out.new })
        (record { reads = F.read_faults shelf.old; writes = F.write_faults shelf.old; swaps = D.faults swap.old; puts = O.faults out.old })
        (record { reads = F.read_faults shelf.new; writes = F.write_faults shelf.new; swaps = D.faults swap.new; puts = O.faults out.new })
        result)) }

    // A script that needs no swap leaves it unchanged, and comes to its end or to the refused line whatever the swap is,
    // where no count of the shelf and the sink rose, unless memory runs out.
    ensures unswapped { IfSome (asked_script (map string_bytes words.now)) (λ run. IfSome (F.files shelf.old)
        (λ files. IsTrue (needs_no_swap (lines_of_file (file files run.script))) →
        RanUnswapped (built_plan [] files run).outcome.refused swap.old swap.new
        (record { reads = F.read_faults shelf.old; writes = F.write_faults shelf.old; swaps = D.faults swap.old; puts = O.faults out.old })
        (record { reads = F.read_faults shelf.new; writes = F.write_faults shelf.new; swaps = D.faults swap.new; puts = O.faults out.new })
        result)) }

    // A made job leaves the handed shelf and swap unchanged: it has a shelf and a swap of its own, which never fail. What
    // its run leaves is what a run of its script leaves over that shelf, whose files nobody sees afterwards.
    ensures job { IfSome (asked_job (map string_bytes words.now))
        (λ number. RanJob number shelf.old shelf.new swap.old swap.new (O.written out.old) (O.written out.new) (O.faults out.old) (O.faults out.new) result) }

    // An I/O error comes only where its count rose.
    ensures cause { HasStatusCause
        (record { reads = F.read_faults shelf.old; writes = F.write_faults shelf.old; swaps = D.faults swap.old; puts = O.faults out.old })
        (record { reads = F.read_faults shelf.new; writes = F.write_faults shelf.new; swaps = D.faults swap.new; puts = O.faults out.new })
        result }
    ensures known { result ≤ 8 }

    // No count falls.
    ensures counts { NoneFalls
        (record { reads = F.read_faults shelf.old; writes = F.write_faults shelf.old; swaps = D.faults swap.old; puts = O.faults out.old })
        (record { reads = F.read_faults shelf.new; writes = F.write_faults shelf.new; swaps = D.faults swap.new; puts = O.faults out.new }) }
{
    match request_of(words) {
        Some(Request::RunScript { script, options }) => {
            let ended = run_script(threads, alloc, script, options, shelf, swap, out);
            status_of(ended)
        }
        Some(Request::MakeJob(number)) => status_of(run_job(threads, alloc, number, out)),
        None => WRONG_WORDS,
    }
}
