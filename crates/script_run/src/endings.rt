//! What is put where a script ends.

ghost use Rattle.std.specs.Prelude.{[], ◌∷◌, IfOk};
ghost use Rattle.model_runs.specs.{Ending.ended, MadeJob.render_sum};
ghost use Rattle.run_lines.specs.{Causes.HasSinkCause, Leaving.SinkLeaves};
ghost use Rattle.model_runs.specs.Events.{Puts, events_alone, refusal};
ghost use Rattle.model_runs.specs.Texts.{report_text as text_of_report, sum_text as text_of_sum};

use crate::sums::sum_of_renders;
use model_runs::{Cause, End, report_text, sum_text};
use outside_io::{Sink, SureShelf};
use run_lines::{Counts, put_text, refuse};
use std::alloc::Global;

/// Ends a run at a line that is refused, and puts its text.
pub(crate) fn refuse_script<O: Sink>(
    alloc: Global,
    line: u32,
    cause: Cause,
    out: &mut O,
) -> Result<Counts, End>
    ensures leaves { SinkLeaves O.written (refusal line cause) (ended result) out.old out.new }
    ensures cause { HasSinkCause O.faults (ended result) out.old out.new }
    ensures none { IfOk result (λ _. ⊥) }
{
    match refuse(alloc, line, cause, out) {
        Ok(()) => unreachable!(),
        Err(end) => Err(end),
    }
}

/// Puts the report of how many tiles of nodes were evaluated, and how many were found in the cache.
pub(crate) fn put_report<O: Sink>(alloc: Global, counts: Counts, out: &mut O) -> Result<(), End>
    ensures leaves { SinkLeaves O.written (events_alone (Puts (text_of_report counts.applied counts.reused) ∷ [])) result out.old out.new }
    ensures cause { HasSinkCause O.faults result out.old out.new }
{
    let text = report_text(alloc, counts.applied, counts.reused)?;
    put_text(&text, out)
}

/// Puts the sum of all bytes of the files that a job's renders wrote, and then the report.
pub(crate) fn put_job_end<O: Sink>(
    alloc: Global,
    shelf: &SureShelf,
    counts: Counts,
    out: &mut O,
) -> Result<(), End>
    ensures leaves { SinkLeaves O.written (events_alone (Puts (text_of_sum (render_sum shelf.now)) ∷ Puts (text_of_report counts.applied counts.reused) ∷ [])) result out.old out.new }
    ensures cause { HasSinkCause O.faults result out.old out.new }
{
    put_sum(alloc, shelf, out)?;
    put_report(alloc, counts, out)
}

/// Puts the sum of all bytes of the files that a job's renders wrote.
fn put_sum<O: Sink>(alloc: Global, shelf: &SureShelf, out: &mut O) -> Result<(), End>
    ensures leaves { SinkLeaves O.written (events_alone (Puts (text_of_sum (render_sum shelf.now)) ∷ [])) result out.old out.new }
    ensures cause { HasSinkCause O.faults result out.old out.new }
{
    let sum = sum_of_renders(alloc, shelf)?;
    let text = sum_text(alloc, sum)?;
    put_text(&text, out)
}
