//! Files that are written and texts that are put.

ghost use Rattle.std.specs.Prelude.{[], ◌∷◌, ℕ, Err, IfErr, List, Option};
ghost use Rattle.model_runs.specs.Ending.{Leaves, MayTear};
ghost use Rattle.model_runs.specs.Events.{Puts, Writes, events_alone, refusal};
ghost use Rattle.run_lines.specs.Causes.{HasShelfCause, HasSinkCause};
ghost use Rattle.run_lines.specs.Leaving.{SinkLeaves};

use model_runs::{Cause, End, refusal_text};
use outside_io::{Shelf, ShelfAnswer, Sink, SinkAnswer};
use script_read::FileName;
use std::alloc::Global;

/// Makes a file hold these bytes. `WriteFault` where the shelf fails, and `NoMemory` if memory runs out.
pub fn write_file<F: Shelf>(bytes: &[u8], file: &FileName, shelf: &mut F) -> Result<(), End>
    ensures leaves { (text : Option (List ℕ)) → Leaves (events_alone (Writes file.now bytes.now ∷ [])) result
        (record { files = F.files shelf.old; text = text }) (record { files = F.files shelf.new; text = text }) }
    ensures torn { IfErr result (λ end. MayTear (Err end)) }
    ensures cause { HasShelfCause F.read_faults F.write_faults result shelf.old shelf.new }
{
    match shelf.write(file.as_str(), bytes) {
        Ok(()) => Ok(()),
        Err(ShelfAnswer::Failed) => Err(End::WriteFault),
        Err(ShelfAnswer::NoMemory) => Err(End::NoMemory),
        Err(ShelfAnswer::Absent | ShelfAnswer::TooLong { .. }) => unreachable!(),
    }
}

/// Ends a run at a line that is refused, and puts its text. Answers `Refused`, or why the text couldn't be put.
pub fn refuse<O: Sink>(alloc: Global, line: u32, cause: Cause, out: &mut O) -> Result<(), End>
    ensures leaves { SinkLeaves O.written (refusal line cause) result out.old out.new }
    ensures cause { HasSinkCause O.faults result out.old out.new }
{
    let text = refusal_text(alloc, line, cause)?;
    put_text(&text, out)?;
    Err(End::Refused)
}

/// Puts a text. `OutputFault` where the sink fails, and `NoMemory` if memory runs out.
pub fn put_text<O: Sink>(text: &str, out: &mut O) -> Result<(), End>
    ensures leaves { SinkLeaves O.written (events_alone (Puts text.now ∷ [])) result out.old out.new }
    ensures cause { HasSinkCause O.faults result out.old out.new }
{
    match out.put(text.as_bytes()) {
        Ok(()) => Ok(()),
        Err(SinkAnswer::Failed) => Err(End::OutputFault),
        Err(SinkAnswer::NoMemory) => Err(End::NoMemory),
    }
}
