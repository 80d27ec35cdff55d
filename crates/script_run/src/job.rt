//! Made jobs.

ghost use Rattle.std.specs.Prelude.{◌≡◌, IfOk, Option, Some};
ghost use Rattle.outside_io.specs.Files.{Files};
ghost use Rattle.model_runs.specs.MadeJob.{made_files};
ghost use Rattle.run_lines.specs.Moments.{HasFaults};
ghost use Rattle.script_run.specs.Carried.{CarriesOutJob, job_moment};

use crate::endings::put_job_end;
use crate::script::carry_out_script;
use alloc_basics::NoMemory;
use made_jobs::make_script;
use model_runs::End;
use outside_io::{Sink, SureShelf, SureSwap};
use run_words::Options;
use std::alloc::Global;
use std::thread::Threads;

/// The name of a job's script on its shelf.
const SCRIPT: &str = "job.txt";

/// The name of the raster that it loads.
const RASTER: &str = "g.raw";

/// How many blocks a job's swap has: 64 MiB.
const JOB_BLOCKS: u32 = 16_384;

/// Makes the job of a number, and runs it over a shelf and a swap of its own, which never fail. Puts the sum of all
/// bytes of the files that its renders write before the report.
pub(crate) fn run_job<O: Sink, R: Threads + Sync>(
    threads: &R,
    alloc: Global,
    number: u32,
    out: &mut O,
) -> Result<(), End>
    ensures carried { (left : Option Files) × CarriesOutJob number result
        (job_moment (Some (made_files number)) (O.written out.old) (O.faults out.old)) (job_moment left (O.written out.new) (O.faults out.new)) }
    ensures faults { (before after : Option Files) → HasFaults result
        (job_moment before (O.written out.old) (O.faults out.old)) (job_moment after (O.written out.new) (O.faults out.new)) }
{
    let mut shelf = job_shelf(alloc, number)?;
    let mut swap = SureSwap::new(alloc, JOB_BLOCKS)?;
    let options = Options::without_words();
    let counts = carry_out_script(threads, alloc, SCRIPT, options, &mut shelf, &mut swap, out)?;
    put_job_end(alloc, &shelf, counts, out)
}

/// Returns a shelf that holds the job of a number.
fn job_shelf(alloc: Global, number: u32) -> Result<SureShelf, NoMemory>
    ensures { IfOk result (λ shelf. shelf ≡ made_files number) }
{
    let job = make_script(alloc, number)?;
    let mut files = Vec::new(alloc);
    files.push((String::from_str(alloc, RASTER)?, job.raster))?;
    files.push((String::from_str(alloc, SCRIPT)?, job.script))?;
    Ok(SureShelf::new(alloc, files))
}
