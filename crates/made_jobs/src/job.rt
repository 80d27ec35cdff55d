//! Jobs of a number.

ghost use Rattle.std.specs.Prelude.{◌≡◌, IfOk};
ghost use Rattle.model_runs.specs.MadeJob.{made_raster, made_script};

use crate::generator::Generator;
use crate::script::put_script;
use alloc_basics::NoMemory;
use std::alloc::Global;

/// How many bytes the raster has: 512 by 384 pixels of three.
const RASTER_BYTES: usize = 512 * 384 * 3;

/// A script, and the raster that it loads.
#[derive(Drop)]
pub struct Job {
    /// The text of the script.
    pub script: Vec<u8>,
    /// The raw bytes of the raster.
    pub raster: Vec<u8>,
}

/// Returns the job of a number. Takes time in proportion to its 589,824 bytes of raster.
///
/// # Errors
///
/// `NoMemory` if memory runs out.
pub fn make_script(alloc: Global, number: u32) -> Result<Job, NoMemory>
    ensures script { IfOk result (λ job. job.script.items ≡ made_script number) }
    ensures raster { IfOk result (λ job. job.raster.items ≡ made_raster number) }
{
    let mut generator = Generator::new(number);
    let script = put_script(alloc, &mut generator)?;
    let raster = generator.draw_bytes(alloc, RASTER_BYTES)?;
    Ok(Job { script, raster })
}
