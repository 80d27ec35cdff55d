//! What holds of made jobs.

ghost use Rattle.std.specs.Prelude.{◌≤◌};
ghost use Rattle.outside_io.specs.Files.{Files};
ghost use Rattle.model_runs.specs.MadeJob.{render_sum};
ghost use Rattle.made_jobs.specs.Rasters.{HaveRasters};

/// States that the sum of all bytes of the 28 files that a job's renders write is at most 4,211,343,360, where each has
/// at most the bytes of 512 by 384 pixels of three.
pub fn sums_of_rasters_are_small()
    ensures { (files : Files) → HaveRasters files → render_sum files ≤ 4211343360 }
{}
