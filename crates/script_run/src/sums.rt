//! The sum of the bytes of files.

ghost use Rattle.std.specs.Prelude.{◌≡◌, ◌*◌, ◌≤◌, ◌^◌, [], IfOk, length, string_bytes, sum, unwrap_or};
ghost use Rattle.outside_io.specs.Files.{file};
ghost use Rattle.model_runs.specs.MadeJob.{render_file, render_sum};

use alloc_basics::NoMemory;
use outside_io::SureShelf;
use std::alloc::{AllocError, Global};

/// How many files the renders of a job write.
const RENDERS: u32 = 28;

/// Returns the sum of all bytes of the files that a job's renders wrote. Takes time in proportion to these bytes.
///
/// # Errors
///
/// `NoMemory` if memory runs out.
pub(crate) fn sum_of_renders(alloc: Global, shelf: &SureShelf) -> Result<u128, NoMemory>
    ensures { IfOk result (λ total. total ≡ render_sum shelf.now) }
{
    let mut total = 0;
    for number in 0..RENDERS {
        let name = render_name(alloc, number)?;
        total += sum_of_file(shelf, &name);
    }
    Ok(total)
}

/// Returns the sum of the bytes of a file, 0 where it isn't there.
fn sum_of_file(shelf: &SureShelf, name: &str) -> u128
    ensures value { result ≡ sum (unwrap_or (file shelf.now name.now) []) }
    ensures bound { result ≤ 2 ^ 72 }
{
    match shelf.get(name) {
        Some(bytes) => sum_of(bytes),
        None => 0,
    }
}

/// Returns the name of the file of a render.
fn render_name(alloc: Global, number: u32) -> Result<String, AllocError>
    ensures { IfOk result (λ name. string_bytes name ≡ render_file number) }
{
    format!(in alloc; "r{number}.raw")
}

/// Returns the sum of bytes. No file has so many that the sum needs more than 128 bits. Takes time in proportion to them.
fn sum_of(bytes: &[u8]) -> u128
    ensures value { result ≡ sum bytes.now }
    ensures bound { result ≤ 255 * length bytes.now }
{
    let mut total = 0;
    for byte in bytes {
        total += u128::from(*byte);
    }
    total
}
