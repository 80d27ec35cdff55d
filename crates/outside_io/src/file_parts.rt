//! Parts of files, which several threads may read.

ghost use Rattle.std.specs.Prelude.{◌≡◌, ◌<◌, ◌≤◌, IfOk, Ok, Some, length};
ghost use Rattle.std.specs.Thread.{IsSync};
ghost use Rattle.outside_io.specs.Shelf.{GivesPart};

use crate::open_files::{MAX_INTERRUPTIONS, refusal};
use crate::shelf::ShelfAnswer;
use std::io;
use std::io::ErrorKind;
use std::os::unix::fs::FileExt;
use std::thread::Threads;
use worker_pieces::Workers;

/// How many bytes of a file that the system has in memory a thread copies in a nanosecond, at least.
const BYTES_PER_NANOSECOND: u64 = 3;

/// Copies the bytes of a file from a position on, as many as the slice has room for, and fewer only where they end. Returns
/// how many.
pub(crate) fn copy_part(bytes: &[u8], start: u64, into: &mut [u8]) -> usize
    ensures gives { GivesPart (Some bytes.now) start (length into.old) into.new (Ok result) }
    ensures within { result ≤ length into.new }
    ensures length { length into.new ≡ length into.old }
{
    let rest = bytes.get(start as usize..).unwrap_or(&[]);
    let count = rest.len().min(into.len());
    into[..count].copy_from_slice(&rest[..count]);
    count
}

/// Reads a file from a position on into the slice, to the file's end or the slice's, and returns how many bytes. The
/// workers read a piece each, where that is worth it.
///
/// # Errors
///
/// `Failed` if a read fails, and `NoMemory` if the system has none left.
pub(crate) fn read_at<F: FileExt + Sync, R: Threads + Sync>(
    file: &F,
    start: u64,
    into: &mut [u8],
    workers: Workers<'_, R>,
) -> Result<usize, ShelfAnswer>
    ensures within { IfOk result (λ count. count ≤ length into.new) }
    ensures length { length into.new ≡ length into.old }
{
    let readers = workers.for_work(into.len() as u64 / BYTES_PER_NANOSECOND);
    if readers.are_several() {
        fill_by_pieces(file, start, readers.count() as usize, readers, into)
    } else {
        fill_piece(file, start, into)
    }
}

/// Reads a file into the slice by at most so many pieces, each on a thread of its own. A piece that isn't filled is the
/// last one of which the file has bytes.
#[cycle(pieces)]
fn fill_by_pieces<F: FileExt + Sync, R: Threads + Sync>(
    file: &F,
    start: u64,
    pieces: usize,
    workers: Workers<'_, R>,
    into: &mut [u8],
) -> Result<usize, ShelfAnswer>
    ensures within { IfOk result (λ count. count ≤ length into.new) }
    ensures length { length into.new ≡ length into.old }
{
    if pieces == 0 || into.is_empty() {
        return fill_piece(file, start, into);
    }
    let count = into.len().div_ceil(pieces);
    let next = start.saturating_add(count as u64);
    let (first, rest) = into.split_at_mut(count);
    let (filled, more) = workers.both(
        &mut || -> Result<usize, ShelfAnswer>
            ensures within { IfOk result (λ filled. filled ≤ length first.exit.now) }
            ensures length { length first.exit.now ≡ length first.entry.now }
        { fill_piece(file, start, first) },
        &mut || -> Result<usize, ShelfAnswer>
            requires { (0 < pieces) × IsSync F.row × IsSync R.row }
            ensures within { IfOk result (λ more. more ≤ length rest.exit.now) }
            ensures length { length rest.exit.now ≡ length rest.entry.now }
        { fill_by_pieces(file, next, pieces - 1, workers, rest) },
    );
    let filled = filled?;
    let more = more?;
    if filled < count {
        Ok(filled)
    } else {
        Ok(filled + more)
    }
}

/// Reads a piece of a file, as `fill_at` does.
fn fill_piece<F: FileExt>(file: &F, start: u64, into: &mut [u8]) -> Result<usize, ShelfAnswer>
    ensures within { IfOk result (λ count. count ≤ length into.new) }
    ensures length { length into.new ≡ length into.old }
{
    fill_at(file, start, into).map_err(refusal)
}

/// Reads a file from a position on into the slice, to the file's end or the slice's, and returns how many bytes.
/// Each turn but the last takes at least one byte.
pub(crate) fn fill_at<F: FileExt>(file: &F, start: u64, into: &mut [u8]) -> io::Result<usize>
    ensures within { IfOk result (λ filled. filled ≤ length into.new) }
    ensures length { length into.new ≡ length into.old }
{
    let mut filled = 0;
    while filled < into.len() {
        let position = start.saturating_add(filled as u64);
        let count = read_some_at(file, position, &mut into[filled..])?;
        if count == 0 {
            return Ok(filled);
        }
        filled += count;
    }
    Ok(filled)
}

/// Reads once at a position, and again where a signal interrupted it, at most `MAX_INTERRUPTIONS` times.
fn read_some_at<F: FileExt>(file: &F, position: u64, into: &mut [u8]) -> io::Result<usize>
    ensures read { IfOk result (λ count. count ≤ length into.old) }
    ensures length { length into.new ≡ length into.old }
{
    for _ in 0..MAX_INTERRUPTIONS {
        match file.read_at(into, position) {
            Err(error) if error.kind() == ErrorKind::Interrupted => {}
            answer => return answer,
        }
    }
    Err(io::Error::from(ErrorKind::Interrupted))
}
