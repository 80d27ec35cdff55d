//! What files must hold.

use crate::runs::check_row;
use std::alloc::Global;
use std::process::Abort;

/// How many equal rows follow one another, and the runs of equal bytes that each is: how many, and of which.
pub type Band = (usize, &'static [(usize, u8)]);

/// What a file must hold.
#[derive(Clone, Copy)]
pub enum Content {
    /// There is no such file.
    Absent,
    /// These bytes.
    Bytes(&'static [u8]),
    /// These rows of bytes, from the top.
    Bands(&'static [Band]),
    /// So many first bytes of each of these rows, from the top.
    FirstOf(usize, &'static [Band]),
    /// As many bytes, of this hash.
    Hashed(usize, u64),
}

/// How much of a file is there.
#[derive(Clone, Copy)]
pub enum Kept {
    /// There is no such file.
    Nothing,
    /// The first half of its bytes, rounded down.
    Half,
    /// Some of its first bytes, or there is no such file.
    Beginning,
    /// All of its bytes.
    Whole,
}

impl Content {
    /// Checks that so much of this is in the file of a row. Of a hash, only the whole is known.
    pub fn check(
        &self,
        rt: &impl Abort,
        alloc: Global,
        row: &str,
        found: Option<&[u8]>,
        kept: Kept,
    ) {
        match (kept, self) {
            (Kept::Nothing, _) | (Kept::Whole, Content::Absent) => {
                check_row(rt, row, &found, &None);
            }
            (Kept::Whole, Content::Hashed(count, hash)) => {
                let bytes = found.unwrap_or(&[]);
                check_row(rt, row, &(bytes.len(), hash_of(bytes)), &(*count, *hash));
            }
            _ => {
                let wanted = self.bytes(rt, alloc);
                let wanted = wanted.as_slice();
                check_row(rt, row, &found, &kept.part_of(wanted, found));
            }
        }
    }

    /// Returns the bytes, which are known.
    fn bytes(&self, rt: &impl Abort, alloc: Global) -> Vec<u8> {
        match self {
            Content::Bytes(bytes) => bytes.to_vec(alloc).expect(rt, "memory"),
            Content::Bands(bands) => bytes_of(rt, alloc, bands, usize::MAX),
            Content::FirstOf(count, bands) => bytes_of(rt, alloc, bands, *count),
            _ => panic!(rt; "bytes that are known"),
        }
    }
}

impl Kept {
    /// Returns so much of bytes, of which these were found.
    fn part_of<'a>(self, bytes: &'a [u8], found: Option<&[u8]>) -> Option<&'a [u8]> {
        match self {
            Kept::Nothing => None,
            Kept::Half => bytes.get(..bytes.len() / 2),
            Kept::Beginning => bytes.get(..found?.len()),
            Kept::Whole => Some(bytes),
        }
    }
}

/// Returns the 64-bit FNV-1a hash of bytes.
fn hash_of(bytes: &[u8]) -> u64 {
    let mut hash: u64 = 0xcbf2_9ce4_8422_2325;
    for byte in bytes {
        hash = (hash ^ u64::from(*byte)).wrapping_mul(0x100_0000_01b3);
    }
    hash
}

/// Returns at most so many first bytes of each of some rows.
fn bytes_of(rt: &impl Abort, alloc: Global, bands: &[Band], most: usize) -> Vec<u8> {
    let mut bytes = Vec::new(alloc);
    for band in bands {
        push_band(rt, &mut bytes, band, most);
    }
    bytes
}

fn push_band(rt: &impl Abort, bytes: &mut Vec<u8>, band: &Band, most: usize) {
    for _row in 0..band.0 {
        push_row(rt, bytes, band.1, most);
    }
}

fn push_row(rt: &impl Abort, bytes: &mut Vec<u8>, runs: &[(usize, u8)], most: usize) {
    let mut left = most;
    for (count, byte) in runs {
        push_run(rt, bytes, left.min(*count), *byte);
        left = left.saturating_sub(*count);
    }
}

fn push_run(rt: &impl Abort, bytes: &mut Vec<u8>, count: usize, byte: u8) {
    for _index in 0..count {
        bytes.push(byte).expect(rt, "memory");
    }
}
