//! Values that are compared row by row.

use outside_io::MemSwap;
use plane_rect::Name;
use std::alloc::Global;
use std::fmt::Debug;
use std::process::Abort;

/// A rectangle by x, y, width and height.
pub type Fields = [i64; 4];

/// Checks that what a row gives is what it should, and tells the row and both where it isn't.
pub fn check_row<T: PartialEq + Debug>(rt: &impl Abort, row: usize, found: &T, wanted: &T) {
    assert!(rt;
        found == wanted,
        "row {row}: found {found:?}, wanted {wanted:?}"
    );
}

/// Returns the name that a word is.
pub fn name(rt: &impl Abort, word: &str) -> Name {
    Name::parse(word.as_bytes()).expect(rt, "a name")
}

/// Returns a disk of 64 blocks of which the read and the write of these numbers fail, counted from 1; at 0 none fails.
pub fn disk_of(rt: &impl Abort, alloc: Global, read: u64, write: u64) -> MemSwap {
    let reads = vec![in alloc; read].expect(rt, "memory");
    let writes = vec![in alloc; write].expect(rt, "memory");
    MemSwap::new(alloc, 64, reads, writes).expect(rt, "memory")
}
