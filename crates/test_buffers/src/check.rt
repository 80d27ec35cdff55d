//! What a failing row prints.

use std::fmt::Debug;
use std::process::Abort;

/// Checks that a row gives what is wanted, and else prints its number or its name, and both values.
pub fn check<R: Copy + Debug, T: Copy + Debug + PartialEq>(
    rt: &impl Abort,
    row: R,
    found: T,
    wanted: T,
) {
    assert!(rt;
        found == wanted,
        "row {row:?} gives {found:?} in place of {wanted:?}"
    );
}
