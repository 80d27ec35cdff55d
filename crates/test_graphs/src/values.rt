//! Values that are compared row by row, and graphs that scripts make.

use model_graphs::{BufferFact, NodeEdit, NodeSpec};
use model_operations::IntOp;
use plane_rect::Name;
use std::alloc::{AllocError, Global};
use std::fmt::Debug;
use std::process::Abort;
use test_nodes::sketched;

/// A rectangle by x, y, width and height.
pub type Fields = [i64; 4];

/// Checks that what a row gives is what it should, and tells the row and both where it isn't.
pub fn check_row<T: PartialEq + Debug>(rt: &impl Abort, row: usize, found: &T, wanted: &T) {
    assert!(rt;
        found == wanted,
        "row {row}: found {found:?}, wanted {wanted:?}"
    );
}

/// Returns the name that a word is.
pub fn name(rt: &impl Abort, word: &str) -> Name {
    test_nodes::name(word).expect(rt, "a name")
}

/// Returns the buffers and the nodes that the lines of a script make.
pub fn nodes_of(
    rt: &impl Abort,
    alloc: Global,
    script: &str,
) -> (Vec<BufferFact>, Vec<NodeSpec<IntOp>>) {
    let sketch = sketched(alloc, script).expect(rt, "buffers and nodes");
    let mut nodes = Vec::new(alloc);
    for edit in sketch.edits {
        if let NodeEdit::Set(node) = edit {
            nodes
                .push(node)
                .map_err(AllocError::from)
                .expect(rt, "memory");
        }
    }
    (sketch.buffers, nodes)
}
